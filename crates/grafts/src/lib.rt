// A node's parent goes onto another branch: what SubtreeSlide and WilsonBalding of rove's mcmc/moves.rs write. It takes any slices; what is
// promised is promised of a valid tree and its nodes. It is not offered to hosts. Assumes nothing.
#![tactic(auto)]

ghost use Rattle.std.specs.Prelude.{◌≡◌};
ghost use Rattle.tree.specs.Tree.{nodes_of};
ghost use Rattle.tree.specs.Given.{tree_of};
ghost use Rattle.rules.specs.Rules.{regraft};
ghost use Rattle.grafts.specs.Given.{Regrafts};

// The node's parent goes onto the branch over `to`, at the height x; the root afterwards.
pub fn regraft(
    pairs: &mut [u16],
    parents: &mut [u16],
    heights: &mut [f64],
    root: usize,
    node: usize,
    to: usize,
    x: f64,
) -> usize
    ensures { Regrafts pairs.old parents.old heights.old root node to → tree_of pairs.new parents.new heights.new result ≡ regraft (nodes_of pairs.old) (tree_of pairs.old parents.old heights.old root) node to x }
{
    let p = reads::parent(parents, node);
    let sibling = reads::other(pairs, p, node);
    let top = edits::rotate(pairs, parents, root, sibling, p, to);
    edits::set_height(heights, p, x);
    top
}
