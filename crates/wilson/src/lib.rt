// WilsonBalding of rove's mcmc/moves.rs over lent slices: the call of that name, which refuses what is not in order, and an unvalidated one, which
// leaves the tree unchecked; both take whatever is lent. Of an accepted tree both leave the same, and of any slices the unvalidated one leaves what is
// harmless: its turn is the defined one of a valid tree, and mild on any slices. Assumes nothing.
#![tactic(auto)]

ghost use Rattle.std.specs.Prelude.{◌≡◌, []};
ghost use Rattle.random.specs.Draw.{pick, run, drawn};
ghost use Rattle.tree.specs.Tree.{nodes_of};
ghost use Rattle.tree.specs.Valid.{Valid};
ghost use Rattle.tree.specs.Given.{tree_of, dates_in};
ghost use Rattle.rules.specs.Rules.{range, new_range, old_range};
ghost use Rattle.calls.specs.Call.{called};
ghost use Rattle.moves.specs.Programs as Programs;
ghost use Rattle.moves.specs.Programs.{wilson_height, hosting, host, onto};
ghost use Rattle.moves.specs.Moves.{wilson_balding, move_call, UnvalidatedCall};
ghost use Rattle.calls.specs.Given.{after, turn_of};
ghost use Rattle.calls.specs.Harmless.{Turning};
ghost use Rattle.grafts.specs.Given.{Regrafts};
ghost use Rattle.wilson.specs.Given.{barred, ranges_of, branch_height, Ranged};

use answer::Ratio;
use calls::{Answered, Turn, Turned};
use random::{Random, Supply};
use tree::Tree;

// Whether j is a node onto whose branch i's parent may go: not i, and the root or under a node taller than i.
#[tactic(auto, unfolding(moves::specs::Programs::hosting, tree::specs::Tree::parent, tree::specs::Tree::height))]
fn is_host(parents: &[u16], heights: &[f64], root: usize, i: usize, j: usize) -> bool
    ensures { result ≡ hosting (dates_in parents.now heights.now root) i j }
{
    j != i
        && (j == root
            || reads::height(heights, i) < reads::height(heights, reads::parent(parents, j)))
}

// One of n such nodes.
#[tactic(auto, using(crate::proofs::HostLaws::host_laws))]
fn host(
    mut s: Supply,
    n: usize,
    parents: &[u16],
    heights: &[f64],
    root: usize,
    i: usize,
) -> Option<(usize, Supply)>
    ensures { result ≡ drawn (pick (host n (dates_in parents.now heights.now root) i) s) }
{
    loop {
        let (j, next) = s.below(n)?;
        if is_host(parents, heights, root, i, j) {
            return Some((j, next));
        }
        s = next;
    }
}

// Whether the nodes alone decline the move.
#[tactic(auto, unfolding(crate::specs::Given::barred, tree::specs::Tree::parent))]
fn is_barred(parents: &[u16], root: usize, i: usize, j: usize) -> bool
    ensures { result ≡ barred (dates_in parents.now [] root) i j }
{
    let p = reads::parent(parents, i);
    let q = reads::parent(parents, j);
    j == root || p == root || q == p || j == p || q == i
}

// From the taller of i and j up to q.
#[tactic(auto, unfolding(tree::specs::Tree::height))]
fn range(heights: &[f64], i: usize, j: usize, q: usize) -> f64
    ensures { result ≡ range (dates_in [] heights.now 0) i j q }
{
    reads::height(heights, q) - real::max(reads::height(heights, i), reads::height(heights, j))
}

// From the taller of i and j up to j's parent.
#[tactic(auto, unfolding(rules::specs::Rules::new_range, tree::specs::Tree::parent, tree::specs::Tree::height))]
fn new_range(parents: &[u16], heights: &[f64], i: usize, j: usize) -> f64
    ensures { result ≡ new_range (dates_in parents.now heights.now 0) i j }
{
    range(heights, i, j, reads::parent(parents, j))
}

// From the taller of i and its sibling up to their parent's parent.
#[tactic(auto, unfolding(rules::specs::Rules::old_range, tree::specs::Tree::parent, tree::specs::Tree::height, tree::specs::Tree::sibling))]
fn old_range(pairs: &[u16], parents: &[u16], heights: &[f64], i: usize) -> f64
    ensures { result ≡ old_range (tree_of pairs.now parents.now heights.now 0) i }
{
    let p = reads::parent(parents, i);
    let sibling = reads::other(pairs, p, i);
    range(heights, i, sibling, reads::parent(parents, p))
}

// The ranges of the new and the old branch, or none where the move is declined.
#[tactic(auto, unfolding(crate::specs::Given::barred, rules::specs::Rules::wilson_declines, rules::specs::Rules::new_range, rules::specs::Rules::old_range, tree::specs::Tree::parent, tree::specs::Tree::height, tree::specs::Tree::sibling))]
fn measure(
    pairs: &[u16],
    parents: &[u16],
    heights: &[f64],
    root: usize,
    i: usize,
    j: usize,
) -> Option<(f64, f64)>
    ensures { result ≡ ranges_of (tree_of pairs.now parents.now heights.now root) i j }
{
    let new = new_range(parents, heights, i, j);
    let old = old_range(pairs, parents, heights, i);
    if is_barred(parents, root, i, j) || new == 0.0 || old == 0.0 {
        None
    } else {
        Some((new, old))
    }
}

// The height that a uniform takes on j's branch, above i.
#[tactic(auto, unfolding(tree::specs::Tree::parent, tree::specs::Tree::height))]
fn height_on(parents: &[u16], heights: &[f64], i: usize, j: usize, u: f64) -> Option<f64>
    ensures { result ≡ branch_height (dates_in parents.now heights.now 0) i j u }
{
    let upper = reads::height(heights, reads::parent(parents, j));
    let lower = real::max(reads::height(heights, i), reads::height(heights, j));
    calls::interpolate(lower, upper, u)
}

// A height is drawn, and i's parent goes onto j's branch there; new and old are the ranges, s the supply where the draws are spent.
fn wilson_height(
    pairs: &mut [u16],
    parents: &mut [u16],
    heights: &mut [f64],
    root: usize,
    i: usize,
    j: usize,
    new: f64,
    old: f64,
    s: Supply,
    supply: Supply,
) -> Turn
    ensures { Turning (Ranged pairs.old parents.old heights.old root i j new old) (turn_of (tree_of pairs.old parents.old heights.old root) s (run (wilson_height (tree_of pairs.old parents.old heights.old root) i j) supply)) (tree_of pairs.old parents.old heights.old root) supply (after result pairs.new parents.new heights.new) }
{
    let Some((u, next)) = supply.uniform() else {
        return Turn {
            turned: Turned::Spent,
            supply: s,
        };
    };
    let Some(x) = height_on(parents, heights, i, j, u) else {
        return Turn {
            turned: Turned::Outside(reads::parent(parents, i)),
            supply: next,
        };
    };
    let top = grafts::regraft(pairs, parents, heights, root, i, j, x);
    Turn {
        turned: Turned::Moved(top, Ratio::Lengths(new, old)),
        supply: next,
    }
}

// The move when its nodes are drawn.
fn wilson_onto(
    pairs: &mut [u16],
    parents: &mut [u16],
    heights: &mut [f64],
    root: usize,
    i: usize,
    j: usize,
    s: Supply,
    supply: Supply,
) -> Turn
    ensures { Turning (Regrafts pairs.old parents.old heights.old root i j) (turn_of (tree_of pairs.old parents.old heights.old root) s (run (onto (tree_of pairs.old parents.old heights.old root) i j) supply)) (tree_of pairs.old parents.old heights.old root) supply (after result pairs.new parents.new heights.new) }
{
    let Some((new, old)) = measure(pairs, parents, heights, root, i, j) else {
        return Turn {
            turned: Turned::Declined,
            supply,
        };
    };
    wilson_height(pairs, parents, heights, root, i, j, new, old, s, supply)
}

// A node's parent goes onto another branch, all three drawn: the node, the branch and the height there.
fn wilson_balding_turn(
    pairs: &mut [u16],
    parents: &mut [u16],
    heights: &mut [f64],
    root: usize,
    s: Supply,
) -> Turn
    ensures { Turning (Valid (nodes_of pairs.old) (tree_of pairs.old parents.old heights.old root)) (turn_of (tree_of pairs.old parents.old heights.old root) s (run (Programs.wilson_balding (tree_of pairs.old parents.old heights.old root)) s)) (tree_of pairs.old parents.old heights.old root) s (after result pairs.new parents.new heights.new) }
{
    let n = pairs.len() / 2;
    let Some((i, between)) = calls::non_root(s, n, root) else {
        return Turn {
            turned: Turned::Spent,
            supply: s,
        };
    };
    let Some((j, supply)) = host(between, n, parents, heights, root, i) else {
        return Turn {
            turned: Turned::Spent,
            supply: s,
        };
    };
    wilson_onto(pairs, parents, heights, root, i, j, s, supply)
}

// The call, the tree being left unvalidated: the allowance is checked, then the turn is made.
#[tactic(auto, using(calls::proofs::EntryLaws::unvalidated_laws))]
pub fn wilson_balding_unvalidated(
    pairs: &mut [u16],
    parents: &mut [u16],
    heights: &mut [f64],
    root: usize,
    random: Random,
    allowance: u32,
) -> Answered
    ensures { UnvalidatedCall wilson_balding (tree_of pairs.old parents.old heights.old root) random allowance (called result.answer result.random pairs.new parents.new heights.new) }
{
    if let Err(why) = calls::check_limits(true, allowance) {
        return calls::refuse(why, random);
    }
    let s = Supply {
        random,
        left: allowance,
    };
    let turn = wilson_balding_turn(pairs, parents, heights, root, s);
    calls::answer(turn, random, allowance)
}

// The call: the tree is checked first.
#[tactic(auto, using(calls::proofs::EntryLaws::entry_laws))]
pub fn wilson_balding(
    pairs: &mut [u16],
    parents: &mut [u16],
    heights: &mut [f64],
    root: usize,
    random: Random,
    allowance: u32,
) -> Answered
    ensures { called result.answer result.random pairs.new parents.new heights.new ≡ move_call wilson_balding (tree_of pairs.old parents.old heights.old root) random allowance }
{
    let tree = Tree {
        pairs: &*pairs,
        parents: &*parents,
        heights: &*heights,
        root,
    };
    if let Err(why) = quick::validate(&tree) {
        return calls::refuse(why, random);
    }
    wilson_balding_unvalidated(pairs, parents, heights, root, random, allowance)
}
