// Trees in lent slices: node k's children are at 2k and 2k + 1 of the pairs, and 65,535 is no node. `new` and `validate` of rove's tree.rs,
// and the root. specs/Tree.antt and New.antt say what they give, specs/Valid.antt what an accepted tree is. Assumes nothing.
#![tactic(auto)]

ghost use Rattle.std.specs.Prelude.{◌≡◌, ◌-◌, ◌<◌, length};
ghost use Rattle.std.specs.List.{position};
ghost use Rattle.tree.specs.Tree.{Tree, parent, height, subtree};
ghost use Rattle.tree.specs.New.{adopt, visit, scan, root_of, shape_of, misdated, dates_of, validated, new_call};
ghost use Rattle.tree.specs.Given.{scan_of, shaping_of, tree_of, new_given, sizes_fit, Visits, Scans, Inside, is_no_node};

use answer::Refusal;
use std::marker::Model;

// No node: where a tip's children and the root's parent would stand.
pub const NO_NODE: u16 = 65535;

// The most nodes that a tree has.
pub const MOST_NODES: usize = 4095;

// A tree as it is lent: node k's children are at 2k and 2k + 1 of the pairs. Its clauses see it as the record of its lists.
#[derive(Drop)]
pub struct Tree<'a> {
    pub pairs: &'a [u16],
    pub parents: &'a [u16],
    pub heights: &'a [f64],
    pub root: usize,
}

impl<'a> Model for Tree<'a> {
    ghost Value = { Tree };

    ghost view = { λ t. tree_of t.pairs.now t.parents.now t.heights.now t.root };
}

impl<'a> Tree<'a> {
    // The parent of a node.
    #[tactic(auto, unfolding(crate::specs::Tree::parent))]
    fn parent(&self, node: usize) -> usize
        ensures { result ≡ parent self.now node }
    {
        self.parents.get(node).map_or(0, |parent| *parent as usize)
    }

    // The height of a node.
    #[tactic(auto, using(real::specs::NumberLaws::nan_is), unfolding(crate::specs::Tree::height))]
    fn height(&self, node: usize) -> f64
        ensures { result ≡ height self.now node }
    {
        self.heights.get(node).copied().unwrap_or(f64::NAN)
    }
}

// Makes node the parent of child.
#[tactic(auto, using(crate::proofs::ParentLaws::adopt_laws))]
fn adopt(parents: &mut [u16], node: usize, child: usize) -> Result<(), Refusal>
    requires { node < 65535 }
    ensures { scan_of result parents.new ≡ adopt (length parents.old) node child parents.old }
{
    if parents.len() <= child || child == node {
        return Err(Refusal::Shape(node));
    }
    if parents[child] != NO_NODE {
        return Err(Refusal::Shape(child));
    }
    parents[child] = node as u16;
    Ok(())
}

// Makes node the parent of both its children.
#[tactic(auto, using(crate::specs::PlaceLaws::wide16, crate::proofs::ParentLaws::visit_laws))]
fn visit(pairs: &[u16], parents: &mut [u16], node: usize) -> Result<(), Refusal>
    requires { Visits pairs.now parents.old node }
    ensures { scan_of result parents.new ≡ visit (length parents.old) pairs.now node (scan_of (Ok tt) parents.old) }
{
    let a = pairs[node + node];
    let b = pairs[node + node + 1];
    if parents.len() < node + node {
        if a == b {
            return Err(Refusal::Shape(node));
        }
        adopt(parents, node, a as usize)?;
        adopt(parents, node, b as usize)
    } else if a == NO_NODE && b == NO_NODE {
        Ok(())
    } else {
        Err(Refusal::Shape(node))
    }
}

// Fills parents, which come as marks alone, from the pairs.
#[tactic(auto, using(crate::proofs::ParentLaws::scan_laws))]
fn scan(pairs: &[u16], parents: &mut [u16]) -> Result<(), Refusal>
    requires { Scans pairs.now parents.old }
    ensures { scan_of result parents.new ≡ scan (length parents.old) pairs.now (length parents.old) }
{
    for node in 0..parents.len() {
        visit(pairs, parents, node)?;
    }
    Ok(())
}

// The first node without a parent.
fn first_root(parents: &[u16]) -> Option<usize>
    ensures { result ≡ position is_no_node parents.now }
{
    parents.iter().position(|parent| *parent == NO_NODE)
}

// The one node without a parent.
#[tactic(auto, using(crate::proofs::RootLaws::root_laws))]
pub fn root(parents: &[u16]) -> Result<usize, Refusal>
    ensures { result ≡ root_of parents.now }
{
    let root = first_root(parents).ok_or(Refusal::Disconnected)?;
    if parents[root + 1..].contains(&NO_NODE) {
        Err(Refusal::Disconnected)
    } else {
        Ok(root)
    }
}

// What is left of a count when each node of node's subtree has taken one.
#[tactic(auto, using(crate::proofs::WalkLaws::walk_laws, crate::specs::PlaceLaws::wide16))]
fn walk(pairs: &[u16], n: usize, node: usize, left: usize, depth: usize) -> usize
    requires { Inside n pairs.now node }
    ensures { result ≡ left - length (subtree depth n pairs.now node) }
{
    if depth == 0 || left == 0 {
        return left;
    }
    if n < node + node {
        let a = pairs[node + node] as usize;
        let b = pairs[node + node + 1] as usize;
        let rest = walk(pairs, n, a, left - 1, depth - 1);
        walk(pairs, n, b, rest, depth - 1)
    } else {
        left - 1
    }
}

// Fills parents, which come as marks alone, and finds the root, whose subtree must have every node.
#[tactic(auto, using(crate::proofs::CallLaws::shape_laws))]
fn shape(pairs: &[u16], parents: &mut [u16]) -> Result<usize, Refusal>
    requires { Scans pairs.now parents.old }
    ensures { shaping_of result parents.new ≡ shape_of (length parents.old) pairs.now }
{
    scan(pairs, parents)?;
    let top = root(parents)?;
    let n = parents.len();
    if walk(pairs, n, top, n + 1, n) == 1 {
        Ok(top)
    } else {
        Err(Refusal::Disconnected)
    }
}

// Whether a node's height is negative, not finite or above its parent's.
#[tactic(auto, using(real::specs::NumberLaws::finite_is), unfolding(crate::specs::New::misdated))]
fn misdated(tree: &Tree<'_>, node: usize) -> bool
    ensures { result ≡ misdated tree.now node }
{
    let h = tree.height(node);
    h < 0.0 || !h.is_finite() || (node != tree.root && !(h <= tree.height(tree.parent(node))))
}

// The lowest node whose height is at fault.
#[tactic(auto, using(crate::specs::LowestLaws::lowest_laws))]
fn check_heights(tree: &Tree<'_>) -> Result<(), Refusal>
    ensures { result ≡ dates_of tree.now }
{
    for node in 0..tree.heights.len() {
        if misdated(tree, node) {
            return Err(Refusal::Height(node));
        }
    }
    Ok(())
}

// Whether the lengths are those of a tree of n nodes.
#[tactic(auto, unfolding(crate::specs::Given::sizes_fit))]
fn sizes_fit(n: usize, pairs: usize, parents: usize, heights: usize) -> bool
    ensures { result ≡ sizes_fit n pairs parents heights }
{
    3 <= n && n <= MOST_NODES && n % 2 == 1 && pairs == n + n && heights == n && parents == n
}

// The tree of the pairs and heights: its parents are filled and its root answered, or it is refused and nothing changes.
pub fn new(pairs: &[u16], heights: &[f64], parents: &mut [u16]) -> Result<usize, Refusal>
    ensures { new_given result parents.new ≡ new_call pairs.now heights.now parents.old }
{
    let n = pairs.len() / 2;
    if !sizes_fit(n, pairs.len(), parents.len(), heights.len()) {
        return Err(Refusal::Size(n));
    }
    let mut all = [NO_NODE; MOST_NODES];
    let place = &mut all[..n];
    let root = shape(pairs, place)?;
    check_heights(&Tree {
        pairs,
        parents: &*place,
        heights,
        root,
    })?;
    parents.copy_from_slice(place);
    Ok(root)
}

// Whether the tree is one in order: its slices and its root are those of one.
pub fn validate(tree: &Tree<'_>) -> Result<(), Refusal>
    ensures { result ≡ validated tree.now }
{
    let n = tree.pairs.len() / 2;
    if !sizes_fit(n, tree.pairs.len(), tree.parents.len(), tree.heights.len()) {
        return Err(Refusal::Size(n));
    }
    let mut all = [NO_NODE; MOST_NODES];
    let place = &mut all[..n];
    let root = shape(tree.pairs, place)?;
    if root != tree.root || *place != *tree.parents {
        return Err(Refusal::Disconnected);
    }
    check_heights(tree)
}
