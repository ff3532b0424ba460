// Sets of tips, one mark per tip: `is_monophyletic_in` of rove's tree.rs, and the age of a clade. Each tip has a weight, 1 in the set and
// another outside it, and the first node in postorder whose tips weigh as much as the set is looked for. Assumes nothing.
#![tactic(auto)]

ghost use Rattle.std.specs.Prelude.{◌≡◌, cond, ◌≤◌, ◌<◌, eqb, length};
ghost use Rattle.tree.specs.Tree.{nodes_of, parent};
ghost use Rattle.clades.specs.Clades.{size_of, monophyly_call, age_call};
ghost use Rattle.clades.specs.Counting.{weight, weighs, weighed, first_or, first_weighing, Seeks, Finds, Weighs};

use answer::Refusal;
use tree::{MOST_NODES, Tree};

// What a tip outside the set weighs where none may be below the node that is looked for: more than all the tips of a set.
const TOO_MUCH: u32 = 65536;

// What a tip weighs: 1 if it is in the set.
#[tactic(auto, unfolding(crate::specs::Counting::weight))]
fn weight(members: &[bool], tip: usize, others: u32) -> u32
    requires { tip < length members.now }
    ensures { result ≡ weight members.now others tip }
{
    if members[tip] { 1 } else { others }
}

// How many tips are in the set.
fn size(members: &[bool]) -> u32
    requires { length members.now ≤ 4095 }
    ensures { result ≡ size_of members.now }
{
    members.iter().filter(|member| **member).count() as u32
}

// What the tips below a node weigh: an inner node's children have their weights already.
#[tactic(auto, using(crate::proofs::WeighLaws::weigh_laws))]
fn weigh(pairs: &[u16], members: &[bool], weights: &[u32], others: u32, node: usize) -> u32
    requires { Weighs pairs.now members.now weights.now node }
    ensures { result ≡ weighed pairs.now members.now weights.now others node }
{
    if node < members.len() {
        weight(members, node, others)
    } else {
        let a = pairs[node + node] as usize;
        let b = pairs[node + node + 1] as usize;
        weights[a] + weights[b]
    }
}

// The first node of the postorder whose tips weigh as much as the set, or the number of nodes.
#[tactic(auto, using(crate::proofs::FindLaws::find_laws))]
fn find(
    pairs: &[u16],
    members: &[bool],
    order: &[u16],
    weights: &mut [u32],
    others: u32,
    size: u32,
) -> usize
    requires { Finds pairs.now members.now order.now weights.old others size }
    ensures { result ≡ first_or (length order.now) (weighs (length order.now) pairs.now members.now others) order.now }
{
    for node in order {
        let node = *node as usize;
        let below = weigh(pairs, members, weights, others, node);
        if below == size {
            return node;
        }
        weights[node] = below;
    }
    order.len()
}

// The first node of a valid tree in postorder whose tips weigh as much as the set, or the number of nodes.
fn first_node(tree: &Tree<'_>, members: &[bool], others: u32, size: u32) -> usize
    requires { Seeks tree.now.pairs tree.now.root members.now others size (nodes_of tree.now.pairs) }
    ensures { result ≡ first_weighing (nodes_of tree.now.pairs) tree.now.pairs tree.now.root members.now others }
{
    let n = tree.pairs.len() / 2;
    let mut nodes = [0u16; MOST_NODES];
    let mut sums = [0u32; MOST_NODES];
    let order = &mut nodes[..n];
    order::fill(tree.pairs, tree.root, order);
    find(tree.pairs, members, order, &mut sums[..n], others, size)
}

// Whether some node of a tree has exactly the marked tips below it: a tip outside the set weighs more than the whole set.
#[tactic(auto, using(crate::proofs::CallLaws::entry_laws, crate::proofs::CallLaws::mono_laws))]
pub fn is_monophyletic_in(tree: &Tree<'_>, members: &[bool]) -> Result<bool, Refusal>
    ensures { result ≡ monophyly_call tree.now members.now }
{
    let n = tree.pairs.len() / 2;
    if members.len() != (n + 1) / 2 {
        return Err(Refusal::Size(n));
    }
    quick::validate(tree)?;
    Ok(first_node(tree, members, TOO_MUCH, size(members)) < n)
}

// The node by whose height a set is dated, by its size and its clade's node: of one tip the parent, at the upper end of the tip's branch.
#[tactic(auto, unfolding(tree::specs::Tree::parent))]
fn age_node(tree: &Tree<'_>, size: u32, node: usize) -> usize
    requires { node < length tree.now.parents }
    ensures { result ≡ cond (eqb size 1) (parent tree.now node) node }
{
    if size == 1 {
        tree.parents[node] as usize
    } else {
        node
    }
}

// The age of the first node in postorder over all marked tips, or of the parent of a single one: tips outside the set weigh nothing.
#[tactic(auto, using(crate::proofs::CallLaws::entry_laws, crate::proofs::CallLaws::age_laws))]
pub fn clade_age(tree: &Tree<'_>, members: &[bool]) -> Result<u64, Refusal>
    ensures { result ≡ age_call tree.now members.now }
{
    let n = tree.pairs.len() / 2;
    if members.len() != (n + 1) / 2 {
        return Err(Refusal::Size(n));
    }
    quick::validate(tree)?;
    let size = size(members);
    if size == 0 {
        return Err(Refusal::Parameter(0));
    }
    let node = first_node(tree, members, 0, size);
    real::print_age(tree.heights[age_node(tree, size, node)]).ok_or(Refusal::Parameter(0))
}
