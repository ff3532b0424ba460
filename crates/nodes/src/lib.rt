// The small accessors of rove's tree.rs over lent slices: what the pairs, parents and heights of a tree say of a node. Each looks at nothing
// but what it is asked for, and takes any slices; the root is `tree::root`, or what `tree::new` answered. Assumes nothing.
#![tactic(auto)]

ghost use Rattle.std.specs.Prelude.{◌≡◌};
ghost use Rattle.tree.specs.Tree.{nodes_of, tips_of};
ghost use Rattle.nodes.specs.Nodes.{parent_of, children_of, other_child, sibling_of, height_of, branch_length, tree_length};

use answer::Refusal;
use tree::NO_NODE;

// The number of nodes: that of the pairs.
pub fn nodes(pairs: &[u16]) -> usize
    ensures { result ≡ nodes_of pairs.now }
{
    pairs.len() / 2
}

// The number of tips.
pub fn tips(pairs: &[u16]) -> usize
    ensures { result ≡ tips_of (nodes_of pairs.now) }
{
    (nodes(pairs) + 1) / 2
}

// The parent of a node, of which the root has none.
#[tactic(auto, unfolding(crate::specs::Nodes::parent_of))]
pub fn parent(parents: &[u16], node: usize) -> Result<Option<usize>, Refusal>
    ensures { result ≡ parent_of parents.now node }
{
    let parent = *parents.get(node).ok_or(Refusal::Parameter(0))?;
    Ok(if parent == NO_NODE {
        None
    } else {
        Some(parent as usize)
    })
}

// The children of a node, in their order.
#[tactic(auto, unfolding(crate::specs::Nodes::children_of))]
pub fn children(pairs: &[u16], node: usize) -> Result<Option<(usize, usize)>, Refusal>
    ensures { result ≡ children_of pairs.now node }
{
    if nodes(pairs) <= node {
        return Err(Refusal::Parameter(0));
    }
    let a = pairs[node + node];
    let b = pairs[node + node + 1];
    Ok(if a == NO_NODE && b == NO_NODE {
        None
    } else {
        Some((a as usize, b as usize))
    })
}

// The other child of a node's parent. The root has no sibling, and is refused as a number that is no node's.
#[tactic(auto, unfolding(crate::specs::Nodes::sibling_of))]
pub fn sibling(pairs: &[u16], parents: &[u16], node: usize) -> Result<Option<usize>, Refusal>
    ensures { result ≡ sibling_of pairs.now parents.now node }
{
    let n = nodes(pairs);
    if pairs.len() % 2 != 0 || parents.len() != n {
        return Err(Refusal::Size(n));
    }
    let parent = parents.get(node).ok_or(Refusal::Parameter(0))?;
    sibling_in(pairs, node, *parent as usize)
}

// The child of p that is not node.
#[tactic(auto, unfolding(crate::specs::Nodes::other_child))]
fn sibling_in(pairs: &[u16], node: usize, p: usize) -> Result<Option<usize>, Refusal>
    ensures { result ≡ other_child pairs.now node p }
{
    if nodes(pairs) <= p {
        return Err(Refusal::Parameter(0));
    }
    let a = pairs[p + p] as usize;
    Ok(Some(if a == node {
        pairs[p + p + 1] as usize
    } else {
        a
    }))
}

// The height of a node.
#[tactic(auto, unfolding(crate::specs::Nodes::height_of))]
pub fn height(heights: &[f64], node: usize) -> Result<f64, Refusal>
    ensures { result ≡ height_of heights.now node }
{
    heights.get(node).copied().ok_or(Refusal::Parameter(0))
}

// The length of the branch above a node; 0 above the root.
#[tactic(auto, unfolding(crate::specs::Nodes::branch_length, crate::specs::Nodes::branch_above))]
pub fn branch_length(parents: &[u16], heights: &[f64], node: usize) -> Result<f64, Refusal>
    ensures { result ≡ branch_length parents.now heights.now node }
{
    if heights.len() != parents.len() {
        return Err(Refusal::Size(parents.len()));
    }
    let parent = *parents.get(node).ok_or(Refusal::Parameter(0))?;
    if parent == NO_NODE {
        return Ok(0.0);
    }
    let top = *heights.get(parent as usize).ok_or(Refusal::Parameter(0))?;
    Ok(top - heights[node])
}

// The lengths of all branches, added up in the order of the nodes.
#[tactic(auto, using(crate::proofs::NodeLaws::length_laws))]
pub fn tree_length(parents: &[u16], heights: &[f64]) -> Result<f64, Refusal>
    ensures { result ≡ tree_length parents.now heights.now }
{
    if heights.len() != parents.len() {
        return Err(Refusal::Size(parents.len()));
    }
    let mut total = 0.0;
    for node in 0..parents.len() {
        total += branch_length(parents, heights, node)?;
    }
    Ok(total)
}
