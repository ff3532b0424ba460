// Edits of a tree in lent slices, the port of the editing methods of rove's tree.rs. The Rust's `replace_child` and `make_root` are both
// `put`: a node takes a slot, which is a side of an inner node or the root's register. Slot 2k + s of the pairs is side s of node k, and
// the slot just past the pairs is the register. A function that may change the root is given it and answers the root afterwards.
// Each takes any slices and tests every index that it follows; one that is out of range is neither read nor written. What is promised is
// promised of slices that give what Needs says, as those of a valid tree do (NeedsLaws). None is offered to hosts. Assumes nothing.
#![tactic(auto)]

ghost use Rattle.std.specs.Prelude.{◌≡◌, ◌%◌, set};
ghost use Rattle.tree.specs.Tree.{nodes_of};
ghost use Rattle.edits.specs.Slots.{slot_of, put, swap, rotate, bare};
ghost use Rattle.edits.specs.Needs.{Stands, Takes, Exchanges, Rotates};

use tree::NO_NODE;

// A number as it is lent, in 16 bits; a node's number and a slot's half fit.
fn lent(x: usize) -> u16
    ensures { result ≡ x % 65536 }
{
    (x % 65536) as u16
}

// The slot in which a node stands.
#[tactic(auto, using(crate::proofs::SlotOfLaws::slot_of_laws))]
pub fn slot_of(pairs: &[u16], parents: &[u16], root: usize, node: usize) -> usize
    ensures { Stands pairs.now parents.now root node → result ≡ slot_of (nodes_of pairs.now) (bare pairs.now parents.now root) node }
{
    if node == root {
        return pairs.len();
    }
    if parents.len() <= node {
        return 0;
    }
    let p = parents[node] as usize;
    let first = p + p;
    if pairs.len() <= first {
        0
    } else if pairs[first] as usize == node {
        first
    } else {
        first + 1
    }
}

// The node takes the slot, whatever stood there; the root afterwards.
#[tactic(auto, using(crate::proofs::PutLaws::put_laws))]
pub fn put(pairs: &mut [u16], parents: &mut [u16], root: usize, slot: usize, node: usize) -> usize
    ensures { Takes pairs.old parents.old slot node → bare pairs.new parents.new result ≡ put (nodes_of pairs.old) (bare pairs.old parents.old root) slot node }
{
    if parents.len() <= node {
        return root;
    }
    if slot < pairs.len() {
        pairs[slot] = lent(node);
        parents[node] = lent(slot / 2);
        root
    } else {
        parents[node] = NO_NODE;
        node
    }
}

// a and b change places, each onto the other's side; the root afterwards.
pub fn exchange(pairs: &mut [u16], parents: &mut [u16], root: usize, a: usize, b: usize) -> usize
    ensures { Exchanges pairs.old parents.old root a b → bare pairs.new parents.new result ≡ swap (nodes_of pairs.old) (bare pairs.old parents.old root) a b }
{
    let x = slot_of(pairs, parents, root, a);
    let y = slot_of(pairs, parents, root, b);
    let first = put(pairs, parents, root, x, b);
    put(pairs, parents, first, y, a)
}

// a takes b's place, b takes c's and c takes a's; the root afterwards.
pub fn rotate(
    pairs: &mut [u16],
    parents: &mut [u16],
    root: usize,
    a: usize,
    b: usize,
    c: usize,
) -> usize
    ensures { Rotates pairs.old parents.old root a b c → bare pairs.new parents.new result ≡ rotate (nodes_of pairs.old) (bare pairs.old parents.old root) a b c }
{
    let x = slot_of(pairs, parents, root, a);
    let y = slot_of(pairs, parents, root, b);
    let z = slot_of(pairs, parents, root, c);
    let first = put(pairs, parents, root, y, a);
    let second = put(pairs, parents, first, z, b);
    put(pairs, parents, second, x, c)
}

// The node takes the height; one that has none stays without.
pub fn set_height(heights: &mut [f64], node: usize, height: f64)
    ensures { heights.new ≡ set heights.old node height }
{
    if node < heights.len() {
        heights[node] = height;
    }
}
