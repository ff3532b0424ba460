// The branches that SubtreeSlide looks for: `crossing`, `nth_crossing` and the climb of rove's mcmc/moves.rs over lent slices. Nothing is asked of
// the slices: each index is tested where it is followed, and every walk has a budget. What is said of branches is said where the nodes are of 16
// bits. Assumes nothing.
#![tactic(auto)]

ghost use Rattle.std.specs.Prelude.{◌≡◌, ◌<◌, ◌≤◌};
ghost use Rattle.tree.specs.Tree.{nodes_of};
ghost use Rattle.tree.specs.Given.{kin_in, dates_in};
ghost use Rattle.rules.specs.Rules.{climb};
ghost use Rattle.branches.specs.Walk.{outset, meet, walk, counted, picked, unpacked, Ready, Holds};

// No node, and the number of no branch.
const NONE: usize = 65535;

// A walk that has found no branch, met none and may look at no node: NONE times 2^32. Walks are handed on in one number, which `unpacked` of
// branches/Walk reads: that is faster than a struct of the three.
const OUTSET: usize = 281470681743360;

// The branch over k is met.
#[tactic(auto, using(crate::proofs::CrossingLaws::meet_laws))]
fn meet(index: usize, k: usize, w: usize) -> usize
    requires { Ready 65534 k w }
    ensures { Holds (meet index k (unpacked w)) result }
{
    if w / 65536 % 65536 == index {
        k * 4294967296
    } else {
        w + 65536
    }
}

// The branch over k, or those under it, that span the height x, the first child's before the second's: looks for the one numbered index, the depth
// falling at each call.
#[tactic(auto, using(crate::proofs::CrossingLaws::crossing_laws))]
fn crossing(
    pairs: &[u16],
    heights: &[f64],
    x: f64,
    index: usize,
    k: usize,
    w: usize,
    depth: usize,
) -> usize
    requires { Ready 65535 k w }
    ensures { Holds (walk depth (nodes_of pairs.now) (kin_in pairs.now heights.now) x index k (unpacked w)) result }
{
    if w % 65536 == 0 || depth == 0 {
        return w;
    }
    if reads::height(heights, k) < x {
        return meet(index, k, w - 1);
    }
    if reads::is_inner(pairs.len() / 2, k) {
        let a = reads::first(pairs, k);
        let b = reads::second(pairs, k);
        let below = crossing(pairs, heights, x, index, a, w - 1, depth - 1);
        return crossing(pairs, heights, x, index, b, below, depth - 1);
    }
    w - 1
}

// The whole walk under k, which is a node of 16 bits; from any other the walk does not set out.
#[tactic(auto, using(crate::proofs::CrossingLaws::walked_laws))]
fn walked(pairs: &[u16], heights: &[f64], x: f64, k: usize, index: usize) -> usize
    ensures { nodes_of pairs.now ≤ 65535 → k < nodes_of pairs.now → Holds (walk (nodes_of pairs.now) (nodes_of pairs.now) (kin_in pairs.now heights.now) x index k (outset (nodes_of pairs.now))) result }
{
    let n = pairs.len() / 2;
    if k < n && n <= NONE {
        crossing(pairs, heights, x, index, k, OUTSET + n, n)
    } else {
        OUTSET
    }
}

// How many branches under k, or k's own, span the height x.
#[tactic(auto, using(crate::proofs::CrossingLaws::count_laws))]
pub fn count(pairs: &[u16], heights: &[f64], x: f64, k: usize) -> usize
    ensures { nodes_of pairs.now ≤ 65535 → k < nodes_of pairs.now → result ≡ counted (kin_in pairs.now heights.now) x k }
{
    walked(pairs, heights, x, k, NONE) / 65536 % 65536
}

// The one of them that is numbered index, left first.
#[tactic(auto, using(crate::proofs::CrossingLaws::count_laws))]
pub fn branch(pairs: &[u16], heights: &[f64], x: f64, k: usize, index: usize) -> usize
    ensures { nodes_of pairs.now ≤ 65535 → k < nodes_of pairs.now → result ≡ picked (kin_in pairs.now heights.now) x k index }
{
    walked(pairs, heights, x, k, index) / 4294967296
}

// Up from k while the next node is below the height x, at most n times.
#[tactic(auto, using(crate::proofs::ClimbLaws::climb_laws))]
pub fn climb(parents: &[u16], heights: &[f64], root: usize, x: f64, k: usize, n: usize) -> usize
    ensures { result ≡ climb n (dates_in parents.now heights.now root) x k }
{
    let mut at = k;
    for _ in 0..n {
        if at == root {
            return at;
        }
        let p = reads::parent(parents, at);
        if reads::height(heights, p) < x {
            at = p;
        } else {
            return at;
        }
    }
    at
}
