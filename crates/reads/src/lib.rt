// What a tree in lent slices says of a node, as the definitions of tree/Tree have it: a slice that is read past its end gives 0, or a NaN for a
// height, so that nothing is asked of the slices and each index is tested where it is followed. The moves read a tree through these functions;
// hosts have `nodes`, which refuses instead. Assumes nothing.
#![tactic(auto)]

ghost use Rattle.std.specs.Prelude.{◌≡◌, get_or};
ghost use Rattle.std.specs.Float.{nan};
ghost use Rattle.tree.specs.Tree.{inner, first_in, second_in, other_in};

// Whether k is not among the tips of n nodes.
#[tactic(auto, using(crate::proofs::ReadLaws::read_laws))]
pub fn is_inner(n: usize, k: usize) -> bool
    ensures { result ≡ inner n k }
{
    n / 2 < k
}

// The first child of a node.
#[tactic(auto, using(crate::proofs::ReadLaws::read_laws))]
pub fn first(pairs: &[u16], k: usize) -> usize
    ensures { result ≡ first_in pairs.now k }
{
    // By a test of k, since k + k may be too large.
    if k < pairs.len() - pairs.len() / 2 {
        pairs[k + k] as usize
    } else {
        0
    }
}

// The second child of a node.
#[tactic(auto, using(crate::proofs::ReadLaws::read_laws))]
pub fn second(pairs: &[u16], k: usize) -> usize
    ensures { result ≡ second_in pairs.now k }
{
    if k < pairs.len() / 2 {
        pairs[k + k + 1] as usize
    } else {
        0
    }
}

// The child of p that is not k.
#[tactic(auto, using(crate::proofs::ReadLaws::read_laws))]
pub fn other(pairs: &[u16], p: usize, k: usize) -> usize
    ensures { result ≡ other_in pairs.now p k }
{
    let a = first(pairs, p);
    if a == k { second(pairs, p) } else { a }
}

// The parent of a node.
pub fn parent(parents: &[u16], k: usize) -> usize
    ensures { result ≡ get_or parents.now k 0 }
{
    parents.get(k).map_or(0, |parent| *parent as usize)
}

// The height of a node.
#[tactic(auto, using(real::specs::NumberLaws::nan_is))]
pub fn height(heights: &[f64], k: usize) -> f64
    ensures { result ≡ get_or heights.now k nan }
{
    heights.get(k).copied().unwrap_or(f64::NAN)
}
