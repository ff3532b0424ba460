// `validate` of a tree, for speed: a tree in which every child is younger than its parent passes a test that goes over the slices once, and any
// other goes to `tree::validate`, which says what is wrong with it, if anything is. specs/Quick.antt has the test; specs/QuickLaws.antt shows that it lets only
// valid trees pass. Assumes nothing.
#![tactic(auto)]

ghost use Rattle.std.specs.Prelude.{◌≡◌, ◌≤◌, ◌/◌, length};
ghost use Rattle.tree.specs.Bounded.{every};
ghost use Rattle.tree.specs.Given.{sizes_fit, tree_of};
ghost use Rattle.tree.specs.New.{validated};
ghost use Rattle.quick.specs.Quick.{is_mark, is_age, family, family_at, strict, Lent, Reads};

use answer::Refusal;
use tree::{MOST_NODES, NO_NODE, Tree};

// Whether the first numbers of the pairs are marks. The loop has no way out, so that the compiler may test several at once.
#[tactic(auto, using(crate::proofs::TestLaws::join_laws))]
fn are_marks(pairs: &[u16], count: usize) -> bool
    requires { count ≤ length pairs.now }
    ensures { result ≡ every (is_mark pairs.now) count }
{
    let mut all = true;
    for mark in &pairs[..count] {
        all &= *mark == NO_NODE;
    }
    all
}

// Whether the first heights are numbers that are not negative. As above.
#[tactic(auto, using(crate::proofs::TestLaws::join_laws))]
fn are_ages(heights: &[f64], count: usize) -> bool
    requires { count ≤ length heights.now }
    ensures { result ≡ every (is_age heights.now) count }
{
    let mut all = true;
    for age in &heights[..count] {
        all &= 0.0 <= *age;
    }
    all
}

// Whether a node's children are two nodes that have it for their parent and are younger.
#[tactic(auto, using(tree::specs::PlaceLaws::wide16, crate::proofs::TestLaws::family_laws))]
fn is_family(pairs: &[u16], parents: &[u16], heights: &[f64], node: usize) -> bool
    requires { Reads pairs.now parents.now heights.now node }
    ensures { result ≡ family (length heights.now) pairs.now parents.now heights.now node }
{
    let n = heights.len();
    let a = pairs[node + node] as usize;
    let b = pairs[node + node + 1] as usize;
    if n <= a || n <= b {
        return false;
    }
    let p = parents[a] as usize;
    let q = parents[b] as usize;
    let h = heights[node];
    // By `&`: one branch in place of five.
    (a != b) & (p == node) & (q == node) & (heights[a] < h) & (heights[b] < h)
}

// Whether that is so of every internal node.
#[tactic(auto, using(crate::proofs::TestLaws::each_laws))]
fn are_families(pairs: &[u16], parents: &[u16], heights: &[f64]) -> bool
    requires { Lent pairs.now parents.now heights.now }
    ensures { result ≡ every (family_at (length heights.now) pairs.now parents.now heights.now) (length heights.now / 2) }
{
    let n = heights.len();
    let tips = (n + 1) / 2;
    for j in 0..n / 2 {
        if !is_family(pairs, parents, heights, tips + j) {
            return false;
        }
    }
    true
}

// Whether pairs and parents have the lengths of a tree that has n heights.
#[tactic(auto, unfolding(tree::specs::Given::sizes_fit))]
fn is_sized(n: usize, pairs: usize, parents: usize) -> bool
    ensures { result ≡ sizes_fit n pairs parents n }
{
    3 <= n && n <= MOST_NODES && n % 2 == 1 && pairs == n + n && parents == n
}

// Whether the slices and the root are those of one tree in order in which each child is younger than its parent.
#[tactic(auto, unfolding(crate::specs::Quick::strict, tree::specs::Tree::parent, tree::specs::Tree::height))]
fn is_strict(pairs: &[u16], parents: &[u16], heights: &[f64], root: usize) -> bool
    requires { Lent pairs.now parents.now heights.now }
    ensures { result ≡ strict (length heights.now) (tree_of pairs.now parents.now heights.now root) }
{
    let n = heights.len();
    root < n
        && parents[root] == NO_NODE
        && heights[root] < f64::INFINITY
        && are_marks(pairs, n + 1)
        && are_ages(heights, (n + 1) / 2)
        && are_families(pairs, parents, heights)
}

// Whether the tree is one in order, as `tree::validate` has it.
#[tactic(auto, using(crate::proofs::CallLaws::entry_laws))]
pub fn validate(tree: &Tree<'_>) -> Result<(), Refusal>
    ensures { result ≡ validated tree.now }
{
    if is_sized(tree.heights.len(), tree.pairs.len(), tree.parents.len())
        && is_strict(tree.pairs, tree.parents, tree.heights, tree.root)
    {
        Ok(())
    } else {
        tree::validate(tree)
    }
}
