// NodeHeight, RootScale and TreeScale of mcmc/moves.rs: the moves that change heights and nothing else of a tree. Each has the call of its name,
// which refuses what is not in order, and an unvalidated one, which leaves the tree unchecked; both take whatever is lent. Each unvalidated call has its
// own checks and answer around its turn: of a turn handed on as a closure nothing is known of the heights that it borrowed. Assumes nothing.
#![tactic(auto)]

ghost use Rattle.std.specs.Prelude.{◌≡◌, ◌≤◌, length, T};
ghost use Rattle.random.specs.Draw.{pick, run, drawn};
ghost use Rattle.tree.specs.Tree.{nodes_of};
ghost use Rattle.tree.specs.Valid.{Valid};
ghost use Rattle.tree.specs.Given.{tree_of, kin_in};
ghost use Rattle.rules.specs.Rules.{floor, scaled_to, tree_scale_ratio};
ghost use Rattle.calls.specs.Call.{called};
ghost use Rattle.moves.specs.Programs as Programs;
ghost use Rattle.calls.specs.Draws.{least};
ghost use Rattle.moves.specs.Programs.{overflows, non_root_internal, placing};
ghost use Rattle.moves.specs.Moves.{node_height, root_scale, tree_scale, move_call, UnvalidatedCall};
ghost use Rattle.calls.specs.Given.{after, turn_of};
ghost use Rattle.calls.specs.Harmless.{Turning};
ghost use Rattle.heights.specs.Given.{heights_of, shaped, has_children, has_kin, scalable, stays, scaled_turn, scaled_by};

use answer::{Answer, Ratio};
use calls::{Answered, Turn, Turned};
use random::{Random, Supply};
use tree::Tree;

// ---- what is in range: all that a move follows in an accepted tree. On other slices these tests keep every index inside.

// Whether there are a pair and a parent for each of n nodes.
fn is_shaped(pairs: &[u16], parents: &[u16], n: usize) -> bool
    ensures { result ≡ shaped pairs.now parents.now n }
{
    pairs.len() / 2 == n && parents.len() == n
}

// Whether k and both its children have heights.
#[tactic(auto, using(tree::specs::PlaceLaws::wide16, tree::specs::PlaceLaws::next_place), unfolding(crate::specs::Given::has_children))]
fn has_children(pairs: &[u16], heights: &[f64], k: usize) -> bool
    ensures { result ≡ has_children pairs.now heights.now k }
{
    let n = heights.len();
    k < n && k < pairs.len() / 2 && (pairs[k + k] as usize) < n && (pairs[k + k + 1] as usize) < n
}

// Whether k, both its children and its parent have heights.
#[tactic(auto, using(tree::specs::PlaceLaws::wide16), unfolding(crate::specs::Given::has_kin))]
fn has_kin(pairs: &[u16], parents: &[u16], heights: &[f64], k: usize) -> bool
    ensures { result ≡ has_kin pairs.now parents.now heights.now k }
{
    has_children(pairs, heights, k) && k < parents.len() && (parents[k] as usize) < heights.len()
}

// Whether the root has a height, of no more than the largest tree has.
fn is_scalable(heights: &[f64], root: usize) -> bool
    ensures { result ≡ scalable heights.now root }
{
    heights.len() <= tree::MOST_NODES && root < heights.len()
}

// A turn without a move.
fn stay(s: Supply) -> Turn
    ensures { result ≡ stays s }
{
    Turn {
        turned: Turned::Declined,
        supply: s,
    }
}

// ---- NodeHeight

// An internal node of n other than the root.
#[tactic(auto, using(crate::proofs::NodeHeightLaws::non_root_internal_laws))]
fn non_root_internal(s: Supply, n: usize, root: usize) -> Option<(usize, Supply)>
    ensures { result ≡ drawn (pick (non_root_internal n root) s) }
{
    let half = n / 2;
    s.below_other(half, n - half, root)
}

// The height of the taller child of a node.
#[tactic(auto, using(crate::proofs::RangeLaws::kin_laws, crate::proofs::NodeHeightLaws::floor_laws))]
fn floor(pairs: &[u16], heights: &[f64], k: usize) -> f64
    requires { T (has_children pairs.now heights.now k) }
    ensures { result ≡ floor (kin_in pairs.now heights.now) k }
{
    let a = pairs[k + k] as usize;
    let b = pairs[k + k + 1] as usize;
    real::max(heights[a], heights[b])
}

// Node k takes a height from its taller child's to its parent's, drawn from the supply `between`; s is the turn's.
#[tactic(auto, using(crate::proofs::RangeLaws::kin_laws, crate::proofs::NodeHeightLaws::place_laws))]
fn place(
    pairs: &[u16],
    parents: &[u16],
    heights: &mut [f64],
    root: usize,
    k: usize,
    between: Supply,
    s: Supply,
) -> Turn
    requires { T (has_kin pairs.now parents.now heights.old k) }
    ensures { after result pairs.now parents.now heights.new ≡ turn_of (tree_of pairs.now parents.now heights.old root) s (run (placing (tree_of pairs.now parents.now heights.old root) k) between) }
{
    let Some((u, last)) = between.uniform() else {
        return Turn {
            turned: Turned::Spent,
            supply: s,
        };
    };
    let lower = floor(pairs, heights, k);
    let p = parents[k] as usize;
    let Some(x) = calls::interpolate(lower, heights[p], u) else {
        return Turn {
            turned: Turned::Outside(k),
            supply: last,
        };
    };
    heights[k] = x;
    Turn {
        turned: Turned::Moved(root, Ratio::Even),
        supply: last,
    }
}

// An internal node other than the root takes a height from its taller child's to its parent's.
#[tactic(auto, using(crate::proofs::RangeLaws::kin_laws, crate::proofs::NodeHeightLaws::node_height_laws))]
fn node_height_turn(
    pairs: &[u16],
    parents: &[u16],
    heights: &mut [f64],
    root: usize,
    s: Supply,
) -> Turn
    ensures { Turning (Valid (nodes_of pairs.now) (tree_of pairs.now parents.now heights.old root)) (turn_of (tree_of pairs.now parents.now heights.old root) s (run (Programs.node_height (tree_of pairs.now parents.now heights.old root)) s)) (tree_of pairs.now parents.now heights.old root) s (after result pairs.now parents.now heights.new) }
{
    let n = heights.len();
    if !is_shaped(pairs, parents, n) {
        return stay(s);
    }
    if n / 2 < 2 {
        return stay(s);
    }
    let Some((k, between)) = non_root_internal(s, n, root) else {
        return Turn {
            turned: Turned::Spent,
            supply: s,
        };
    };
    if has_kin(pairs, parents, heights, k) {
        place(pairs, parents, heights, root, k, between, s)
    } else {
        stay(s)
    }
}

// NodeHeight, by at most `allowance` draws, the tree being left unvalidated.
#[tactic(auto, using(calls::proofs::EntryLaws::unvalidated_laws))]
pub fn node_height_unvalidated(
    pairs: &[u16],
    parents: &[u16],
    heights: &mut [f64],
    root: usize,
    random: Random,
    allowance: u32,
) -> Answered
    ensures { UnvalidatedCall node_height (tree_of pairs.now parents.now heights.old root) random allowance (called result.answer result.random pairs.now parents.now heights.new) }
{
    if let Err(why) = calls::check_limits(true, allowance) {
        return calls::refuse(why, random);
    }
    let s = Supply {
        random,
        left: allowance,
    };
    let turn = node_height_turn(pairs, parents, heights, root, s);
    calls::answer(turn, random, allowance)
}

// NodeHeight, by at most `allowance` draws.
#[tactic(auto, using(calls::proofs::EntryLaws::entry_laws))]
pub fn node_height(
    pairs: &[u16],
    parents: &[u16],
    heights: &mut [f64],
    root: usize,
    random: Random,
    allowance: u32,
) -> Answered
    ensures { called result.answer result.random pairs.now parents.now heights.new ≡ move_call node_height (tree_of pairs.now parents.now heights.old root) random allowance }
{
    let tree = Tree {
        pairs,
        parents,
        heights: &*heights,
        root,
    };
    if let Err(why) = quick::validate(&tree) {
        return calls::refuse(why, random);
    }
    node_height_unvalidated(pairs, parents, heights, root, random, allowance)
}

// ---- RootScale

// The root's height times a drawn factor; declined where that is under a child.
#[tactic(auto, using(crate::proofs::RangeLaws::kin_laws, crate::proofs::RootScaleLaws::root_scale_laws))]
fn root_scale_turn(
    pairs: &[u16],
    parents: &[u16],
    heights: &mut [f64],
    root: usize,
    tuning: f64,
    s: Supply,
) -> Turn
    ensures { Turning (Valid (nodes_of pairs.now) (tree_of pairs.now parents.now heights.old root)) (turn_of (tree_of pairs.now parents.now heights.old root) s (run (Programs.root_scale tuning (tree_of pairs.now parents.now heights.old root)) s)) (tree_of pairs.now parents.now heights.old root) s (after result pairs.now parents.now heights.new) }
{
    let Some((u, next)) = s.uniform() else {
        return Turn {
            turned: Turned::Spent,
            supply: s,
        };
    };
    if !has_children(pairs, heights, root) {
        return stay(next);
    }
    let f = calls::scaler(tuning, u);
    let x = heights[root] * f;
    if !real::is_finite(x) {
        return Turn {
            turned: Turned::NotFinite(root),
            supply: next,
        };
    }
    if x < floor(pairs, heights, root) {
        return stay(next);
    }
    heights[root] = x;
    Turn {
        turned: Turned::Moved(root, Ratio::Power(f, -1)),
        supply: next,
    }
}

// RootScale with a tuning from 1e-8 to 1, by at most `allowance` draws, the tree being left unvalidated.
#[tactic(auto, using(calls::proofs::EntryLaws::unvalidated_laws))]
pub fn root_scale_unvalidated(
    pairs: &[u16],
    parents: &[u16],
    heights: &mut [f64],
    root: usize,
    tuning: f64,
    random: Random,
    allowance: u32,
) -> Answered
    ensures { UnvalidatedCall (root_scale tuning) (tree_of pairs.now parents.now heights.old root) random allowance (called result.answer result.random pairs.now parents.now heights.new) }
{
    let limits = calls::is_tuned(tuning);
    if let Err(why) = calls::check_limits(limits, allowance) {
        return calls::refuse(why, random);
    }
    let s = Supply {
        random,
        left: allowance,
    };
    let turn = root_scale_turn(pairs, parents, heights, root, tuning, s);
    calls::answer(turn, random, allowance)
}

// RootScale with a tuning from 1e-8 to 1, by at most `allowance` draws.
#[tactic(auto, using(calls::proofs::EntryLaws::entry_laws))]
pub fn root_scale(
    pairs: &[u16],
    parents: &[u16],
    heights: &mut [f64],
    root: usize,
    tuning: f64,
    random: Random,
    allowance: u32,
) -> Answered
    ensures { called result.answer result.random pairs.now parents.now heights.new ≡ move_call (root_scale tuning) (tree_of pairs.now parents.now heights.old root) random allowance }
{
    let tree = Tree {
        pairs,
        parents,
        heights: &*heights,
        root,
    };
    if let Err(why) = quick::validate(&tree) {
        return calls::refuse(why, random);
    }
    root_scale_unvalidated(pairs, parents, heights, root, tuning, random, allowance)
}

// ---- TreeScale

// The lowest internal node whose height times f is not finite, or the number of nodes where none is.
#[tactic(auto, using(crate::proofs::TreeScaleLaws::lowest_laws))]
fn lowest_overflow(heights: &[f64], f: f64) -> usize
    ensures { result ≡ least (overflows (length heights.now) (heights_of heights.now) f) (length heights.now) }
{
    let n = heights.len();
    for k in n / 2 + 1..n {
        if !real::is_finite(heights[k] * f) {
            return k;
        }
    }
    n
}

// Every internal height times f.
#[tactic(auto, using(crate::proofs::TreeScaleLaws::scale_laws))]
fn scale_heights(heights: &mut [f64], f: f64)
    ensures { heights.new ≡ (scaled_to (length heights.old) (heights_of heights.old) f (length heights.old)).heights }
{
    // By index: behind `iter_mut().skip(..)` nothing is known of what is written.
    let n = heights.len();
    for k in n / 2 + 1..n {
        heights[k] *= f;
    }
}

// The factor to the power of the internal nodes of n less 2.
#[tactic(auto, using(crate::proofs::TreeScaleLaws::ratio_laws))]
fn tree_scale_ratio(n: usize, f: f64) -> Ratio
    requires { n ≤ 4095 }
    ensures { result ≡ tree_scale_ratio n f }
{
    Ratio::Power(f, (n / 2) as i32 - 2)
}

// How TreeScale ends, no height being written yet: every internal height is to be multiplied by the factor of the ratio. No height is above the
// root's, so that every product is finite where the root's is.
#[tactic(auto, using(crate::proofs::TreeScaleLaws::tree_scale_laws))]
fn tree_scale_turn(
    pairs: &[u16],
    parents: &[u16],
    heights: &[f64],
    root: usize,
    tuning: f64,
    s: Supply,
) -> Turn
    ensures { Turning (Valid (nodes_of pairs.now) (tree_of pairs.now parents.now heights.now root)) (turn_of (tree_of pairs.now parents.now heights.now root) s (run (Programs.tree_scale tuning (tree_of pairs.now parents.now heights.now root)) s)) (tree_of pairs.now parents.now heights.now root) s (after result pairs.now parents.now (scaled_turn result.turned heights.now)) }
{
    let Some((u, next)) = s.uniform() else {
        return Turn {
            turned: Turned::Spent,
            supply: s,
        };
    };
    if !is_scalable(heights, root) {
        return stay(next);
    }
    let f = calls::scaler(tuning, u);
    if real::is_finite(heights[root] * f) {
        Turn {
            turned: Turned::Moved(root, tree_scale_ratio(heights.len(), f)),
            supply: next,
        }
    } else {
        Turn {
            turned: Turned::NotFinite(lowest_overflow(heights, f)),
            supply: next,
        }
    }
}

// What TreeScale answers with a tuning from 1e-8 to 1, by at most `allowance` draws, the tree being left unvalidated. The heights are as they came;
// `scale_by` makes the move. A host's record is written between the two, so that it need not wait for the heights.
#[tactic(auto, using(crate::proofs::TreeScaleLaws::scale_answer_laws))]
pub fn tree_scale_answer(
    pairs: &[u16],
    parents: &[u16],
    heights: &[f64],
    root: usize,
    tuning: f64,
    random: Random,
    allowance: u32,
) -> Answered
    ensures { UnvalidatedCall (tree_scale tuning) (tree_of pairs.now parents.now heights.now root) random allowance (called result.answer result.random pairs.now parents.now (scaled_by result.answer heights.now)) }
{
    let limits = calls::is_tuned(tuning);
    if let Err(why) = calls::check_limits(limits, allowance) {
        return calls::refuse(why, random);
    }
    let s = Supply {
        random,
        left: allowance,
    };
    let turn = tree_scale_turn(pairs, parents, heights, root, tuning, s);
    calls::answer(turn, random, allowance)
}

// The heights after what TreeScale answered: every internal one times the factor of its power.
pub fn scale_by(heights: &mut [f64], answer: Answer)
    ensures { heights.new ≡ scaled_by answer heights.old }
{
    if let Answer::Moved(moved) = answer {
        if let Ratio::Power(f, _) = moved.ratio {
            scale_heights(heights, f);
        }
    }
}

// TreeScale with a tuning from 1e-8 to 1, by at most `allowance` draws, the tree being left unvalidated.
pub fn tree_scale_unvalidated(
    pairs: &[u16],
    parents: &[u16],
    heights: &mut [f64],
    root: usize,
    tuning: f64,
    random: Random,
    allowance: u32,
) -> Answered
    ensures { UnvalidatedCall (tree_scale tuning) (tree_of pairs.now parents.now heights.old root) random allowance (called result.answer result.random pairs.now parents.now heights.new) }
{
    let answered = tree_scale_answer(pairs, parents, heights, root, tuning, random, allowance);
    scale_by(heights, answered.answer);
    answered
}

// TreeScale with a tuning from 1e-8 to 1, by at most `allowance` draws.
#[tactic(auto, using(calls::proofs::EntryLaws::entry_laws))]
pub fn tree_scale(
    pairs: &[u16],
    parents: &[u16],
    heights: &mut [f64],
    root: usize,
    tuning: f64,
    random: Random,
    allowance: u32,
) -> Answered
    ensures { called result.answer result.random pairs.now parents.now heights.new ≡ move_call (tree_scale tuning) (tree_of pairs.now parents.now heights.old root) random allowance }
{
    let tree = Tree {
        pairs,
        parents,
        heights: &*heights,
        root,
    };
    if let Err(why) = quick::validate(&tree) {
        return calls::refuse(why, random);
    }
    tree_scale_unvalidated(pairs, parents, heights, root, tuning, random, allowance)
}
