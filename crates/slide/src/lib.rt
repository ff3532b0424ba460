// SubtreeSlide of rove's mcmc/moves.rs, in two calls: the first draws a node and the two uniforms of the step, the second takes the node and the
// step. Each has the call of its name, which refuses what is not in order, and an unvalidated one, which leaves the tree unchecked; all take
// whatever is lent. What the unvalidated first call gives is promised on any slices. What the unvalidated second call and its turns make is promised
// of a valid tree; on any slices they are harmless (calls/Harmless). Assumes nothing.
#![tactic(auto)]

ghost use Rattle.std.specs.Prelude.{◌≡◌, []};
ghost use Rattle.random.specs.Draw.{run};
ghost use Rattle.tree.specs.Given.{tree_of};
ghost use Rattle.moves.specs.Programs as Programs;
ghost use Rattle.moves.specs.Programs.{slide_start, slidable, slide_at};
ghost use Rattle.calls.specs.Call.{refused, called};
ghost use Rattle.moves.specs.Moves.{start_call, unvalidated_start, move_call, UnvalidatedCall, subtree_slide};
ghost use Rattle.calls.specs.Given.{after, turn_of};
ghost use Rattle.calls.specs.Harmless.{Turning};
ghost use Rattle.slide.specs.Started.{started_of, drawn_start};
ghost use Rattle.slide.specs.Slide.{Slidable, GoesUp, GoesDown, Lowers};

use answer::{Ratio, Refusal};
use calls::{Answered, Turn, Turned};
use random::{Random, Supply};
use tree::Tree;

// The places of the largest tree's pairs. Branches are counted by a function that calls itself, on more places too deep for a stack.
const MOST_PLACES: usize = 2 * tree::MOST_NODES;

// The node of a slide, the two uniforms of its step, and the draws made.
#[derive(Clone, Copy)]
pub struct SlideNode {
    pub node: usize,
    pub first: f64,
    pub second: f64,
    pub draws: u32,
}

// The answer of the first call, and the generator after it; after a refusal, the generator as it came.
#[derive(Clone, Copy)]
pub struct Started {
    pub answer: Result<SlideNode, Refusal>,
    pub random: Random,
}

// The draws of the first call: a node other than the root, two uniforms, and the supply after them.
#[tactic(auto, using(crate::proofs::StartLaws::draw_start_laws))]
fn draw_start(pairs: &[u16], root: usize, s: Supply) -> Option<(usize, f64, f64, Supply)>
    ensures { result ≡ drawn_start (run (slide_start (tree_of pairs.now [] [] root)) s) }
{
    let (node, s) = calls::non_root(s, pairs.len() / 2, root)?;
    let (first, s) = s.uniform()?;
    let (second, s) = s.uniform()?;
    Some((node, first, second, s))
}

// The first call, the tree being left unvalidated: a node other than the root, and the two uniforms of its step.
#[tactic(auto, using(crate::proofs::StartLaws::start_laws))]
pub fn slide_start_unvalidated(tree: &Tree<'_>, random: Random, allowance: u32) -> Started
    ensures { result ≡ started_of random (unvalidated_start tree.now random allowance) }
{
    if let Err(why) = calls::check_limits(true, allowance) {
        return turn_back(why, random);
    }
    let s = Supply {
        random,
        left: allowance,
    };
    let Some((node, first, second, after)) = draw_start(tree.pairs, tree.root, s) else {
        return turn_back(Refusal::Allowance(allowance), random);
    };
    Started {
        answer: Ok(SlideNode {
            node,
            first,
            second,
            draws: allowance - after.left,
        }),
        random: after.random,
    }
}

// The first call: the tree is checked first.
#[tactic(auto, using(crate::proofs::StartLaws::start_call_laws))]
pub fn slide_start(tree: &Tree<'_>, random: Random, allowance: u32) -> Started
    ensures { result ≡ started_of random (start_call tree.now random allowance) }
{
    if let Err(why) = quick::validate(tree) {
        return turn_back(why, random);
    }
    slide_start_unvalidated(tree, random, allowance)
}

// The answer of a first call that is turned back, with the generator as it came.
fn turn_back(why: Refusal, random: Random) -> Started
    ensures { result ≡ started_of random (refused why) }
{
    Started {
        answer: Err(why),
        random,
    }
}

// Upwards to the height x: onto the ancestral branch there, or no further than the parent's own. p is the parent, and old its height.
fn slide_up(
    pairs: &mut [u16],
    parents: &mut [u16],
    heights: &mut [f64],
    root: usize,
    node: usize,
    p: usize,
    old: f64,
    x: f64,
    s: Supply,
) -> Turn
    ensures { Turning (GoesUp pairs.old parents.old heights.old root node p old x) (turn_of (tree_of pairs.old parents.old heights.old root) s (run (slide_at node x (tree_of pairs.old parents.old heights.old root)) s)) (tree_of pairs.old parents.old heights.old root) s (after result pairs.new parents.new heights.new) }
{
    let to = branches::climb(parents, heights, root, x, p, pairs.len() / 2);
    if to == p {
        edits::set_height(heights, p, x);
        return Turn {
            turned: Turned::Moved(root, Ratio::Even),
            supply: s,
        };
    }
    let top = grafts::regraft(pairs, parents, heights, root, node, to, x);
    let count = branches::count(pairs, heights, old, to);
    Turn {
        turned: Turned::Moved(top, Ratio::Counts(1, count)),
        supply: s,
    }
}

// Downwards below the sibling to the height x: onto one of the branches under the sibling that span it, if there are any.
fn slide_under(
    pairs: &mut [u16],
    parents: &mut [u16],
    heights: &mut [f64],
    root: usize,
    node: usize,
    sibling: usize,
    x: f64,
    s: Supply,
) -> Turn
    ensures { Turning (Lowers pairs.old parents.old heights.old root node sibling x) (turn_of (tree_of pairs.old parents.old heights.old root) s (run (slide_at node x (tree_of pairs.old parents.old heights.old root)) s)) (tree_of pairs.old parents.old heights.old root) s (after result pairs.new parents.new heights.new) }
{
    let count = branches::count(pairs, heights, x, sibling);
    if count == 0 {
        return Turn {
            turned: Turned::Declined,
            supply: s,
        };
    }
    let Some((index, supply)) = s.below(count) else {
        return Turn {
            turned: Turned::Spent,
            supply: s,
        };
    };
    let child = branches::branch(pairs, heights, x, sibling, index);
    let top = grafts::regraft(pairs, parents, heights, root, node, child, x);
    Turn {
        turned: Turned::Moved(top, Ratio::Counts(count, 1)),
        supply,
    }
}

// Downwards, or not at all, to the height x: declined if the node is above it. p is the parent.
fn slide_down(
    pairs: &mut [u16],
    parents: &mut [u16],
    heights: &mut [f64],
    root: usize,
    node: usize,
    p: usize,
    x: f64,
    s: Supply,
) -> Turn
    ensures { Turning (GoesDown pairs.old parents.old heights.old root node p x) (turn_of (tree_of pairs.old parents.old heights.old root) s (run (slide_at node x (tree_of pairs.old parents.old heights.old root)) s)) (tree_of pairs.old parents.old heights.old root) s (after result pairs.new parents.new heights.new) }
{
    if x < reads::height(heights, node) {
        return Turn {
            turned: Turned::Declined,
            supply: s,
        };
    }
    let sibling = reads::other(pairs, p, node);
    if x < reads::height(heights, sibling) {
        return slide_under(pairs, parents, heights, root, node, sibling, x, s);
    }
    edits::set_height(heights, p, x);
    Turn {
        turned: Turned::Moved(root, Ratio::Even),
        supply: s,
    }
}

// The second call's turn: the node's parent slides by the step.
#[tactic(auto, using(crate::proofs::SlideLaws::turn_laws))]
fn subtree_slide_turn(
    pairs: &mut [u16],
    parents: &mut [u16],
    heights: &mut [f64],
    root: usize,
    node: usize,
    step: f64,
    s: Supply,
) -> Turn
    ensures { Turning (Slidable pairs.old parents.old heights.old root node) (turn_of (tree_of pairs.old parents.old heights.old root) s (run (Programs.subtree_slide node step (tree_of pairs.old parents.old heights.old root)) s)) (tree_of pairs.old parents.old heights.old root) s (after result pairs.new parents.new heights.new) }
{
    let p = reads::parent(parents, node);
    let old = reads::height(heights, p);
    let x = old + step;
    if !real::is_finite(x) {
        return Turn {
            turned: Turned::NotFinite(p),
            supply: s,
        };
    }
    if old < x {
        slide_up(pairs, parents, heights, root, node, p, old, x, s)
    } else {
        slide_down(pairs, parents, heights, root, node, p, x, s)
    }
}

// Whether the node is one below n other than the root and the step is finite.
#[tactic(auto, unfolding(moves::specs::Programs::slidable))]
fn is_slidable(pairs: &[u16], root: usize, node: usize, step: f64) -> bool
    ensures { result ≡ slidable (tree_of pairs.now [] [] root) node step }
{
    node < pairs.len() / 2 && node != root && real::is_finite(step)
}

// The second call, the tree being left unvalidated: the node's parent slides by the step, and onto another branch where the step leads past the ends
// of its own.
#[tactic(auto, using(crate::proofs::CallLaws::call_laws))]
pub fn subtree_slide_unvalidated(
    pairs: &mut [u16],
    parents: &mut [u16],
    heights: &mut [f64],
    root: usize,
    node: usize,
    step: f64,
    random: Random,
    allowance: u32,
) -> Answered
    ensures { UnvalidatedCall (subtree_slide node step) (tree_of pairs.old parents.old heights.old root) random allowance (called result.answer result.random pairs.new parents.new heights.new) }
{
    let limits = is_slidable(pairs, root, node, step);
    if let Err(why) = calls::check_limits(limits, allowance) {
        return calls::refuse(why, random);
    }
    if MOST_PLACES < pairs.len() {
        return calls::refuse(Refusal::Size(pairs.len() / 2), random);
    }
    let s = Supply {
        random,
        left: allowance,
    };
    let turn = subtree_slide_turn(pairs, parents, heights, root, node, step, s);
    calls::answer(turn, random, allowance)
}

// The second call: the tree is checked first.
#[tactic(auto, using(calls::proofs::EntryLaws::entry_laws))]
pub fn subtree_slide(
    pairs: &mut [u16],
    parents: &mut [u16],
    heights: &mut [f64],
    root: usize,
    node: usize,
    step: f64,
    random: Random,
    allowance: u32,
) -> Answered
    ensures { called result.answer result.random pairs.new parents.new heights.new ≡ move_call (subtree_slide node step) (tree_of pairs.old parents.old heights.old root) random allowance }
{
    let tree = Tree {
        pairs: &*pairs,
        parents: &*parents,
        heights: &*heights,
        root,
    };
    if let Err(why) = quick::validate(&tree) {
        return calls::refuse(why, random);
    }
    subtree_slide_unvalidated(pairs, parents, heights, root, node, step, random, allowance)
}
