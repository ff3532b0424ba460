// Tip dating, of rove's dating.rs: `initialize` and `propose_age`, on a tree with a table of ages. Assumes nothing.
#![tactic(auto)]

ghost use Rattle.std.specs.Prelude.{◌≡◌, List, [], ◌&&◌, ℕ, ◌<◌, length, get_or};
ghost use Rattle.std.specs.Float.{nan};
ghost use Rattle.random.specs.Draw.{run, allowed};
ghost use Rattle.tree.specs.Given.{tree_of, kin_in};
ghost use Rattle.calls.specs.declared.Turned.TheVariants as Turns;
ghost use Rattle.calls.specs.Call.{called};
ghost use Rattle.calls.specs.Draws.{least};
ghost use Rattle.calls.specs.Given.{after, turn_of};
ghost use Rattle.process.specs.Process.{process_finite};
ghost use Rattle.dating.specs.Initialize.{midpoint, oldest, stretch, initial_height, overflows_at, initial_to, start_fits, initialized, initialize_call};
ghost use Rattle.dating.specs.TipAge.{ageing, tip_age, tip_age_call};
ghost use Rattle.dating.specs.Given.{start_with, start_in, start_call, left_to};

use ages::TipAge;
use answer::{Ratio, Refusal};
use calls::{Answered, Turn, Turned};
use process::FossilizedBirthDeath;
use random::{Random, Supply};
use tree::Tree;

// The middle of a tip's ages.
#[tactic(auto, unfolding(crate::specs::Initialize::midpoint))]
fn midpoint(age: TipAge) -> f64
    ensures { result ≡ midpoint age }
{
    age.minimum + (age.maximum - age.minimum) / 2.0
}

// The oldest of so many tips at the middle of their ages, and 0.0 at least.
#[tactic(auto, unfolding(crate::specs::Initialize::oldest))]
fn oldest(minima: &[f64], maxima: &[f64], tips: usize) -> f64
    ensures { result ≡ oldest minima.now maxima.now tips }
{
    let mut old = 0.0;
    for tip in 0..tips {
        old = real::max(old, midpoint(ages::age_of(minima, maxima, tip)));
    }
    old
}

// 0.8 of what is left under the origin, over the root's height.
#[tactic(auto, unfolding(crate::specs::Initialize::stretch))]
fn stretch(origin: f64, old: f64, top: f64) -> f64
    ensures { result ≡ stretch origin old top }
{
    0.8 * (origin - old) / top
}

// The new height of a node of so many that was at `height`.
#[tactic(auto, unfolding(crate::specs::Initialize::initial_height))]
fn initial_height(
    minima: &[f64],
    maxima: &[f64],
    nodes: usize,
    old: f64,
    factor: f64,
    node: usize,
    height: f64,
) -> f64
    ensures { result ≡ initial_height (start_with nodes minima.now maxima.now old factor) node height }
{
    if reads::is_inner(nodes, node) {
        old + height * factor
    } else {
        midpoint(ages::age_of(minima, maxima, node))
    }
}

// The lowest node whose new height is not finite, or the number of nodes where every one is.
#[tactic(auto, using(crate::proofs::InitializeLaws::lowest_laws))]
fn lowest_overflow(heights: &[f64], minima: &[f64], maxima: &[f64], old: f64, factor: f64) -> usize
    ensures { result ≡ least (overflows_at (start_with (length heights.now) minima.now maxima.now old factor) (kin_in [] heights.now)) (length heights.now) }
{
    let nodes = heights.len();
    for (k, h) in heights.iter().enumerate() {
        if !real::is_finite(initial_height(minima, maxima, nodes, old, factor, k, *h)) {
            return k;
        }
    }
    nodes
}

// Every node takes its new height.
#[tactic(auto, using(crate::proofs::InitializeLaws::set_laws))]
fn set_heights(heights: &mut [f64], minima: &[f64], maxima: &[f64], old: f64, factor: f64)
    ensures { heights.new ≡ initial_to (start_with (length heights.old) minima.now maxima.now old factor) (kin_in [] heights.old) (length heights.old) }
{
    // By index: behind `iter_mut().enumerate()` nothing is known of what is written.
    let nodes = heights.len();
    for k in 0..nodes {
        heights[k] = initial_height(minima, maxima, nodes, old, factor, k, heights[k]);
    }
}

// Every node takes its new height, or none where one is not finite.
#[tactic(auto, using(crate::proofs::StartLaws::start_laws))]
fn start(
    heights: &mut [f64],
    root: usize,
    minima: &[f64],
    maxima: &[f64],
    origin: f64,
) -> Result<(), Refusal>
    ensures { initialized result heights.new ≡ start_call (start_in (length heights.old) minima.now maxima.now origin (get_or heights.old root nan)) (kin_in [] heights.old) }
{
    let nodes = heights.len();
    let old = oldest(minima, maxima, ages::tips(nodes));
    let factor = stretch(origin, old, reads::height(heights, root));
    let k = lowest_overflow(heights, minima, maxima, old, factor);
    if k < nodes {
        return Err(Refusal::NotFinite(k));
    }
    set_heights(heights, minima, maxima, old, factor);
    Ok(())
}

// Whether the parameters of `initialize` are within their limits.
#[tactic(auto, unfolding(crate::specs::Initialize::start_fits, tree::specs::Tree::height))]
fn is_start(
    pairs: &[u16],
    heights: &[f64],
    root: usize,
    minima: &[f64],
    maxima: &[f64],
    process: FossilizedBirthDeath,
) -> bool
    ensures { result ≡ start_fits minima.now maxima.now process (tree_of pairs.now [] heights.now root) }
{
    process.is_finite()
        && 0.0 < reads::height(heights, root)
        && oldest(minima, maxima, ages::tips(pairs.len() / 2)) < process.origin
}

// Every tip at the middle of its ages, and the internal heights scaled to what is left under the origin.
#[tactic(auto, using(crate::proofs::StartLaws::initialize_laws))]
pub fn initialize(
    pairs: &[u16],
    parents: &[u16],
    heights: &mut [f64],
    root: usize,
    minima: &[f64],
    maxima: &[f64],
    process: FossilizedBirthDeath,
) -> Result<(), Refusal>
    ensures { initialized result heights.new ≡ initialize_call minima.now maxima.now process (tree_of pairs.now parents.now heights.old root) }
{
    let limits = is_start(pairs, heights, root, minima, maxima, process);
    let tree = Tree {
        pairs,
        parents,
        heights: &*heights,
        root,
    };
    ages::check(&tree, minima, maxima, process, limits)?;
    start(heights, root, minima, maxima, process.origin)
}

// The interval that is left to a tip of these ages under a height.
fn interval(age: TipAge, above: f64) -> TipAge
    ensures { result ≡ left_to age above }
{
    TipAge {
        minimum: age.minimum,
        maximum: real::min(age.maximum, above),
    }
}

fn declined(supply: Supply) -> Turn
    ensures { result ≡ record { turned = Turns.Declined; supply = supply } }
{
    Turn {
        turned: Turned::Declined,
        supply,
    }
}

// A tip of these ages takes a height from its least age to the lower of its greatest and its parent's, drawn from the supply `between`; s is
// the turn's.
#[tactic(auto, using(crate::proofs::TipAgeLaws::age_tip_laws))]
fn age_tip(
    parents: &[u16],
    heights: &mut [f64],
    root: usize,
    tip: usize,
    age: TipAge,
    between: Supply,
    s: Supply,
) -> Turn
    ensures { (pairs : List ℕ) → after result pairs parents.now heights.new ≡ turn_of (tree_of pairs parents.now heights.old root) s (run (ageing (tree_of pairs parents.now heights.old root) tip age) between) }
{
    let left = interval(age, reads::height(heights, reads::parent(parents, tip)));
    if left.maximum <= left.minimum {
        return declined(between);
    }
    let Some((u, last)) = between.uniform() else {
        return Turn {
            turned: Turned::Spent,
            supply: s,
        };
    };
    let Some(x) = calls::interpolate(left.minimum, left.maximum, u) else {
        return Turn {
            turned: Turned::Outside(tip),
            supply: last,
        };
    };
    edits::set_height(heights, tip, x);
    Turn {
        turned: Turned::Moved(root, Ratio::Even),
        supply: last,
    }
}

// A tip takes a height from its least age to the lower of its greatest and its parent's.
#[tactic(auto, using(crate::proofs::TipAgeLaws::tip_age_laws))]
fn propose_age_turn(
    pairs: &[u16],
    parents: &[u16],
    heights: &mut [f64],
    root: usize,
    minima: &[f64],
    maxima: &[f64],
    s: Supply,
) -> Turn
    ensures { after result pairs.now parents.now heights.new ≡ turn_of (tree_of pairs.now parents.now heights.old root) s (run (tip_age minima.now maxima.now (tree_of pairs.now parents.now heights.old root)) s) }
{
    let Some((tip, between)) = s.below(ages::tips(pairs.len() / 2)) else {
        return Turn {
            turned: Turned::Spent,
            supply: s,
        };
    };
    let age = ages::age_of(minima, maxima, tip);
    age_tip(parents, heights, root, tip, age, between, s)
}

// Whether the parameters of `propose_age` are within their limits.
fn is_limited(process: FossilizedBirthDeath, allowance: u32) -> bool
    ensures { result ≡ process_finite process && allowed allowance }
{
    process.is_finite() && random::is_allowed(allowance)
}

// TipAge, by at most `allowance` draws.
#[tactic(auto, using(crate::proofs::TipAgeLaws::propose_laws))]
pub fn propose_age(
    pairs: &[u16],
    parents: &[u16],
    heights: &mut [f64],
    root: usize,
    minima: &[f64],
    maxima: &[f64],
    process: FossilizedBirthDeath,
    random: Random,
    allowance: u32,
) -> Answered
    ensures { called result.answer result.random pairs.now parents.now heights.new ≡ tip_age_call minima.now maxima.now process (tree_of pairs.now parents.now heights.old root) random allowance }
{
    let limits = is_limited(process, allowance);
    let tree = Tree {
        pairs,
        parents,
        heights: &*heights,
        root,
    };
    if let Err(why) = ages::check(&tree, minima, maxima, process, limits) {
        return calls::refuse(why, random);
    }
    let s = Supply {
        random,
        left: allowance,
    };
    let turn = propose_age_turn(pairs, parents, heights, root, minima, maxima, s);
    calls::answer(turn, random, allowance)
}
