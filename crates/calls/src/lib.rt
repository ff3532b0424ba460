// What the calls of the moves share: the check of the limits before a move, its answer afterwards, and the draws and floats that several moves
// make. A move is a turn: a function that takes a tree and a supply, and ends as moved, as declined, or in what refuses the call. Each move has
// two entry points: one validates its tree, the other, unvalidated, leaves that to a host whose tree was accepted and has only been changed by
// these calls; neither asks anything. Assumes nothing.
#![tactic(auto)]

ghost use Rattle.std.specs.Prelude.{◌≡◌};
ghost use Rattle.random.specs.Draw.{pick, drawn};
ghost use Rattle.rules.specs.Rules.{one_internal, within};
ghost use Rattle.calls.specs.Call.{limited};
ghost use Rattle.calls.specs.Draws.{non_root, internal, scaler, tuned};
ghost use Rattle.calls.specs.Given.{turned_back, answered_of, height_of};

use answer::{Answer, Moved, Ratio, Refusal};
use random::{Random, Supply};

// 1e-8.
const LEAST_TUNING: f64 = 1e-8;

// An answer, and the generator after the call.
#[derive(Clone, Copy)]
pub struct Answered {
    pub answer: Answer,
    pub random: Random,
}

// How a turn ended: with the root and the ratio of a move, without a move, or in what refuses the call (more draws needed than are left, a
// node whose new height is not finite, or one whose drawn height is outside its interval), the tree then being as it was.
#[derive(Clone, Copy)]
pub enum Turned {
    Moved(usize, Ratio),
    Declined,
    Spent,
    NotFinite(usize),
    Outside(usize),
}

// A turn's end, and the supply after it.
#[derive(Clone, Copy)]
pub struct Turn {
    pub turned: Turned,
    pub supply: Supply,
}

// Whether the call may go on, once its tree is checked: its parameters are within their limits, and the allowance is.
pub fn check_limits(limits: bool, allowance: u32) -> Result<(), Refusal>
    ensures { result ≡ limited limits allowance }
{
    if limits && random::is_allowed(allowance) {
        Ok(())
    } else {
        Err(Refusal::Parameter(0))
    }
}

// The call's answer, from its turn and the generator as it came. Draws made are those allowed less those left; none where more are left.
#[tactic(auto, unfolding(crate::specs::Given::answered_of))]
pub fn answer(turn: Turn, random: Random, allowance: u32) -> Answered
    ensures { result ≡ answered_of turn.turned turn.supply random allowance }
{
    let Turn { turned, supply } = turn;
    let after = supply.random;
    let draws = allowance.saturating_sub(supply.left);
    match turned {
        Turned::Moved(root, ratio) => Answered {
            answer: Answer::Moved(Moved { root, draws, ratio }),
            random: after,
        },
        Turned::Declined => Answered {
            answer: Answer::Declined(draws),
            random: after,
        },
        Turned::Spent => refuse(Refusal::Allowance(allowance), random),
        Turned::NotFinite(node) => refuse(Refusal::NotFinite(node), random),
        Turned::Outside(node) => refuse(Refusal::Outside(node), random),
    }
}

// The answer of a call that is turned back, with the generator as it came.
pub fn refuse(why: Refusal, random: Random) -> Answered
    ensures { result ≡ turned_back why random }
{
    Answered {
        answer: Answer::Refused(why),
        random,
    }
}

// A node of n other than the root.
#[tactic(auto, using(crate::proofs::DrawnLaws::non_root_laws))]
pub fn non_root(s: Supply, n: usize, root: usize) -> Option<(usize, Supply)>
    ensures { result ≡ drawn (pick (non_root n root) s) }
{
    s.below_other(n, 0, root)
}

// Whether n nodes have one internal node: half of them are internal, rounded down.
#[tactic(auto, using(crate::proofs::DrawnLaws::internal_laws))]
pub fn is_one_internal(n: usize) -> bool
    ensures { result ≡ one_internal n }
{
    n / 2 == 1
}

// An internal node of n.
#[tactic(auto, using(crate::proofs::DrawnLaws::internal_laws))]
pub fn internal(s: Supply, n: usize) -> Option<(usize, Supply)>
    ensures { result ≡ drawn (pick (internal n) s) }
{
    let half = n / 2;
    let (k, after) = s.below(half)?;
    Some((n - half + k, after))
}

// The factor of a scale, from its tuning and a uniform.
#[tactic(auto, unfolding(crate::specs::Draws::scaler))]
pub fn scaler(s: f64, u: f64) -> f64
    ensures { result ≡ scaler s u }
{
    s + u * (1.0 / s - s)
}

// Whether a tuning is within its limits.
pub fn is_tuned(s: f64) -> bool
    ensures { result ≡ tuned s }
{
    is_within(LEAST_TUNING, s, 1.0)
}

// Whether a height is in an interval, both ends included.
pub fn is_within(lower: f64, x: f64, upper: f64) -> bool
    ensures { result ≡ within lower x upper }
{
    lower <= x && x <= upper
}

// The height that a uniform takes in an interval, and whether it is inside.
#[tactic(auto, unfolding(crate::specs::Draws::interpolated))]
pub fn interpolate(lower: f64, upper: f64, u: f64) -> Option<f64>
    ensures { result ≡ height_of lower upper u }
{
    let x = lower + u * (upper - lower);
    is_within(lower, x, upper).then_some(x)
}
