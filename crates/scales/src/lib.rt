// The scales of parameters of mcmc/moves.rs: `scale` and every use of it, and what the other scales of parameters share with it. Each takes its parameters and
// hands them back, scaled or as they came, with its answer and the generator. No entry point has a `requires`; `settle` has one, for the scales alone.
// Assumes nothing.
#![tactic(auto)]

ghost use Rattle.std.specs.Prelude.{◌≡◌, ◌&&◌, ◌≤◌};
ghost use Rattle.random.specs.Draw.{allowed};
ghost use Rattle.calls.specs.Change.{proposed};
ghost use Rattle.scales.specs.Scales.{scale_limits, scale_call, clock_rate_call, birth_difference_call, birth_rate_call, relative_death_call};
ghost use Rattle.scales.specs.Given.{undrawn_of, turned_back, settled};

use answer::{Proposal, Ratio, Refusal};
use random::{Random, Supply};
use speciation::Speciation;

// An answer, with what was given, scaled or as it came, and the generator after the call.
#[derive(Clone, Copy)]
pub struct Scaled<T> {
    pub proposal: Proposal,
    pub value: T,
    pub random: Random,
}

// Whether a scale may go on.
#[tactic(auto, unfolding(crate::specs::Scales::scale_limits))]
fn is_scalable(value: f64, upper: f64, tuning: f64, allowance: u32) -> bool
    ensures { result ≡ (scale_limits value upper tuning && allowed allowance) }
{
    calls::is_tuned(tuning)
        && real::is_not_negative(upper)
        && real::is_finite(value)
        && random::is_allowed(allowance)
}

// The answer of a call that is turned back: what was given and the generator as they came.
pub fn refuse<T>(why: Refusal, value: T, random: Random) -> Scaled<T>
    ensures { result ≡ turned_back why value random }
{
    Scaled {
        proposal: Proposal::Refused(why),
        value,
        random,
    }
}

// The answer after a factor was drawn: the new value where it is admitted.
pub fn settle(
    admitted: bool,
    new: f64,
    old: f64,
    f: f64,
    allowance: u32,
    after: Supply,
) -> Scaled<f64>
    requires { after.left ≤ allowance }
    ensures { result ≡ settled admitted new old f allowance after }
{
    let draws = allowance - after.left;
    if admitted {
        Scaled {
            proposal: Proposal::Scaled(draws, Ratio::Power(f, -1)),
            value: new,
            random: after.random,
        }
    } else {
        Scaled {
            proposal: Proposal::Declined(draws),
            value: old,
            random: after.random,
        }
    }
}

// A value times a factor, from 0 to an upper end; nothing is drawn at 0.
#[tactic(auto, using(crate::proofs::ScaleLaws::scale_laws))]
pub fn scale(value: f64, upper: f64, tuning: f64, random: Random, allowance: u32) -> Scaled<f64>
    ensures { proposed result.proposal result.random result.value ≡ scale_call value upper tuning random allowance }
{
    if !is_scalable(value, upper, tuning, allowance) {
        return refuse(Refusal::Parameter(0), value, random);
    }
    if value == 0.0 {
        return Scaled {
            proposal: Proposal::Declined(0),
            value,
            random,
        };
    }
    let supply = Supply {
        random,
        left: allowance,
    };
    let Some((u, after)) = supply.uniform() else {
        return refuse(Refusal::Allowance(allowance), value, random);
    };
    let f = calls::scaler(tuning, u);
    let x = value * f;
    settle(
        calls::is_within(0.0, x, upper),
        x,
        value,
        f,
        allowance,
        after,
    )
}

// Whether a call may go on whose other limits hold or do not.
pub fn is_fine(limits: bool, allowance: u32) -> bool
    ensures { result ≡ (limits && allowed allowance) }
{
    limits && random::is_allowed(allowance)
}

// The answer of a call that declines without a draw, if it may go on.
pub fn undrawn(fine: bool) -> Proposal
    ensures { result ≡ undrawn_of fine }
{
    if fine {
        Proposal::Declined(0)
    } else {
        Proposal::Refused(Refusal::Parameter(0))
    }
}

// ClockRateScale, of the mean rate; without one nothing is drawn.
#[tactic(auto, using(crate::proofs::UseLaws::clock_rate_laws))]
pub fn clock_rate_scale(
    mean: Option<f64>,
    tuning: f64,
    random: Random,
    allowance: u32,
) -> Scaled<Option<f64>>
    ensures { proposed result.proposal result.random result.value ≡ clock_rate_call mean tuning random allowance }
{
    match mean {
        None => Scaled {
            proposal: undrawn(is_fine(calls::is_tuned(tuning), allowance)),
            value: mean,
            random,
        },
        Some(x) => {
            let scaled = scale(x, f64::MAX, tuning, random, allowance);
            Scaled {
                proposal: scaled.proposal,
                value: Some(scaled.value),
                random: scaled.random,
            }
        }
    }
}

// BirthDifferenceScale, of the difference of birth and death rates; nothing is drawn for a Yule process.
pub fn birth_difference_scale(
    speciation: Speciation,
    upper: f64,
    tuning: f64,
    random: Random,
    allowance: u32,
) -> Scaled<Speciation>
    ensures { proposed result.proposal result.random result.value ≡ birth_difference_call speciation upper tuning random allowance }
{
    match speciation {
        Speciation::Yule(rate) => Scaled {
            proposal: undrawn(is_scalable(rate, upper, tuning, allowance)),
            value: speciation,
            random,
        },
        Speciation::BirthDeath(difference, death) => {
            if !real::is_finite(death) {
                return refuse(Refusal::Parameter(0), speciation, random);
            }
            let scaled = scale(difference, upper, tuning, random, allowance);
            Scaled {
                proposal: scaled.proposal,
                value: Speciation::BirthDeath(scaled.value, death),
                random: scaled.random,
            }
        }
    }
}

// BirthRateScale, of a Yule process's birth rate; nothing is drawn for a birth–death process.
pub fn birth_rate_scale(
    speciation: Speciation,
    upper: f64,
    tuning: f64,
    random: Random,
    allowance: u32,
) -> Scaled<Speciation>
    ensures { proposed result.proposal result.random result.value ≡ birth_rate_call speciation upper tuning random allowance }
{
    match speciation {
        Speciation::Yule(rate) => {
            let scaled = scale(rate, upper, tuning, random, allowance);
            Scaled {
                proposal: scaled.proposal,
                value: Speciation::Yule(scaled.value),
                random: scaled.random,
            }
        }
        Speciation::BirthDeath(difference, death) => {
            if !real::is_finite(death) {
                return refuse(Refusal::Parameter(0), speciation, random);
            }
            Scaled {
                proposal: undrawn(is_scalable(difference, upper, tuning, allowance)),
                value: speciation,
                random,
            }
        }
    }
}

// RelativeDeathScale, up to 1; nothing is drawn for a Yule process.
pub fn relative_death_scale(
    speciation: Speciation,
    tuning: f64,
    random: Random,
    allowance: u32,
) -> Scaled<Speciation>
    ensures { proposed result.proposal result.random result.value ≡ relative_death_call speciation tuning random allowance }
{
    match speciation {
        Speciation::Yule(rate) => Scaled {
            proposal: undrawn(is_scalable(rate, 1.0, tuning, allowance)),
            value: speciation,
            random,
        },
        Speciation::BirthDeath(difference, death) => {
            if !real::is_finite(difference) {
                return refuse(Refusal::Parameter(0), speciation, random);
            }
            let scaled = scale(death, 1.0, tuning, random, allowance);
            Scaled {
                proposal: scaled.proposal,
                value: Speciation::BirthDeath(difference, scaled.value),
                random: scaled.random,
            }
        }
    }
}
