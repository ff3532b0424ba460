// The scales of a relaxed clock, of mcmc/moves.rs: ClockSigmaScale and BranchRateScale. A clock is lent as its rates, with sigma beside it, which is missing
// where there is no clock. No public function has a `requires`. Assumes nothing.
#![tactic(auto)]

ghost use Rattle.std.specs.Prelude.{◌≡◌, ◌&&◌};
ghost use Rattle.answer.specs.declared.Proposal.TheVariants as Proposals;
ghost use Rattle.calls.specs.Change.{proposed, value_call};
ghost use Rattle.calls.specs.Draws.{tuned};
ghost use Rattle.rates.specs.Clock.{clock_fits};
ghost use Rattle.clocks.specs.Clocks.{positively, clock_sigma_call, branch_rate_of, branch_rate_call};
ghost use Rattle.clocks.specs.Given.{rates_after};

use answer::{Proposal, Ratio, Refusal};
use random::{Random, Supply};
use scales::Scaled;

// An answer and the generator after the call, the rates being lent.
#[derive(Clone, Copy)]
pub struct RatesScaled {
    pub proposal: Proposal,
    pub random: Random,
}

// A value times a factor, finite and positive.
#[tactic(auto, using(crate::proofs::ClockLaws::positive_laws))]
fn positive_scale(
    limits: bool,
    value: f64,
    tuning: f64,
    random: Random,
    allowance: u32,
) -> Scaled<f64>
    ensures { proposed result.proposal result.random result.value ≡ value_call limits (positively value tuning) value random allowance }
{
    if !scales::is_fine(limits, allowance) {
        return scales::refuse(Refusal::Parameter(0), value, random);
    }
    let supply = Supply {
        random,
        left: allowance,
    };
    let Some((u, after)) = supply.uniform() else {
        return scales::refuse(Refusal::Allowance(allowance), value, random);
    };
    let f = calls::scaler(tuning, u);
    let x = value * f;
    scales::settle(real::is_positive(x), x, value, f, allowance, after)
}

// Whether the tuning and the clock are within their limits.
fn is_timed(sigma: f64, rates: &[f64], tuning: f64) -> bool
    ensures { result ≡ (tuned tuning && clock_fits sigma rates.now) }
{
    calls::is_tuned(tuning) && rates::is_clock(sigma, rates)
}

// ClockSigmaScale, of the sigma of a clock with these rates; without a clock nothing is drawn, and the rates are not looked at.
#[tactic(auto, using(crate::proofs::ClockLaws::sigma_laws))]
pub fn clock_sigma_scale(
    sigma: Option<f64>,
    rates: &[f64],
    tuning: f64,
    random: Random,
    allowance: u32,
) -> Scaled<Option<f64>>
    ensures { proposed result.proposal result.random result.value ≡ clock_sigma_call sigma rates.now tuning random allowance }
{
    match sigma {
        None => Scaled {
            proposal: scales::undrawn(scales::is_fine(calls::is_tuned(tuning), allowance)),
            value: sigma,
            random,
        },
        Some(x) => {
            let limits = is_timed(x, rates, tuning);
            let scaled = positive_scale(limits, x, tuning, random, allowance);
            Scaled {
                proposal: scaled.proposal,
                value: Some(scaled.value),
                random: scaled.random,
            }
        }
    }
}

// The answer of a call that is turned back: the generator as it came.
fn refuse(why: Refusal, random: Random) -> RatesScaled
    ensures { result ≡ rates_after (Proposals.Refused why) random }
{
    RatesScaled {
        proposal: Proposal::Refused(why),
        random,
    }
}

// A rate by its index times a factor, finite and positive.
#[tactic(auto, using(crate::proofs::ClockLaws::rate_scale_laws))]
fn rate_scale(
    limits: bool,
    rates: &mut [f64],
    tuning: f64,
    random: Random,
    allowance: u32,
) -> RatesScaled
    ensures { proposed result.proposal result.random rates.new ≡ value_call limits (branch_rate_of rates.old tuning) rates.old random allowance }
{
    if !scales::is_fine(limits, allowance) {
        return refuse(Refusal::Parameter(0), random);
    }
    let supply = Supply {
        random,
        left: allowance,
    };
    let Some((i, between)) = supply.below(rates.len()) else {
        return refuse(Refusal::Allowance(allowance), random);
    };
    let Some((u, after)) = between.uniform() else {
        return refuse(Refusal::Allowance(allowance), random);
    };
    let f = calls::scaler(tuning, u);
    let x = rates[i] * f;
    let draws = allowance - after.left;
    if !real::is_positive(x) {
        return RatesScaled {
            proposal: Proposal::Declined(draws),
            random: after.random,
        };
    }
    rates[i] = x;
    RatesScaled {
        proposal: Proposal::Scaled(draws, Ratio::Power(f, -1)),
        random: after.random,
    }
}

// BranchRateScale, of one of a clock's rates; without a clock nothing is drawn, and the rates are not looked at.
#[tactic(auto, using(crate::proofs::ClockLaws::branch_laws))]
pub fn branch_rate_scale(
    sigma: Option<f64>,
    rates: &mut [f64],
    tuning: f64,
    random: Random,
    allowance: u32,
) -> RatesScaled
    ensures { proposed result.proposal result.random rates.new ≡ branch_rate_call sigma rates.old tuning random allowance }
{
    match sigma {
        None => RatesScaled {
            proposal: scales::undrawn(scales::is_fine(calls::is_tuned(tuning), allowance)),
            random,
        },
        Some(x) => {
            let limits = is_timed(x, rates, tuning);
            rate_scale(limits, rates, tuning, random, allowance)
        }
    }
}
