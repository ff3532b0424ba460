// The relaxed clock of rove's rates.rs: `RelaxedClock` with `new`, `branch_rate`, `set_sigma` and `set_rate`. A clock is lent as a slice of rates,
// with sigma beside it by value. Every call refuses with 5 a clock that `new` would. Assumes nothing.
#![tactic(auto)]

ghost use Rattle.std.specs.Prelude.{◌≡◌, length};
ghost use Rattle.tree.specs.Bounded.{every};
ghost use Rattle.rates.specs.Clock.{positive_at, clock_fits, new_call, branch_rate_call, set_sigma_call, rate_set, set_rate_call};

use answer::Refusal;

// Whether sigma was stored, and sigma after the call.
#[derive(Clone, Copy)]
pub struct SigmaSet {
    pub stored: Result<bool, Refusal>,
    pub sigma: f64,
}

// Whether every rate is finite and positive.
fn are_positive(rates: &[f64]) -> bool
    ensures { result ≡ every (positive_at rates.now) (length rates.now) }
{
    rates.iter().all(|rate| real::is_positive(*rate))
}

// Whether this is a clock: sigma and two rates or more are finite and positive.
#[tactic(auto, unfolding(crate::specs::Clock::clock_fits))]
pub fn is_clock(sigma: f64, rates: &[f64]) -> bool
    ensures { result ≡ clock_fits sigma rates.now }
{
    2 <= rates.len() && real::is_positive(sigma) && are_positive(rates)
}

// `RelaxedClock::new` on lent rates.
#[tactic(auto, unfolding(crate::specs::Clock::new_call))]
pub fn new(sigma: f64, rates: &[f64]) -> Result<(), Refusal>
    ensures { result ≡ new_call sigma rates.now }
{
    if is_clock(sigma, rates) {
        Ok(())
    } else {
        Err(Refusal::Parameter(0))
    }
}

// The rate of a node's branch in a tree with this root. The last node has the root's place where it is not the root.
#[tactic(auto, unfolding(crate::specs::Clock::branch_rate_call, crate::specs::Clock::rate_of))]
pub fn branch_rate(sigma: f64, rates: &[f64], node: usize, root: usize) -> Result<f64, Refusal>
    ensures { result ≡ branch_rate_call sigma rates.now node root }
{
    let count = rates.len();
    if count < node || count < root || !is_clock(sigma, rates) {
        return Err(Refusal::Parameter(0));
    }
    if node == root {
        Ok(1.0)
    } else if node == count {
        Ok(rates[root])
    } else {
        Ok(rates[node])
    }
}

// Sigma becomes `new`, if that is finite and positive.
#[tactic(auto, unfolding(crate::specs::Clock::set_sigma_call))]
pub fn set_sigma(sigma: f64, rates: &[f64], new: f64) -> SigmaSet
    ensures { result ≡ set_sigma_call sigma rates.now new }
{
    if !is_clock(sigma, rates) {
        return SigmaSet {
            stored: Err(Refusal::Parameter(0)),
            sigma,
        };
    }
    let stored = real::is_positive(new);
    SigmaSet {
        stored: Ok(stored),
        sigma: if stored { new } else { sigma },
    }
}

// The rate at an index becomes `new`, if that is finite and positive.
#[tactic(auto, unfolding(crate::specs::Clock::set_rate_call))]
pub fn set_rate(sigma: f64, rates: &mut [f64], index: usize, new: f64) -> Result<bool, Refusal>
    ensures { rate_set result rates.new ≡ set_rate_call sigma rates.old index new }
{
    if rates.len() <= index || !is_clock(sigma, rates) {
        return Err(Refusal::Parameter(0));
    }
    let stored = real::is_positive(new);
    if stored {
        rates[index] = new;
    }
    Ok(stored)
}
