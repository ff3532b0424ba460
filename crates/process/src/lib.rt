// The fossilized birth–death process of rove's dating.rs and the priors of dating/process.rs: which parameters are estimated, and whether the
// priors are in order. The densities stay out. Assumes nothing.
#![tactic(auto)]

ghost use Rattle.std.specs.Prelude.{◌≡◌};
ghost use Rattle.std.specs.Float.Ieee.Scale.{finite};
ghost use Rattle.real.specs.Real.{positive};
ghost use Rattle.process.specs.Process.{passes, both_pass, shapely, estimates, some_given, priors_call, priors_finite, process_finite};

use answer::Refusal;
use kinds::Move;

// The process: three rates, the probability that a tip at the present is sampled, and the age of the origin.
#[derive(Clone, Copy)]
pub struct FossilizedBirthDeath {
    pub birth: f64,
    pub death: f64,
    pub fossil_sampling: f64,
    pub present_sampling: f64,
    pub origin: f64,
}

// The priors. A parameter whose prior is missing is fixed; it is not estimated.
#[derive(Clone, Copy)]
pub struct ProcessPriors {
    pub birth_rate_mean: Option<f64>,
    pub death_rate_mean: Option<f64>,
    pub fossil_sampling_rate_mean: Option<f64>,
    pub present_sampling_beta: Option<(f64, f64)>,
    pub origin_excess_mean: Option<f64>,
}

// From 0.001 to 1000.
fn is_shape(x: f64) -> bool
    ensures { result ≡ shapely x }
{
    0.001 <= x && x <= 1000.0
}

// Whether a mean is finite and positive, or missing.
fn is_mean(x: Option<f64>) -> bool
    ensures { result ≡ passes positive x }
{
    x.is_none_or(real::is_positive)
}

// Whether both shapes are from 0.001 to 1000, or missing.
fn are_shapes(x: Option<(f64, f64)>) -> bool
    ensures { result ≡ both_pass shapely x }
{
    x.is_none_or(|(a, b)| is_shape(a) && is_shape(b))
}

// Whether a float is finite, or missing.
fn is_number(x: Option<f64>) -> bool
    ensures { result ≡ passes finite x }
{
    x.is_none_or(real::is_finite)
}

// Whether both are finite, or missing.
fn are_numbers(x: Option<(f64, f64)>) -> bool
    ensures { result ≡ both_pass finite x }
{
    x.is_none_or(|(a, b)| real::is_finite(a) && real::is_finite(b))
}

impl ProcessPriors {
    // Whether the parameter that a move changes has a prior.
    pub fn estimates(self, kind: Move) -> bool
        ensures { result ≡ estimates self kind }
    {
        match kind {
            Move::FbdBirthScale => self.birth_rate_mean.is_some(),
            Move::FbdDeathScale => self.death_rate_mean.is_some(),
            Move::FbdSamplingScale => self.fossil_sampling_rate_mean.is_some(),
            Move::FbdRhoLogit => self.present_sampling_beta.is_some(),
            Move::FbdOriginScale => self.origin_excess_mean.is_some(),
            _ => false,
        }
    }

    // Whether one parameter or more is estimated.
    fn are_some_given(self) -> bool
        ensures { result ≡ some_given self }
    {
        self.birth_rate_mean.is_some()
            || self.death_rate_mean.is_some()
            || self.fossil_sampling_rate_mean.is_some()
            || self.origin_excess_mean.is_some()
            || self.present_sampling_beta.is_some()
    }

    // Whether the priors are in order: one parameter or more is estimated, means are finite and positive, shapes are from 0.001 to 1000.
    #[tactic(auto, unfolding(crate::specs::Process::priors_call, crate::specs::Process::priors_fit))]
    pub fn validate(self) -> Result<(), Refusal>
        ensures { result ≡ priors_call self }
    {
        let means_fit = is_mean(self.birth_rate_mean)
            && is_mean(self.death_rate_mean)
            && is_mean(self.fossil_sampling_rate_mean)
            && is_mean(self.origin_excess_mean);
        if means_fit && are_shapes(self.present_sampling_beta) && self.are_some_given() {
            Ok(())
        } else {
            Err(Refusal::Parameter(0))
        }
    }

    // Whether every mean and shape that is given is finite.
    #[tactic(auto, unfolding(crate::specs::Process::priors_finite))]
    pub fn is_finite(self) -> bool
        ensures { result ≡ priors_finite self }
    {
        is_number(self.birth_rate_mean)
            && is_number(self.death_rate_mean)
            && is_number(self.fossil_sampling_rate_mean)
            && is_number(self.origin_excess_mean)
            && are_numbers(self.present_sampling_beta)
    }
}

impl FossilizedBirthDeath {
    // Whether every field is finite.
    #[tactic(auto, unfolding(crate::specs::Process::process_finite))]
    pub fn is_finite(self) -> bool
        ensures { result ≡ process_finite self }
    {
        real::is_finite(self.birth)
            && real::is_finite(self.death)
            && real::is_finite(self.fossil_sampling)
            && real::is_finite(self.present_sampling)
            && real::is_finite(self.origin)
    }
}
