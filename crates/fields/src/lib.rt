// The plain scales of a fossilized birth–death process, of dating/process.rs: birth, death, fossil sampling and origin. No public function has a `requires`.
// Assumes nothing.
#![tactic(auto)]

ghost use Rattle.std.specs.Prelude.{◌≡◌};
ghost use Rattle.calls.specs.Change.{proposed, value_call};
ghost use Rattle.fields.specs.Fields.{above, field, move_of, value_of, put, shift_of, fbd_limits, fbd_call};

use answer::{Proposal, Refusal};
use kinds::Move;
use process::{FossilizedBirthDeath, ProcessPriors};
use random::{Random, Supply};
use scales::Scaled;

// The fields of a process that are scaled.
#[derive(Clone, Copy)]
pub enum Field {
    Birth,
    Death,
    FossilSampling,
    Origin,
}

// Whether a value is finite and above a shift.
fn is_above(shift: f64, x: f64) -> bool
    ensures { result ≡ above shift x }
{
    real::is_finite(x) && shift < x
}

// A field of a process: shift + (value − shift)·f, above the shift; nothing is drawn for one that is not estimated.
#[tactic(auto, using(crate::proofs::FieldLaws::field_laws))]
fn field_scale(
    limits: bool,
    estimated: bool,
    value: f64,
    shift: f64,
    tuning: f64,
    random: Random,
    allowance: u32,
) -> Scaled<f64>
    ensures { proposed result.proposal result.random result.value ≡ value_call limits (field estimated value shift tuning) value random allowance }
{
    if !scales::is_fine(limits, allowance) {
        return scales::refuse(Refusal::Parameter(0), value, random);
    }
    if !estimated {
        return Scaled {
            proposal: Proposal::Declined(0),
            value,
            random,
        };
    }
    let supply = Supply {
        random,
        left: allowance,
    };
    let Some((u, after)) = supply.uniform() else {
        return scales::refuse(Refusal::Allowance(allowance), value, random);
    };
    let f = calls::scaler(tuning, u);
    let x = shift + (value - shift) * f;
    scales::settle(is_above(shift, x), x, value, f, allowance, after)
}

// Whether the tuning, the offset, the process and its priors are within their limits.
#[tactic(auto, unfolding(crate::specs::Fields::fbd_limits))]
fn is_within_limits(
    priors: ProcessPriors,
    process: FossilizedBirthDeath,
    offset: f64,
    tuning: f64,
) -> bool
    ensures { result ≡ fbd_limits priors process offset tuning }
{
    calls::is_tuned(tuning)
        && real::is_not_negative(offset)
        && process.is_finite()
        && priors.is_finite()
}

impl Field {
    // The move that scales a field.
    fn kind(self) -> Move
        ensures { result ≡ move_of self }
    {
        match self {
            Field::Birth => Move::FbdBirthScale,
            Field::Death => Move::FbdDeathScale,
            Field::FossilSampling => Move::FbdSamplingScale,
            Field::Origin => Move::FbdOriginScale,
        }
    }

    // The value of a field.
    fn of(self, process: FossilizedBirthDeath) -> f64
        ensures { result ≡ value_of self process }
    {
        match self {
            Field::Birth => process.birth,
            Field::Death => process.death,
            Field::FossilSampling => process.fossil_sampling,
            Field::Origin => process.origin,
        }
    }

    // The offset for the origin, else 0.
    fn shift(self, offset: f64) -> f64
        ensures { result ≡ shift_of self offset }
    {
        match self {
            Field::Birth | Field::Death | Field::FossilSampling => 0.0,
            Field::Origin => offset,
        }
    }

    // The process with another value of the field.
    fn put(self, process: FossilizedBirthDeath, x: f64) -> FossilizedBirthDeath
        ensures { result ≡ put self process x }
    {
        match self {
            Field::Birth => FossilizedBirthDeath {
                birth: x,
                ..process
            },
            Field::Death => FossilizedBirthDeath {
                death: x,
                ..process
            },
            Field::FossilSampling => FossilizedBirthDeath {
                fossil_sampling: x,
                ..process
            },
            Field::Origin => FossilizedBirthDeath {
                origin: x,
                ..process
            },
        }
    }
}

// A plain scale of `ProcessPriors::propose`: FbdBirthScale, FbdDeathScale, FbdSamplingScale or FbdOriginScale, by the field that it scales.
pub fn fbd_scale(
    to: Field,
    priors: ProcessPriors,
    process: FossilizedBirthDeath,
    offset: f64,
    tuning: f64,
    random: Random,
    allowance: u32,
) -> Scaled<FossilizedBirthDeath>
    ensures { proposed result.proposal result.random result.value ≡ fbd_call to priors process offset tuning random allowance }
{
    let limits = is_within_limits(priors, process, offset, tuning);
    let estimated = priors.estimates(to.kind());
    let value = to.of(process);
    let shift = to.shift(offset);
    let scaled = field_scale(limits, estimated, value, shift, tuning, random, allowance);
    Scaled {
        proposal: scaled.proposal,
        value: to.put(process, scaled.value),
        random: scaled.random,
    }
}
