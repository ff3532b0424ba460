// The parameters in a record (crate record): how a host hands a call its parameters, in words 13 to 31, and where it finds them after a call that
// scaled them (specs/Parameters.antt); and how the calls that ask about a clock, a density or a clade answer in a record (specs/Answers.antt). What
// writes asks that the words are a record. Assumes nothing.
#![tactic(auto)]

ghost use Rattle.std.specs.Prelude.{◌≡◌, ◌≤◌, ℕ, List, length};
ghost use Rattle.record.specs.Record.{written};
ghost use Rattle.record_parameters.specs.Parameters.{optional_in, speciation_in, process_in, shapes_in, priors_in, chosen_in};
ghost use Rattle.record_parameters.specs.Parameters.{proposed_left, with_real, with_optional, with_speciation, with_process};
ghost use Rattle.record_parameters.specs.Answers.{asked_left, sigma_left, density_left};

use answer::{Proposal, Refusal};
use fields::Field;
use process::{FossilizedBirthDeath, ProcessPriors};
use rates::SigmaSet;
use scales::Scaled;
use speciation::{Density, Speciation};

// ---- what a call reads

// A float that a flag says to be given.
pub fn optional(words: &[u64], flag: usize, value: usize) -> Option<f64>
    ensures { result ≡ optional_in words.now flag value }
{
    if record::word(words, flag) == 0 {
        None
    } else {
        Some(record::real_at(words, value))
    }
}

pub fn speciation(words: &[u64]) -> Speciation
    ensures { result ≡ speciation_in words.now }
{
    let first = record::real_at(words, 14);
    if record::word(words, 13) == 0 {
        Speciation::Yule(first)
    } else {
        Speciation::BirthDeath(first, record::real_at(words, 15))
    }
}

pub fn process(words: &[u64]) -> FossilizedBirthDeath
    ensures { result ≡ process_in words.now }
{
    FossilizedBirthDeath {
        birth: record::real_at(words, 13),
        death: record::real_at(words, 14),
        fossil_sampling: record::real_at(words, 15),
        present_sampling: record::real_at(words, 16),
        origin: record::real_at(words, 17),
    }
}

fn shapes(words: &[u64]) -> Option<(f64, f64)>
    ensures { result ≡ shapes_in words.now }
{
    if record::word(words, 24) == 0 {
        None
    } else {
        Some((record::real_at(words, 25), record::real_at(words, 26)))
    }
}

pub fn priors(words: &[u64]) -> ProcessPriors
    ensures { result ≡ priors_in words.now }
{
    ProcessPriors {
        birth_rate_mean: optional(words, 18, 19),
        death_rate_mean: optional(words, 20, 21),
        fossil_sampling_rate_mean: optional(words, 22, 23),
        present_sampling_beta: shapes(words),
        origin_excess_mean: optional(words, 27, 28),
    }
}

// The field that word 6 names.
pub fn chosen(words: &[u64]) -> Option<Field>
    ensures { result ≡ chosen_in words.now }
{
    match record::node(words) {
        0 => Some(Field::Birth),
        1 => Some(Field::Death),
        2 => Some(Field::FossilSampling),
        3 => Some(Field::Origin),
        _ => None,
    }
}

// ---- what a call on parameters writes

// A parameter that a call scales, and where it stands in a record.
pub trait InRecord: Copy {
    ghost left: { Self → List ℕ → List ℕ };

    fn put(self, words: &mut [u64])
        requires { 32 ≤ length words.old }
        ensures { words.new ≡ left self words.old };
}

// A value stands in word 13.
impl InRecord for f64 {
    ghost left = { with_real 13 };

    fn put(self, words: &mut [u64]) {
        record::put_real(words, 13, self);
    }
}

// A value that may be missing stands in word 14.
impl InRecord for Option<f64> {
    ghost left = { with_optional };

    fn put(self, words: &mut [u64]) {
        if let Some(x) = self {
            record::put_real(words, 14, x);
        }
    }
}

impl InRecord for Speciation {
    ghost left = { with_speciation };

    fn put(self, words: &mut [u64]) {
        match self {
            Speciation::Yule(rate) => record::put_real(words, 14, rate),
            Speciation::BirthDeath(difference, death) => {
                record::put_real(words, 14, difference);
                record::put_real(words, 15, death);
            }
        }
    }
}

impl InRecord for FossilizedBirthDeath {
    ghost left = { with_process };

    fn put(self, words: &mut [u64]) {
        record::put_real(words, 13, self.birth);
        record::put_real(words, 14, self.death);
        record::put_real(words, 15, self.fossil_sampling);
        record::put_real(words, 16, self.present_sampling);
        record::put_real(words, 17, self.origin);
    }
}

// The answer of a call on parameters, with the parameters where they were scaled.
#[tactic(auto, unfolding(crate::specs::Parameters::proposed_left))]
pub fn put_scaled<T: InRecord>(words: &mut [u64], s: Scaled<T>) -> u64
    requires { 32 ≤ length words.old }
    ensures { written result words.new ≡ proposed_left T.left s.proposal s.random s.value words.old }
{
    if let Proposal::Scaled(_, _) = s.proposal {
        s.value.put(words);
    }
    record::put_proposal(words, s.proposal, s.random)
}

// ---- what a call writes that asks

// What was asked for, as a word; or why not.
pub fn put_asked(words: &mut [u64], asked: Result<u64, Refusal>) -> u64
    requires { 32 ≤ length words.old }
    ensures { written result words.new ≡ asked_left asked words.old }
{
    match asked {
        Ok(word) => record::put_given(words, 0, word, 0),
        Err(why) => record::put_refusal(words, why),
    }
}

// A sigma that was stored goes into word 14.
#[tactic(auto, unfolding(crate::specs::Answers::sigma_left, crate::specs::Answers::stored_left))]
pub fn put_sigma(words: &mut [u64], s: SigmaSet) -> u64
    requires { 32 ≤ length words.old }
    ensures { written result words.new ≡ sigma_left s words.old }
{
    if let Ok(true) = s.stored {
        record::put_real(words, 14, s.sigma);
    }
    put_asked(words, s.stored.map(u64::from))
}

// The terms of a density: the first as the first value, the others into words 14 and 15.
#[tactic(auto, unfolding(crate::specs::Answers::density_left))]
pub fn put_density(words: &mut [u64], density: Result<Density, Refusal>) -> u64
    requires { 32 ≤ length words.old }
    ensures { written result words.new ≡ density_left density words.old }
{
    match density {
        Ok(Density::MinusInfinity) => record::put_declined(words, 0),
        Ok(Density::Terms(count, rate, product)) => {
            record::put_real(words, 14, rate);
            record::put_real(words, 15, product);
            record::put_given(words, 0, count as u64, 0)
        }
        Err(why) => record::put_refusal(words, why),
    }
}
