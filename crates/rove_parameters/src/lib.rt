// The functions that C and Rust hosts call for what moves beside a tree, and for what is asked of one: the proposals on parameters, the relaxed clock,
// priors, the Yule density, tip dating and clades. Each takes the words of a record (crate record) and then its slices, with parameters in words 13 to 31
// (crate record_parameters), and returns the answer code: 0 done, 1 declined, 2 refused, 3 where there are not enough words for a record, which changes
// nothing. None has a `requires`. Crate rove_parameters_c exports them, and include/rove.h declares them for C. Assumes nothing.
#![tactic(auto)]

ghost use Rattle.std.specs.Prelude.{◌≡◌, ◌≤◌, length};
ghost use Rattle.record.specs.Record.{written};
ghost use Rattle.rove_parameters.specs.Exports.{scale_exported, clock_rate_exported, birth_difference_exported, birth_rate_exported, relative_death_exported, clock_sigma_exported, lent, branch_rate_scale_exported, field_left, fbd_exported};
ghost use Rattle.rove_parameters.specs.Exports.{clock_exported, branch_rate_exported, set_sigma_exported, set_rate_exported, priors_exported, yule_exported, table_exported, initialize_exported, tip_age_exported, monophyly_exported, age_exported};

use answer::Refusal;
use fields::Field;
use record::NO_RECORD;
use tree::Tree;

// ---- proposals

// The value in word 13, up to the upper end in word 14.
#[tactic(auto, unfolding(crate::specs::Exports::call_left))]
pub fn rove_scale(words: &mut [u64]) -> u64
    ensures { written result words.new ≡ scale_exported words.old }
{
    if !record::is_record(words) {
        return NO_RECORD;
    }
    let value = record::real_at(words, 13);
    let upper = record::real_at(words, 14);
    let tuning = record::tuning(words);
    let random = record::generator(words);
    let allowance = record::allowance(words);
    let scaled = scales::scale(value, upper, tuning, random, allowance);
    record_parameters::put_scaled(words, scaled)
}

#[tactic(auto, unfolding(crate::specs::Exports::call_left))]
pub fn rove_clock_rate_scale(words: &mut [u64]) -> u64
    ensures { written result words.new ≡ clock_rate_exported words.old }
{
    if !record::is_record(words) {
        return NO_RECORD;
    }
    let mean = record_parameters::optional(words, 13, 14);
    let tuning = record::tuning(words);
    let random = record::generator(words);
    let allowance = record::allowance(words);
    let scaled = scales::clock_rate_scale(mean, tuning, random, allowance);
    record_parameters::put_scaled(words, scaled)
}

// Up to the upper end in word 16.
#[tactic(auto, unfolding(crate::specs::Exports::call_left))]
pub fn rove_birth_difference_scale(words: &mut [u64]) -> u64
    ensures { written result words.new ≡ birth_difference_exported words.old }
{
    if !record::is_record(words) {
        return NO_RECORD;
    }
    let speciation = record_parameters::speciation(words);
    let upper = record::real_at(words, 16);
    let tuning = record::tuning(words);
    let random = record::generator(words);
    let allowance = record::allowance(words);
    let scaled = scales::birth_difference_scale(speciation, upper, tuning, random, allowance);
    record_parameters::put_scaled(words, scaled)
}

// Up to the upper end in word 16.
#[tactic(auto, unfolding(crate::specs::Exports::call_left))]
pub fn rove_birth_rate_scale(words: &mut [u64]) -> u64
    ensures { written result words.new ≡ birth_rate_exported words.old }
{
    if !record::is_record(words) {
        return NO_RECORD;
    }
    let speciation = record_parameters::speciation(words);
    let upper = record::real_at(words, 16);
    let tuning = record::tuning(words);
    let random = record::generator(words);
    let allowance = record::allowance(words);
    let scaled = scales::birth_rate_scale(speciation, upper, tuning, random, allowance);
    record_parameters::put_scaled(words, scaled)
}

#[tactic(auto, unfolding(crate::specs::Exports::call_left))]
pub fn rove_relative_death_scale(words: &mut [u64]) -> u64
    ensures { written result words.new ≡ relative_death_exported words.old }
{
    if !record::is_record(words) {
        return NO_RECORD;
    }
    let speciation = record_parameters::speciation(words);
    let tuning = record::tuning(words);
    let random = record::generator(words);
    let allowance = record::allowance(words);
    let scaled = scales::relative_death_scale(speciation, tuning, random, allowance);
    record_parameters::put_scaled(words, scaled)
}

// Of the sigma in word 14, if word 13 says that there is a clock.
#[tactic(auto, unfolding(crate::specs::Exports::call_left))]
pub fn rove_clock_sigma_scale(words: &mut [u64], rates: &[f64]) -> u64
    ensures { written result words.new ≡ clock_sigma_exported rates.now words.old }
{
    if !record::is_record(words) {
        return NO_RECORD;
    }
    let sigma = record_parameters::optional(words, 13, 14);
    let tuning = record::tuning(words);
    let random = record::generator(words);
    let allowance = record::allowance(words);
    let scaled = clocks::clock_sigma_scale(sigma, rates, tuning, random, allowance);
    record_parameters::put_scaled(words, scaled)
}

// Of one of the rates.
#[tactic(auto, unfolding(crate::specs::Exports::rates_left))]
pub fn rove_branch_rate_scale(words: &mut [u64], rates: &mut [f64]) -> u64
    ensures { lent (written result words.new) rates.new ≡ branch_rate_scale_exported rates.old words.old }
{
    if !record::is_record(words) {
        return NO_RECORD;
    }
    let sigma = record_parameters::optional(words, 13, 14);
    let tuning = record::tuning(words);
    let random = record::generator(words);
    let allowance = record::allowance(words);
    let scaled = clocks::branch_rate_scale(sigma, rates, tuning, random, allowance);
    record::put_proposal(words, scaled.proposal, scaled.random)
}

// A scale of one field of the process.
#[tactic(auto, unfolding(crate::specs::Exports::call_left))]
fn field_scale(field: Field, words: &mut [u64]) -> u64
    requires { 32 ≤ length words.old }
    ensures { written result words.new ≡ field_left field words.old }
{
    let priors = record_parameters::priors(words);
    let process = record_parameters::process(words);
    let offset = record::real_at(words, 29);
    let tuning = record::tuning(words);
    let random = record::generator(words);
    let allowance = record::allowance(words);
    let scaled = fields::fbd_scale(field, priors, process, offset, tuning, random, allowance);
    record_parameters::put_scaled(words, scaled)
}

// Of the field that word 6 names.
#[tactic(auto, unfolding(crate::specs::Exports::chosen_left))]
pub fn rove_fbd_scale(words: &mut [u64]) -> u64
    ensures { written result words.new ≡ fbd_exported words.old }
{
    if !record::is_record(words) {
        return NO_RECORD;
    }
    match record_parameters::chosen(words) {
        Some(field) => field_scale(field, words),
        None => record::put_refusal(words, Refusal::Parameter(0)),
    }
}

// ---- the clock: sigma in word 14

// Whether the rates are a clock.
pub fn rove_clock(words: &mut [u64], rates: &[f64]) -> u64
    ensures { written result words.new ≡ clock_exported rates.now words.old }
{
    if !record::is_record(words) {
        return NO_RECORD;
    }
    let verdict = rates::new(record::real_at(words, 14), rates);
    record::put_verdict(words, verdict)
}

// The rate of the branch of the node in word 6, with the root in word 4.
#[tactic(auto, unfolding(record_parameters::specs::Answers::rate_left))]
pub fn rove_branch_rate(words: &mut [u64], rates: &[f64]) -> u64
    ensures { written result words.new ≡ branch_rate_exported rates.now words.old }
{
    if !record::is_record(words) {
        return NO_RECORD;
    }
    let sigma = record::real_at(words, 14);
    let rate = rates::branch_rate(sigma, rates, record::node(words), record::root(words));
    record_parameters::put_asked(words, rate.map(real::to_bits))
}

// The new sigma is in word 15.
pub fn rove_set_sigma(words: &mut [u64], rates: &[f64]) -> u64
    ensures { written result words.new ≡ set_sigma_exported rates.now words.old }
{
    if !record::is_record(words) {
        return NO_RECORD;
    }
    let sigma = record::real_at(words, 14);
    let set = rates::set_sigma(sigma, rates, record::real_at(words, 15));
    record_parameters::put_sigma(words, set)
}

// The index is in word 6, and the new rate in word 15.
#[tactic(auto, unfolding(crate::specs::Exports::set_left, record_parameters::specs::Answers::stored_left))]
pub fn rove_set_rate(words: &mut [u64], rates: &mut [f64]) -> u64
    ensures { lent (written result words.new) rates.new ≡ set_rate_exported rates.old words.old }
{
    if !record::is_record(words) {
        return NO_RECORD;
    }
    let sigma = record::real_at(words, 14);
    let index = record::node(words);
    let new = record::real_at(words, 15);
    let stored = rates::set_rate(sigma, rates, index, new);
    record_parameters::put_asked(words, stored.map(u64::from))
}

// ---- priors and density

pub fn rove_validate_priors(words: &mut [u64]) -> u64
    ensures { written result words.new ≡ priors_exported words.old }
{
    if !record::is_record(words) {
        return NO_RECORD;
    }
    let verdict = record_parameters::priors(words).validate();
    record::put_verdict(words, verdict)
}

// At the rate in word 13.
pub fn rove_yule_log_density(
    words: &mut [u64],
    pairs: &[u16],
    parents: &[u16],
    heights: &[f64],
) -> u64
    ensures { written result words.new ≡ yule_exported pairs.now parents.now heights.now words.old }
{
    if !record::is_record(words) {
        return NO_RECORD;
    }
    let tree = Tree {
        pairs,
        parents,
        heights,
        root: record::root(words),
    };
    let density = speciation::yule_log_density(&tree, record::real_at(words, 13));
    record_parameters::put_density(words, density)
}

// ---- tip dating, with the ages of the tips in two slices

// The ages by themselves, for a tree of as many nodes as word 6 says.
pub fn rove_validate_ages(words: &mut [u64], minima: &[f64], maxima: &[f64]) -> u64
    ensures { written result words.new ≡ table_exported minima.now maxima.now words.old }
{
    if !record::is_record(words) {
        return NO_RECORD;
    }
    let nodes = record::node(words);
    let process = record_parameters::process(words);
    let verdict = ages::validate(minima, maxima, process, nodes);
    record::put_verdict(words, verdict)
}

#[tactic(auto, unfolding(crate::specs::Exports::initialized_left))]
pub fn rove_initialize(
    words: &mut [u64],
    pairs: &[u16],
    parents: &[u16],
    heights: &mut [f64],
    minima: &[f64],
    maxima: &[f64],
) -> u64
    ensures { lent (written result words.new) heights.new ≡ initialize_exported pairs.now parents.now heights.old minima.now maxima.now words.old }
{
    if !record::is_record(words) {
        return NO_RECORD;
    }
    let root = record::root(words);
    let process = record_parameters::process(words);
    let verdict = dating::initialize(pairs, parents, heights, root, minima, maxima, process);
    record::put_verdict(words, verdict)
}

#[tactic(auto, unfolding(crate::specs::Exports::aged_left))]
pub fn rove_propose_age(
    words: &mut [u64],
    pairs: &[u16],
    parents: &[u16],
    heights: &mut [f64],
    minima: &[f64],
    maxima: &[f64],
) -> u64
    ensures { lent (written result words.new) heights.new ≡ tip_age_exported pairs.now parents.now heights.old minima.now maxima.now words.old }
{
    if !record::is_record(words) {
        return NO_RECORD;
    }
    let root = record::root(words);
    let process = record_parameters::process(words);
    let random = record::generator(words);
    let allowance = record::allowance(words);
    let answered = dating::propose_age(
        pairs, parents, heights, root, minima, maxima, process, random, allowance,
    );
    record::put_answer(words, answered)
}

// ---- clades: a byte for each tip, not 0 where it is in the set

#[tactic(auto, unfolding(record_parameters::specs::Answers::monophyly_left))]
pub fn rove_is_monophyletic(
    words: &mut [u64],
    pairs: &[u16],
    parents: &[u16],
    heights: &[f64],
    members: &[u8],
) -> u64
    ensures { written result words.new ≡ monophyly_exported pairs.now parents.now heights.now members.now words.old }
{
    if !record::is_record(words) {
        return NO_RECORD;
    }
    let tree = Tree {
        pairs,
        parents,
        heights,
        root: record::root(words),
    };
    let monophyly = marks::is_monophyletic(&tree, members);
    record_parameters::put_asked(words, monophyly.map(u64::from))
}

#[tactic(auto, unfolding(record_parameters::specs::Answers::age_left))]
pub fn rove_clade_age(
    words: &mut [u64],
    pairs: &[u16],
    parents: &[u16],
    heights: &[f64],
    members: &[u8],
) -> u64
    ensures { written result words.new ≡ age_exported pairs.now parents.now heights.now members.now words.old }
{
    if !record::is_record(words) {
        return NO_RECORD;
    }
    let tree = Tree {
        pairs,
        parents,
        heights,
        root: record::root(words),
    };
    let age = marks::clade_age(&tree, members);
    record_parameters::put_asked(words, age)
}
