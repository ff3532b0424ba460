// The functions that C and Rust hosts call for single values of the port: a uniform and a coin, the factor of a scale, the table of moves, whether a move's
// parameter is estimated, and the lengths of branches. Each takes the words of a record (crate record) and then its slices, and returns the answer code:
// 0 done, 1 declined, 2 refused, 3 where there are not enough words for a record, which changes nothing. None has a `requires`. Crate rove_values_c exports them,
// and include/rove.h declares them for C. Assumes nothing.
#![tactic(auto)]

ghost use Rattle.std.specs.Prelude.{◌≡◌, ◌≤◌, length};
ghost use Rattle.record.specs.Record.{written};
ghost use Rattle.rove_values.specs.Exports.{move_in, flag_left, tuning_left, quantity_left, uniform_exported, coin_exported, scaler_exported, initial_tuning_exported};
ghost use Rattle.rove_values.specs.Exports.{changes_fbd_exported, changes_tree_exported, changes_topology_exported, estimates_exported, branch_length_exported, tree_length_exported};

use answer::Refusal;
use kinds::Move;
use record::NO_RECORD;

// The moves by their numbers, in the Rust's order.
const MOVES: [Move; 25] = [
    Move::FbdBirthScale,
    Move::FbdDeathScale,
    Move::FbdSamplingScale,
    Move::FbdRhoLogit,
    Move::FbdOriginScale,
    Move::TipAge,
    Move::ClockRateScale,
    Move::NodeHeight,
    Move::SubtreeSlide,
    Move::NarrowExchange,
    Move::WideExchange,
    Move::WilsonBalding,
    Move::RootScale,
    Move::TreeScale,
    Move::BirthDifferenceScale,
    Move::RelativeDeathScale,
    Move::GammaShapeScale,
    Move::ClockSigmaScale,
    Move::BranchRateScale,
    Move::NodeTimeRates,
    Move::RootTimeRates,
    Move::ClockSigmaRates,
    Move::NarrowExchangeRates,
    Move::BirthRateScale,
    Move::MorphologyRateScale,
];

// ---- the generator

// One draw, as a float on [0, 1).
#[tactic(auto, unfolding(crate::specs::Exports::uniform_exported))]
pub fn rove_uniform(words: &mut [u64]) -> u64
    ensures { written result words.new ≡ uniform_exported words.old }
{
    if !record::is_record(words) {
        return NO_RECORD;
    }
    let (value, random) = record::generator(words).uniform();
    record::put_generator(words, random);
    record::put_given(words, 1, real::to_bits(value), 0)
}

// One draw, as a side, 1 being the first.
#[tactic(auto, unfolding(crate::specs::Exports::coin_exported))]
pub fn rove_coin(words: &mut [u64]) -> u64
    ensures { written result words.new ≡ coin_exported words.old }
{
    if !record::is_record(words) {
        return NO_RECORD;
    }
    let (first, random) = record::generator(words).coin();
    record::put_generator(words, random);
    record::put_given(words, 1, u64::from(first), 0)
}

// The factor of the tuning in word 7 and the uniform in word 13.
pub fn rove_scaler(words: &mut [u64]) -> u64
    ensures { written result words.new ≡ scaler_exported words.old }
{
    if !record::is_record(words) {
        return NO_RECORD;
    }
    let factor = calls::scaler(record::tuning(words), record::real_at(words, 13));
    record::put_given(words, 0, real::to_bits(factor), 0)
}

// ---- the table of moves

// The move that word 6 names.
#[tactic(auto, unfolding(crate::specs::Exports::move_in))]
fn move_named(words: &[u64]) -> Option<Move>
    ensures { result ≡ move_in words.now }
{
    MOVES.get(record::node(words)).copied()
}

fn put_flag(words: &mut [u64], holds: bool) -> u64
    requires { 32 ≤ length words.old }
    ensures { written result words.new ≡ flag_left holds words.old }
{
    record::put_given(words, 0, u64::from(holds), 0)
}

#[tactic(auto, unfolding(crate::specs::Exports::tuning_left))]
fn put_tuning(words: &mut [u64], tuning: Option<f64>) -> u64
    requires { 32 ≤ length words.old }
    ensures { written result words.new ≡ tuning_left tuning words.old }
{
    match tuning {
        Some(x) => record::put_given(words, 0, real::to_bits(x), 0),
        None => record::put_declined(words, 0),
    }
}

// The tuning that the move starts with; declined for a move that has none.
#[tactic(auto, unfolding(crate::specs::Exports::named_left))]
pub fn rove_initial_tuning(words: &mut [u64]) -> u64
    ensures { written result words.new ≡ initial_tuning_exported words.old }
{
    if !record::is_record(words) {
        return NO_RECORD;
    }
    let Some(kind) = move_named(words) else {
        return record::put_refusal(words, Refusal::Parameter(0));
    };
    put_tuning(words, kind.initial_tuning())
}

#[tactic(auto, unfolding(crate::specs::Exports::named_left))]
pub fn rove_changes_fbd(words: &mut [u64]) -> u64
    ensures { written result words.new ≡ changes_fbd_exported words.old }
{
    if !record::is_record(words) {
        return NO_RECORD;
    }
    let Some(kind) = move_named(words) else {
        return record::put_refusal(words, Refusal::Parameter(0));
    };
    put_flag(words, kind.changes_fbd())
}

#[tactic(auto, unfolding(crate::specs::Exports::named_left))]
pub fn rove_changes_tree(words: &mut [u64]) -> u64
    ensures { written result words.new ≡ changes_tree_exported words.old }
{
    if !record::is_record(words) {
        return NO_RECORD;
    }
    let Some(kind) = move_named(words) else {
        return record::put_refusal(words, Refusal::Parameter(0));
    };
    put_flag(words, kind.changes_tree())
}

#[tactic(auto, unfolding(crate::specs::Exports::named_left))]
pub fn rove_changes_topology(words: &mut [u64]) -> u64
    ensures { written result words.new ≡ changes_topology_exported words.old }
{
    if !record::is_record(words) {
        return NO_RECORD;
    }
    let Some(kind) = move_named(words) else {
        return record::put_refusal(words, Refusal::Parameter(0));
    };
    put_flag(words, kind.changes_topology())
}

// Whether the priors in words 18 to 28 estimate what the move changes.
#[tactic(auto, unfolding(crate::specs::Exports::named_left))]
pub fn rove_estimates(words: &mut [u64]) -> u64
    ensures { written result words.new ≡ estimates_exported words.old }
{
    if !record::is_record(words) {
        return NO_RECORD;
    }
    let Some(kind) = move_named(words) else {
        return record::put_refusal(words, Refusal::Parameter(0));
    };
    let priors = record_parameters::priors(words);
    put_flag(words, priors.estimates(kind))
}

// ---- lengths, which look at nothing else of a tree

#[tactic(auto, unfolding(crate::specs::Exports::quantity_left))]
fn put_quantity(words: &mut [u64], quantity: Result<f64, Refusal>) -> u64
    requires { 32 ≤ length words.old }
    ensures { written result words.new ≡ quantity_left quantity words.old }
{
    record_parameters::put_asked(words, quantity.map(real::to_bits))
}

// Of the branch above the node in word 6.
pub fn rove_branch_length(words: &mut [u64], parents: &[u16], heights: &[f64]) -> u64
    ensures { written result words.new ≡ branch_length_exported parents.now heights.now words.old }
{
    if !record::is_record(words) {
        return NO_RECORD;
    }
    let length = nodes::branch_length(parents, heights, record::node(words));
    put_quantity(words, length)
}

pub fn rove_tree_length(words: &mut [u64], parents: &[u16], heights: &[f64]) -> u64
    ensures { written result words.new ≡ tree_length_exported parents.now heights.now words.old }
{
    if !record::is_record(words) {
        return NO_RECORD;
    }
    put_quantity(words, nodes::tree_length(parents, heights))
}
