// The record of a call: a slice of 64-bit words in which a host hands a call its numbers and finds what it answers. specs/Record.antt gives the place
// and the form of each. A word that is not there reads as 0; what writes asks that the words are a record, which every call tests first, but for
// `put_unready`, which tests it. A type of its own around the words would need a clause about the reference in each function that takes it, so that it is no
// plainer. Assumes nothing.
#![tactic(auto)]

ghost use Rattle.std.specs.Prelude.{◌≡◌, ◌<◌, ◌≤◌, [], ◌∷◌, length, slice_set, to_bits};
ghost use Rattle.std.proofs.lemmas.List.Edits.{sets};
ghost use Rattle.std.specs.Float.{binary64};
ghost use Rattle.record.specs.Record.{is_record, is_ready, word_in, real_in, generator_in, root_in, allowance_in, node_in, tuning_in, given_in};
ghost use Rattle.record.specs.Record.{with_generator, with_root, with_node, moved_reply, given_reply, declined_reply, refused_reply, written, replied, unready, proposed, answered, judged};

use answer::{Answer, Proposal, Ratio, Refusal};
use calls::Answered;
use random::Random;

// The fewest words of a record.
const FEWEST: usize = 32;

// Where the numbers stand that a call reads, and the first of the five that it writes.
const ROOT: usize = 4;

const ALLOWANCE: usize = 5;

const NODE: usize = 6;

const TUNING: usize = 7;

const ANSWER: usize = 8;

const LARGEST_ALLOWANCE: u64 = 65535;

// The answer code of a record that is too short, which is not written.
pub const NO_RECORD: u64 = 3;

// What every call on a tree is given beside the tree's slices: the root, the generator and the allowance.
#[derive(Clone, Copy)]
pub struct Given {
    pub root: usize,
    pub random: Random,
    pub allowance: u32,
}

// Words 8 to 12: the answer code, the draws made, the kind and two values.
#[derive(Clone, Copy)]
pub struct Reply {
    pub code: u64,
    pub draws: u64,
    pub kind: u64,
    pub first: u64,
    pub second: u64,
}

pub fn is_record(words: &[u64]) -> bool
    ensures { result ≡ is_record words.now }
{
    FEWEST <= words.len()
}

// Whether the words are a record and its allowance is 1 to 65,535: one test of both, before a call that does not validate.
pub fn is_ready(words: &[u64]) -> bool
    ensures { result ≡ is_ready words.now }
{
    is_record(words) && 1 <= words[ALLOWANCE] && words[ALLOWANCE] <= LARGEST_ALLOWANCE
}

// ---- what a call reads

pub fn word(words: &[u64], k: usize) -> u64
    ensures { result ≡ word_in words.now k }
{
    words.get(k).copied().unwrap_or(0)
}

pub fn real_at(words: &[u64], k: usize) -> f64
    ensures { result ≡ real_in words.now k }
{
    real::of_bits(word(words, k))
}

pub fn generator(words: &[u64]) -> Random
    ensures { result ≡ generator_in words.now }
{
    Random::from_state([
        word(words, 0),
        word(words, 1),
        word(words, 2),
        word(words, 3),
    ])
}

pub fn root(words: &[u64]) -> usize
    ensures { result ≡ root_in words.now }
{
    word(words, ROOT) as usize
}

// A word that is too large for any allowance reads as 0, which is none either.
pub fn allowance(words: &[u64]) -> u32
    ensures { result ≡ allowance_in words.now }
{
    let given = word(words, ALLOWANCE);
    if given <= LARGEST_ALLOWANCE {
        given as u32
    } else {
        0
    }
}

pub fn node(words: &[u64]) -> usize
    ensures { result ≡ node_in words.now }
{
    word(words, NODE) as usize
}

pub fn tuning(words: &[u64]) -> f64
    ensures { result ≡ tuning_in words.now }
{
    real_at(words, TUNING)
}

pub fn read(words: &[u64]) -> Given
    ensures { result ≡ given_in words.now }
{
    Given {
        root: root(words),
        random: generator(words),
        allowance: allowance(words),
    }
}

// ---- what a call writes

pub fn put_real(words: &mut [u64], k: usize, x: f64)
    requires { k < length words.old }
    ensures { words.new ≡ slice_set words.old k (to_bits binary64 x) }
{
    words[k] = real::to_bits(x);
}

// Words 0 to 3.
#[tactic(auto, using(crate::proofs::WordLaws::word_laws))]
pub fn put_generator(words: &mut [u64], random: Random)
    requires { 32 ≤ length words.old }
    ensures { words.new ≡ with_generator random words.old }
{
    words[..4].copy_from_slice(&random.state());
}

pub fn put_root(words: &mut [u64], root: usize)
    requires { 32 ≤ length words.old }
    ensures { words.new ≡ with_root root words.old }
{
    words[ROOT] = root as u64;
}

pub fn put_node(words: &mut [u64], node: usize)
    requires { 32 ≤ length words.old }
    ensures { words.new ≡ with_node node words.old }
{
    words[NODE] = node as u64;
}

// Words 8 to 12; the answer code.
pub fn put_reply(words: &mut [u64], reply: Reply) -> u64
    requires { 32 ≤ length words.old }
    ensures { written result words.new ≡ replied reply words.old }
{
    let five = [
        reply.code,
        reply.draws,
        reply.kind,
        reply.first,
        reply.second,
    ];
    words[ANSWER..ANSWER + 5].copy_from_slice(&five);
    reply.code
}

// The reply of a move that was made. An exponent stands in two's complement.
fn moved(draws: u32, ratio: Ratio) -> Reply
    ensures { result ≡ moved_reply draws ratio }
{
    let (kind, first, second) = match ratio {
        Ratio::Even => (0, 1, 1),
        Ratio::Counts(a, b) => (1, a as u64, b as u64),
        Ratio::Lengths(a, b) => (2, real::to_bits(a), real::to_bits(b)),
        Ratio::Power(f, k) => (3, real::to_bits(f), i64::from(k).cast_unsigned()),
    };
    Reply {
        code: 0,
        draws: u64::from(draws),
        kind,
        first,
        second,
    }
}

// Code 0 with two values, of a call whose answer has no ratio.
pub fn put_given(words: &mut [u64], draws: u32, first: u64, second: u64) -> u64
    requires { 32 ≤ length words.old }
    ensures { written result words.new ≡ replied (given_reply draws first second) words.old }
{
    put_reply(
        words,
        Reply {
            code: 0,
            draws: u64::from(draws),
            kind: 0,
            first,
            second,
        },
    )
}

// Code 1.
pub fn put_declined(words: &mut [u64], draws: u32) -> u64
    requires { 32 ≤ length words.old }
    ensures { written result words.new ≡ replied (declined_reply draws) words.old }
{
    put_reply(
        words,
        Reply {
            code: 1,
            draws: u64::from(draws),
            kind: 0,
            first: 0,
            second: 0,
        },
    )
}

// Code 2.
pub fn put_refusal(words: &mut [u64], why: Refusal) -> u64
    requires { 32 ≤ length words.old }
    ensures { written result words.new ≡ replied (refused_reply why) words.old }
{
    put_reply(
        words,
        Reply {
            code: 2,
            draws: 0,
            kind: u64::from(why.number()),
            first: why.detail() as u64,
            second: 0,
        },
    )
}

// What a call that is not ready answers.
#[tactic(auto, using(crate::specs::RoomLaws::room_laws), unfolding(crate::specs::Record::unready))]
pub fn put_unready(words: &mut [u64]) -> u64
    ensures { written result words.new ≡ unready words.old }
{
    if is_record(words) {
        put_refusal(words, Refusal::Parameter(0))
    } else {
        NO_RECORD
    }
}

// What a call on parameters answers.
#[tactic(auto, unfolding(crate::specs::Record::proposed))]
pub fn put_proposal(words: &mut [u64], proposal: Proposal, random: Random) -> u64
    requires { 32 ≤ length words.old }
    ensures { written result words.new ≡ proposed proposal random words.old }
{
    match proposal {
        Proposal::Scaled(draws, ratio) => {
            put_generator(words, random);
            put_reply(words, moved(draws, ratio))
        }
        Proposal::Declined(draws) => {
            put_generator(words, random);
            put_declined(words, draws)
        }
        Proposal::Refused(why) => put_refusal(words, why),
    }
}

// What a tree move answers.
#[tactic(auto, unfolding(crate::specs::Record::answered))]
pub fn put_answer(words: &mut [u64], a: Answered) -> u64
    requires { 32 ≤ length words.old }
    ensures { written result words.new ≡ answered a.answer a.random words.old }
{
    let proposal = match a.answer {
        Answer::Moved(moved) => {
            put_root(words, moved.root);
            Proposal::Scaled(moved.draws, moved.ratio)
        }
        Answer::Declined(draws) => Proposal::Declined(draws),
        Answer::Refused(why) => Proposal::Refused(why),
    };
    put_proposal(words, proposal, a.random)
}

// What a check answers, which makes no draws.
#[tactic(auto, unfolding(crate::specs::Record::judged))]
pub fn put_verdict(words: &mut [u64], verdict: Result<(), Refusal>) -> u64
    requires { 32 ≤ length words.old }
    ensures { written result words.new ≡ judged verdict words.old }
{
    match verdict {
        Ok(()) => put_given(words, 0, 0, 0),
        Err(why) => put_refusal(words, why),
    }
}
