// What the programs give to the calls: trees, floats at the limits and generators. Assumes nothing.
#![tactic(auto)]

use random::Random;
use std::fmt;

// No node: twice for a tip's children, once for the root's parent.
pub const NONE: u16 = 65535;

// Tree F of document 01, the client's scope paper: 3 = (0, 1) at 1, 4 = (3, 2) at 2, tips at 0.
pub const F_PAIRS: [u16; 10] = [NONE, NONE, NONE, NONE, NONE, NONE, 0, 1, 3, 2];

pub const F_HEIGHTS: [f64; 5] = [0.0, 0.0, 0.0, 1.0, 2.0];

pub const F_PARENTS: [u16; 5] = [3, 3, 4, 4, NONE];

// The least float over 0.
pub const SMALLEST: f64 = f64::from_bits(1);

// The least float over 1, and the greatest under it.
pub const OVER_ONE: f64 = 1.0 + f64::EPSILON;

pub const UNDER_ONE: f64 = 1.0 - f64::EPSILON / 2.0;

// Just under the least tuning.
pub const UNDER_TUNING: f64 = f64::from_bits(0x3e45_798e_e230_8c39);

// The number of a node, where it has one.
fn node(k: usize) -> Option<u16> {
    match u16::try_from(k) {
        Ok(number) if number != NONE => Some(number),
        _ => None,
    }
}

// Each node after the tips has the one before it and a tip, where these are nodes.
pub fn put_comb(pairs: &mut [u16]) {
    let tips = pairs.len() / 4 + 1;
    let mut below = 0;
    for (k, pair) in pairs.chunks_exact_mut(2).enumerate().skip(tips) {
        if let (Some(a), Some(b)) = (node(below), node(k - tips + 1)) {
            pair[0] = a;
            pair[1] = b;
        }
        below = k;
    }
}

// Each node after the tips has two nodes in a row, where these are nodes, so that the tree is as flat as can be.
pub fn put_flat(pairs: &mut [u16]) {
    let tips = pairs.len() / 4 + 1;
    for (i, pair) in pairs.chunks_exact_mut(2).skip(tips).enumerate() {
        if let (Some(a), Some(b)) = (node(2 * i), node(2 * i + 1)) {
            pair[0] = a;
            pair[1] = b;
        }
    }
}

// Each node after the tips is one higher than the one before it.
pub fn put_heights(heights: &mut [f64]) {
    let tips = heights.len() / 2 + 1;
    let mut height = 0.0;
    for x in heights.iter_mut().skip(tips) {
        height += 1.0;
        *x = height;
    }
}

// A generator by its four words, or by the seed of which they are made.
#[derive(Clone, Copy)]
pub enum Generator {
    Words([u64; 4]),
    Seed(u64),
}

// Document 01's example.
pub const START: Generator = Generator::Words([1, 2, 3, 4]);

// Of these the first draw is just over a half, 0, and all 1s.
pub const UPPER: Generator = Generator::Words([0x8000_0000_0000_0000, 3, 5, 7]);

pub const ZERO: Generator = Generator::Words([0, 1, 2, 0]);

pub const FULL: Generator = Generator::Words([0, 1, 2, 0xffff_ffff_ffff_ffff]);

// The second draw is 0, and all draws are.
pub const THEN_ZERO: Generator = Generator::Words([0, 1, 5, 1]);

pub const ZEROS: Generator = Generator::Words([0, 0, 0, 0]);

impl Generator {
    pub fn random(self) -> Random {
        match self {
            Generator::Words(words) => Random::from_state(words),
            Generator::Seed(seed) => Random::new(seed),
        }
    }
}

impl fmt::Display for Generator {
    fn fmt<W: fmt::Write>(&self, f: &mut fmt::Formatter<W>) -> fmt::Result {
        match *self {
            Generator::Words(words) => {
                let [a, b, c, d] = words;
                write!(f, "words {a},{b},{c},{d}")
            }
            Generator::Seed(seed) => write!(f, "seed {seed}"),
        }
    }
}
