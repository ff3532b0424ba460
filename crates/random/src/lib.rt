// The generator, xoshiro256++ seeded through SplitMix64, and its draws: the port of rove's random.rs without `normal` and `exponential`.
// A generator goes in by value and comes back by value. Its words are private, so that the other crates use it through its methods alone.
// Assumes nothing.
#![tactic(auto)]

ghost use Rattle.std.specs.Prelude.{◌≡◌, ◌+◌, ◌/◌, ◌%◌, ◌^◌, ◌<◌, ◌&&◌, pos};
ghost use Rattle.std.specs.Float.{binary64};
ghost use Rattle.std.specs.Float.Ieee.{of_int};
ghost use Rattle.random.specs.SplitMix.{advance, mix};
ghost use Rattle.random.specs.Generator.{state_of, from_state, seeded, uniform_of, drawn_word, drawn_uniform, drawn_coin};
ghost use Rattle.random.specs.Draw.{below, below_other, uniform, coin, fair_low, pick, run, countable, allowed, drawn};
ghost use Rattle.random.specs.BelowCall.{below_call};

use answer::Refusal;
use words::{rotate_left, wide_mul, wrapping_mul};

// The largest n of `below` is 2^32, the largest allowance 65,535.
const LARGEST_N: usize = 0x1_0000_0000;

const LARGEST_ALLOWANCE: u32 = 65535;

// The bits of 2^52, whose last places count 1.
const TWO_TO_52_BITS: u64 = 0x4330_0000_0000_0000;

// 2^-53.
const TWO_TO_MINUS_53: f64 = 1.1102230246251565e-16;

// The generator. All four words may be zero.
#[derive(Clone, Copy)]
pub struct Random {
    state: [u64; 4],
}

// The seed mixer's next state.
#[tactic(auto, unfolding(crate::specs::SplitMix::advance))]
fn advanced(x: u64) -> u64
    ensures { result ≡ advance x }
{
    x.wrapping_add(0x9e37_79b9_7f4a_7c15)
}

// The seed mixer's output at a state.
fn mixed(x: u64) -> u64
    ensures { result ≡ mix x }
{
    let y = wrapping_mul(x ^ (x >> 30), 0xbf58_476d_1ce4_e5b9);
    let z = wrapping_mul(y ^ (y >> 27), 0x94d0_49bb_1331_11eb);
    z ^ (z >> 31)
}

// A draw's top 53 bits as a float, exactly: the lower 52 are put into the last places of 2^52, and 2^52 is taken off where the top bit is 0. Where it is
// 1, that 2^52 is its own. A cast of the bits would wait for whatever its register held before, as the compiler casts.
#[tactic(auto, using(crate::proofs::UnitLaws::unit_laws))]
fn numerator(w: u64) -> f64
    ensures { result ≡ of_int binary64 (pos (w / 2 ^ 11)) }
{
    let raised = f64::from_bits(TWO_TO_52_BITS + ((w << 1) >> 12));
    let excess = f64::from_bits(TWO_TO_52_BITS * (1 - (w >> 63)));
    raised - excess
}

// A draw's top 53 bits over 2^53, by a product: nothing divides.
#[tactic(auto, using(crate::proofs::UnitLaws::unit_laws))]
fn unit(w: u64) -> f64
    ensures { result ≡ uniform_of w }
{
    numerator(w) * TWO_TO_MINUS_53
}

impl Random {
    pub fn new(seed: u64) -> Self
        ensures { result ≡ seeded seed }
    {
        let a = advanced(seed);
        let b = advanced(a);
        let c = advanced(b);
        let d = advanced(c);
        Random {
            state: [mixed(a), mixed(b), mixed(c), mixed(d)],
        }
    }

    pub fn state(self) -> [u64; 4]
        ensures { result ≡ state_of self }
    {
        self.state
    }

    // Any four words, all zero too, where the Rust has no generator of four zeros.
    pub fn from_state(state: [u64; 4]) -> Self
        ensures { result ≡ from_state state }
    {
        Random { state }
    }

    // The next word, and the generator after it.
    #[tactic(auto, using(crate::proofs::StepLaws::step_laws))]
    pub fn next_u64(self) -> (u64, Random)
        ensures { result ≡ drawn_word self }
    {
        let [s0, s1, s2, s3] = self.state;
        let word = rotate_left(s0.wrapping_add(s3), 23).wrapping_add(s0);
        let t = s1 << 17;
        let u2 = s2 ^ s0;
        let u3 = s3 ^ s1;
        let state = [s0 ^ u3, s1 ^ u2, u2 ^ t, rotate_left(u3, 45)];
        (word, Random { state })
    }

    // Uniform on [0, 1), from the top 53 bits.
    pub fn uniform(self) -> (f64, Random)
        ensures { result ≡ drawn_uniform self }
    {
        let (word, random) = self.next_u64();
        (unit(word), random)
    }

    // A side, true being the first.
    #[tactic(auto, unfolding(crate::specs::Generator::first_side))]
    pub fn coin(self) -> (bool, Random)
        ensures { result ≡ drawn_coin self }
    {
        let (word, random) = self.next_u64();
        (word >> 63 == 1, random)
    }

    // Uniform on 0..n by at most `allowance` draws, without modulo bias (Lemire, 2019); with the number, the draws made.
    // An n outside 1 to 2^32 or an allowance outside 1 to 65,535 is refused before any draw. After a refusal, the generator is as it came.
    #[tactic(auto, using(crate::proofs::CallLaws::call_laws))]
    pub fn below(self, n: usize, allowance: u32) -> (Result<(usize, u32), Refusal>, Random)
        ensures { result ≡ below_call self n allowance }
    {
        if !(is_countable(n) && is_allowed(allowance)) {
            return (Err(Refusal::Parameter(0)), self);
        }
        let supply = Supply {
            random: self,
            left: allowance,
        };
        match supply.below(n) {
            Some((k, after)) => (Ok((k, allowance - after.left)), after.random),
            None => (Err(Refusal::Allowance(allowance)), self),
        }
    }
}

// Whether a call may be given this allowance.
pub fn is_allowed(allowance: u32) -> bool
    ensures { result ≡ allowed allowance }
{
    1 <= allowance && allowance <= LARGEST_ALLOWANCE
}

fn is_countable(n: usize) -> bool
    ensures { result ≡ countable n }
{
    1 <= n && n <= LARGEST_N
}

// 2^64 mod n: one more than the remainder of 2^64 - 1, which the compiler works out where it is needed and not before.
#[tactic(auto, using(crate::proofs::BelowLaws::threshold_laws))]
fn threshold(n: u64) -> u64
    requires { 0 < n }
    ensures { result ≡ 2 ^ 64 % n }
{
    let below = u64::MAX % n;
    if below + 1 == n { 0 } else { below + 1 }
}

// Whether a number below n may be taken that has this low word. The remainder, which is below n, is worked out only where it can matter.
#[tactic(auto, using(crate::proofs::BelowLaws::fair_laws))]
fn is_fair(low: u64, n: u64) -> bool
    ensures { result ≡ fair_low n low }
{
    1 <= n && (n <= low || threshold(n) <= low)
}

// A generator with the draws that are left to it, handed from draw to draw within a call. The draws made are those allowed less those left.
// A draw hands back its value and the supply after it, or nothing where more draws are needed than are left.
#[derive(Clone, Copy)]
pub struct Supply {
    pub random: Random,
    pub left: u32,
}

impl Supply {
    // Below 0 there is no number, so that the draws are spent.
    #[tactic(auto, using(crate::proofs::BelowLaws::below_laws))]
    pub fn below(self, n: usize) -> Option<(usize, Supply)>
        ensures { result ≡ drawn (pick (below n) self) }
    {
        let mut random = self.random;
        for left in (0..self.left).rev() {
            let (word, after) = random.next_u64();
            random = after;
            let p = wide_mul(word, n as u64);
            if is_fair(p.low, n as u64) {
                return Some((p.high as usize, Supply { random, left }));
            }
        }
        None
    }

    // A number that is `base` more than one below n, drawn again while it is `other`: one loop for both reasons to draw again.
    #[tactic(auto, using(crate::proofs::BelowLaws::other_laws))]
    pub fn below_other(self, n: usize, base: usize, other: usize) -> Option<(usize, Supply)>
        requires { base + n < 2 ^ 64 }
        ensures { result ≡ drawn (pick (below_other n base other) self) }
    {
        let mut random = self.random;
        for left in (0..self.left).rev() {
            let (word, after) = random.next_u64();
            random = after;
            let p = wide_mul(word, n as u64);
            if is_fair(p.low, n as u64) {
                let value = base + p.high as usize;
                if value != other {
                    return Some((value, Supply { random, left }));
                }
            }
        }
        None
    }

    // Uniform on [0, 1).
    #[tactic(auto, using(crate::proofs::TakenLaws::taken_laws))]
    pub fn uniform(self) -> Option<(f64, Supply)>
        ensures { result ≡ drawn (run uniform self) }
    {
        let left = self.left.checked_sub(1)?;
        let (u, random) = self.random.uniform();
        Some((u, Supply { random, left }))
    }

    // A side, true being the first.
    #[tactic(auto, using(crate::proofs::TakenLaws::taken_laws))]
    pub fn coin(self) -> Option<(bool, Supply)>
        ensures { result ≡ drawn (run coin self) }
    {
        let left = self.left.checked_sub(1)?;
        let (first, random) = self.random.coin();
        Some((first, Supply { random, left }))
    }
}
