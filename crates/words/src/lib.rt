// Operations on 64-bit words: the low and the high word of a product, and rotation. Each contract is exact and holds for all words.
// Assumes nothing.
#![tactic(auto)]

ghost use Rattle.std.specs.Prelude.{◌≡◌, ◌*◌, ◌/◌, ◌%◌, ◌^◌};
ghost use Rattle.words.specs.Words.{rotl, two_words};

// A number of two words.
#[derive(Clone, Copy)]
pub struct Wide {
    pub high: u64,
    pub low: u64,
}

// The low word of a * b.
pub fn wrapping_mul(a: u64, b: u64) -> u64
    ensures { result ≡ a * b % 2 ^ 64 }
{
    a.wrapping_mul(b)
}

// The high word of a * b.
pub fn high_mul(a: u64, b: u64) -> u64
    ensures { result ≡ a * b / 2 ^ 64 }
{
    ((a as u128 * b as u128) >> 64) as u64
}

// The whole of a * b.
pub fn wide_mul(a: u64, b: u64) -> Wide
    ensures { result ≡ two_words (a * b) }
{
    Wide {
        high: high_mul(a, b),
        low: wrapping_mul(a, b),
    }
}

// x rotated left by n places, any n counting modulo 64, as in the Rust.
pub fn rotate_left(x: u64, n: u32) -> u64
    ensures { result ≡ rotl x (n % 64) }
{
    x.rotate_left(n)
}
