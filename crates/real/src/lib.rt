// Floats as far as trees and parameters need them: whether one is finite, positive or not negative, the larger and the smaller of two, the
// bits in and out, and the age that is printed. No public function has a `requires`. Assumes nothing.
#![tactic(auto)]

ghost use Rattle.std.specs.Prelude.{◌≡◌};
ghost use Rattle.std.specs.Float.{binary64};
ghost use Rattle.std.specs.Float.Ieee.{of_bits, to_bits};
ghost use Rattle.std.specs.Float.Ieee.Scale.{finite};
ghost use Rattle.real.specs.Real.{max_of, min_of, positive, is_not_negative};
ghost use Rattle.real.specs.Printed.{Printable, thousandths_of, printed_of};

// The bit of a float's sign, above all others.
const SIGN_BIT: u64 = 0x8000_0000_0000_0000;

// The bit above a float's digits, which is theirs too: the field of the exponent begins at it.
const LEADING_BIT: u64 = 0x10_0000_0000_0000;

// The bits of infinity. Those above, up to the sign's bit, are a NaN's.
const INFINITY_BITS: u64 = 0x7ff0_0000_0000_0000;

// The bits that are written for a NaN, whatever its own are.
const NAN_BITS: u64 = 0x7ff8_0000_0000_0000;

// 2^43, the first age that is not printed.
const PRINT_LIMIT: f64 = 8796093022208.0;

// Neither a NaN nor an infinity.
#[tactic(auto, using(crate::specs::NumberLaws::finite_is))]
pub fn is_finite(x: f64) -> bool
    ensures { result ≡ finite x }
{
    x.is_finite()
}

pub fn is_positive(x: f64) -> bool
    ensures { result ≡ positive x }
{
    0.0 < x && is_finite(x)
}

// Zero may have either sign.
pub fn is_not_negative(x: f64) -> bool
    ensures { result ≡ is_not_negative x }
{
    0.0 <= x && is_finite(x)
}

// The larger by value, and a where they are equal.
pub fn max(a: f64, b: f64) -> f64
    ensures { result ≡ max_of a b }
{
    if a < b { b } else { a }
}

// The smaller by value, and a where they are equal.
pub fn min(a: f64, b: f64) -> f64
    ensures { result ≡ min_of a b }
{
    if b < a { b } else { a }
}

// The float of a pattern. A NaN's pattern is not read: every one of them gives the one NaN.
#[tactic(auto, using(crate::specs::NumberLaws::nan_is, crate::proofs::BitsLaws::bits_laws))]
pub fn of_bits(n: u64) -> f64
    ensures { result ≡ of_bits binary64 n }
{
    if INFINITY_BITS < n % SIGN_BIT {
        f64::NAN
    } else {
        f64::from_bits(n)
    }
}

// The pattern of a float, one and the same for every NaN.
#[tactic(auto, using(crate::proofs::BitsLaws::bits_laws))]
pub fn to_bits(x: f64) -> u64
    ensures { result ≡ to_bits binary64 x }
{
    if x.is_nan() { NAN_BITS } else { x.to_bits() }
}

// In whole thousandths, the rest dropped, exactly: the digits of x times 1000, shifted by the exponent. Where the exponent's field is 0 or
// the shift leaves no digit, x is below a thousandth.
#[tactic(auto, using(crate::proofs::ThousandthsLaws::thousandths_laws))]
fn thousandths(x: f64) -> u64
    requires { Printable x }
    ensures { result ≡ thousandths_of x }
{
    let n = to_bits(x);
    let field = n % SIGN_BIT / LEADING_BIT;
    if field == 0 {
        return 0;
    }
    let digits = LEADING_BIT + n % LEADING_BIT;
    let shift = 1075 - field;
    if 64 <= shift {
        return 0;
    }
    (digits * 1000) >> shift
}

// The age as it is printed, below the limit. Zero may have either sign.
#[tactic(auto, using(crate::proofs::ThousandthsLaws::thousandths_laws))]
pub fn print_age(x: f64) -> Option<u64>
    ensures { result ≡ printed_of x }
{
    if 0.0 <= x && x < PRINT_LIMIT {
        Some(thousandths(x))
    } else {
        None
    }
}
