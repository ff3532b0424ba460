// The values and the lines of an answer's text, written into a lent slice from a place on as the crate print writes, and how long some of them are. Every
// function that writes is total. Assumes nothing.
#![tactic(auto)]

ghost use Rattle.std.specs.Prelude.{◌≡◌, ◌≤◌, length};
ghost use Rattle.text.specs.Text.{word_text, decimal_text};
ghost use Rattle.print.specs.Writing.{written, write};
ghost use Rattle.notation.specs.Notation.{line, comma, bits_text, signed_text, state_text, ratio_text, pair_line, pairs_text, height_line, heights_text};

use answer::Ratio;
use print::{decimal_len, put_byte, put_decimal, put_text, put_word};

// ---- values

// Two numbers with a comma between them.
#[tactic(auto, using(crate::proofs::PutLaws::value_laws))]
pub fn put_numbers(out: &mut [u8], at: usize, a: u64, b: u64) -> usize
    ensures { written out.new result ≡ write (written out.old at) (comma (decimal_text a) (decimal_text b)) }
{
    let first = put_decimal(out, at, a);
    let second = put_byte(out, first, b',');
    put_decimal(out, second, b)
}

// Two words in the same way.
#[tactic(auto, using(crate::proofs::PutLaws::value_laws))]
fn put_words(out: &mut [u8], at: usize, a: u64, b: u64) -> usize
    ensures { written out.new result ≡ write (written out.old at) (comma (word_text a) (word_text b)) }
{
    let first = put_word(out, at, a);
    let second = put_byte(out, first, b',');
    put_word(out, second, b)
}

// The words of a generator.
#[tactic(auto, using(crate::proofs::PutLaws::value_laws))]
pub fn put_state(out: &mut [u8], at: usize, state: [u64; 4]) -> usize
    ensures { written out.new result ≡ write (written out.old at) (state_text state) }
{
    let half = put_words(out, at, state[0], state[1]);
    let rest = put_byte(out, half, b',');
    put_words(out, rest, state[2], state[3])
}

// A number with its sign.
#[tactic(auto, using(crate::proofs::PutLaws::signed_laws))]
fn put_signed(out: &mut [u8], at: usize, k: i32) -> usize
    ensures { written out.new result ≡ write (written out.old at) (signed_text k) }
{
    let magnitude = u64::from(k.unsigned_abs());
    if k < 0 {
        let digits = put_byte(out, at, b'-');
        put_decimal(out, digits, magnitude)
    } else {
        put_decimal(out, at, magnitude)
    }
}

// A float by its bits, a comma, and a number.
#[tactic(auto, using(crate::proofs::PutLaws::value_laws))]
fn put_power(out: &mut [u8], at: usize, f: f64, k: i32) -> usize
    ensures { written out.new result ≡ write (written out.old at) (comma (bits_text f) (signed_text k)) }
{
    let first = put_word(out, at, real::to_bits(f));
    let second = put_byte(out, first, b',');
    put_signed(out, second, k)
}

#[tactic(auto, using(crate::proofs::PutLaws::ratio_laws))]
pub fn put_ratio(out: &mut [u8], at: usize, ratio: Ratio) -> usize
    ensures { written out.new result ≡ write (written out.old at) (ratio_text ratio) }
{
    match ratio {
        Ratio::Even => put_text(out, at, b"even"),
        Ratio::Counts(a, b) => {
            let values = put_text(out, at, b"counts,");
            put_numbers(out, values, a as u64, b as u64)
        }
        Ratio::Lengths(a, b) => {
            let values = put_text(out, at, b"lengths,");
            put_words(out, values, real::to_bits(a), real::to_bits(b))
        }
        Ratio::Power(f, k) => {
            let values = put_text(out, at, b"power,");
            put_power(out, values, f, k)
        }
    }
}

// ---- lines

// A key with a number.
#[tactic(auto, using(crate::proofs::PutLaws::value_laws))]
pub fn put_number(out: &mut [u8], at: usize, key: &[u8], n: u64) -> usize
    ensures { written out.new result ≡ write (written out.old at) (line key.now (decimal_text n)) }
{
    let value = put_text(out, at, key);
    let end = put_decimal(out, value, n);
    put_byte(out, end, b'\n')
}

#[tactic(auto, using(crate::proofs::PutLaws::value_laws))]
fn put_pair(out: &mut [u8], at: usize, a: u16, b: u16) -> usize
    ensures { written out.new result ≡ write (written out.old at) (pair_line a b) }
{
    let value = put_text(out, at, b"pair=");
    let end = put_numbers(out, value, a as u64, b as u64);
    put_byte(out, end, b'\n')
}

// The pairs of the internal nodes.
#[tactic(auto, using(crate::proofs::PutLaws::pairs_laws))]
pub fn put_pairs(out: &mut [u8], at: usize, pairs: &[u16]) -> usize
    ensures { written out.new result ≡ write (written out.old at) (pairs_text pairs.now) }
{
    let n = pairs.len() / 2;
    let mut place = at;
    for k in n - n / 2..n {
        place = put_pair(out, place, pairs[k + k], pairs[k + k + 1]);
    }
    place
}

#[tactic(auto, using(crate::proofs::PutLaws::value_laws))]
fn put_height(out: &mut [u8], at: usize, x: f64) -> usize
    ensures { written out.new result ≡ write (written out.old at) (height_line x) }
{
    let value = put_text(out, at, b"height=");
    let end = put_word(out, value, real::to_bits(x));
    put_byte(out, end, b'\n')
}

#[tactic(auto, using(crate::proofs::PutLaws::heights_laws))]
pub fn put_heights(out: &mut [u8], at: usize, heights: &[f64]) -> usize
    ensures { written out.new result ≡ write (written out.old at) (heights_text heights.now) }
{
    let mut place = at;
    for x in heights {
        place = put_height(out, place, *x);
    }
    place
}

// ---- how long they are

#[tactic(auto, using(crate::proofs::CountLaws::len_laws))]
fn signed_len(k: i32) -> usize
    ensures { result ≡ length (signed_text k) }
{
    let digits = decimal_len(u64::from(k.unsigned_abs()));
    if k < 0 { digits + 1 } else { digits }
}

#[tactic(auto, using(crate::proofs::CountLaws::len_laws))]
pub fn ratio_len(ratio: Ratio) -> usize
    ensures { result ≡ length (ratio_text ratio) }
{
    match ratio {
        Ratio::Even => 4,
        Ratio::Counts(a, b) => 8 + decimal_len(a as u64) + decimal_len(b as u64),
        Ratio::Lengths(_, _) => 41,
        Ratio::Power(_, k) => 23 + signed_len(k),
    }
}

#[tactic(auto, using(crate::proofs::CountLaws::len_laws))]
pub fn pair_len(a: u16, b: u16) -> usize
    ensures { result ≡ length (pair_line a b) }
{
    7 + decimal_len(a as u64) + decimal_len(b as u64)
}

#[tactic(auto, using(crate::proofs::CountLaws::sum_laws))]
pub fn pairs_len(pairs: &[u16]) -> usize
    requires { length pairs.now ≤ 8190 }
    ensures { result ≡ length (pairs_text pairs.now) }
{
    let n = pairs.len() / 2;
    let mut sum = 0;
    for k in n - n / 2..n {
        sum += pair_len(pairs[k + k], pairs[k + k + 1]);
    }
    sum
}
