// Texts written into a lent slice from a place on; each function hands back the place after. A slice that is full stays as it is, so that no caller has to
// show that there is room. No public function has a `requires`. Assumes nothing.
#![tactic(auto)]

ghost use Rattle.std.specs.Prelude.{◌≡◌, ◌+◌, ◌-◌, ◌≤◌, ◌<◌, length};
ghost use Rattle.text.specs.Text.{digit, word_text, decimal_text};
ghost use Rattle.print.specs.Writing.{written, write_byte, write};

// One byte.
#[tactic(auto, using(crate::proofs::PutLaws::byte_laws))]
pub fn put_byte(out: &mut [u8], at: usize, b: u8) -> usize
    ensures { written out.new result ≡ write_byte (written out.old at) b }
{
    if at < out.len() {
        out[at] = b;
        at + 1
    } else {
        at
    }
}

#[tactic(auto, using(crate::proofs::PutLaws::text_laws))]
pub fn put_text(out: &mut [u8], at: usize, text: &[u8]) -> usize
    ensures { written out.new result ≡ write (written out.old at) text.now }
{
    let mut place = at;
    for b in text {
        place = put_byte(out, place, *b);
    }
    place
}

// ---- hexadecimal

// A word whose 16 digits fit, so that no place is tested.
#[tactic(auto, using(crate::proofs::PutLaws::word_laws))]
fn store_word(out: &mut [u8], at: usize, w: u64)
    requires { at + 16 ≤ length out.old }
    ensures { written out.new (at + 16) ≡ write (written out.old at) (word_text w) }
{
    let digits = b"0123456789abcdef";
    for k in 0..16 {
        out[at + k] = digits[((w >> (4 * (15 - k))) % 16) as usize];
    }
}

// A word of which only some digits may fit.
fn put_word_near_end(out: &mut [u8], at: usize, w: u64) -> usize
    ensures { written out.new result ≡ write (written out.old at) (word_text w) }
{
    let mut text = [0u8; 16];
    store_word(&mut text, 0, w);
    put_text(out, at, &text)
}

// A word in 16 digits.
pub fn put_word(out: &mut [u8], at: usize, w: u64) -> usize
    ensures { written out.new result ≡ write (written out.old at) (word_text w) }
{
    if 16 <= out.len().saturating_sub(at) {
        store_word(out, at, w);
        at + 16
    } else {
        put_word_near_end(out, at, w)
    }
}

// ---- decimal

#[tactic(auto, using(crate::proofs::PutLaws::decimal_laws))]
fn put_digit(out: &mut [u8], at: usize, d: u64) -> usize
    requires { d < 10 }
    ensures { written out.new result ≡ write_byte (written out.old at) (digit d) }
{
    put_byte(out, at, (48 + d) as u8)
}

// By the number of digits, and not by std's formatting, since Newick copies are written by it.
// A number of two digits, and below of three and of four: all digits but the last, then the last.
fn put_two(out: &mut [u8], at: usize, n: u64) -> usize
    requires { (10 ≤ n) × (n < 100) }
    ensures { written out.new result ≡ write (written out.old at) (decimal_text n) }
{
    let place = put_digit(out, at, n / 10);
    put_digit(out, place, n % 10)
}

fn put_three(out: &mut [u8], at: usize, n: u64) -> usize
    requires { (100 ≤ n) × (n < 1000) }
    ensures { written out.new result ≡ write (written out.old at) (decimal_text n) }
{
    let place = put_two(out, at, n / 10);
    put_digit(out, place, n % 10)
}

fn put_four(out: &mut [u8], at: usize, n: u64) -> usize
    requires { (1000 ≤ n) × (n < 10000) }
    ensures { written out.new result ≡ write (written out.old at) (decimal_text n) }
{
    let place = put_three(out, at, n / 10);
    put_digit(out, place, n % 10)
}

// A number of any size.
#[tactic(auto, using(crate::proofs::PutLaws::decimal_laws))]
fn put_many(out: &mut [u8], at: usize, n: u64) -> usize
    ensures { written out.new result ≡ write (written out.old at) (decimal_text n) }
{
    if n < 10 {
        return put_digit(out, at, n);
    }
    let place = put_many(out, at, n / 10);
    put_digit(out, place, n % 10)
}

// A number without leading zeros. Those of nodes have at most four digits, and need no recursion.
#[tactic(auto, using(crate::proofs::PutLaws::decimal_laws))]
pub fn put_decimal(out: &mut [u8], at: usize, n: u64) -> usize
    ensures { written out.new result ≡ write (written out.old at) (decimal_text n) }
{
    if n < 10 {
        put_digit(out, at, n)
    } else if n < 100 {
        put_two(out, at, n)
    } else if n < 1000 {
        put_three(out, at, n)
    } else if n < 10000 {
        put_four(out, at, n)
    } else {
        put_many(out, at, n)
    }
}

// How many digits a number of any size has.
#[tactic(auto, using(crate::proofs::PutLaws::count_laws))]
fn count_digits(n: u64) -> usize
    ensures { result ≡ length (decimal_text n) }
{
    let mut rest = n;
    let mut count = 1;
    while 10 <= rest {
        rest /= 10;
        count += 1;
    }
    count
}

// How many digits a number has.
#[tactic(auto, using(crate::proofs::PutLaws::count_laws))]
pub fn decimal_len(n: u64) -> usize
    ensures { result ≡ length (decimal_text n) }
{
    if n < 10 {
        1
    } else if n < 100 {
        2
    } else if n < 1000 {
        3
    } else if n < 10000 {
        4
    } else {
        count_digits(n)
    }
}
