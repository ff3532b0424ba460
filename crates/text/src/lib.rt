// Reading a text by the rules of a grammar, from a place of a lent slice on; a place past the end has nothing after it. An answer is the place
// where what was read ends, or says that the text does not go on there as the rule says. Assumes nothing.
#![tactic(auto)]

ghost use Rattle.std.specs.Prelude.{[], ◌∷◌, ◌≡◌, ◌<◌, drop};
ghost use Rattle.text.specs.Text.{digit};
ghost use Rattle.text.specs.Rules.{literal, word, decimal, is_decimal, value_of};
ghost use Rattle.text.specs.Places.{placed, numbered, DigitValues};

#[tactic(auto, using(crate::proofs::ReadLaws::byte_laws))]
pub fn read_byte(s: &[u8], at: usize, byte: u8) -> Option<usize>
    ensures { placed s.now result ≡ literal (byte ∷ []) (drop at s.now) }
{
    if *s.get(at)? == byte {
        Some(at + 1)
    } else {
        None
    }
}

pub fn read_literal(s: &[u8], at: usize, key: &[u8]) -> Option<usize>
    ensures { placed s.now result ≡ literal key.now (drop at s.now) }
{
    let rest = s.get(at..).unwrap_or(&[]);
    if rest.starts_with(key) {
        Some(at + key.len())
    } else {
        None
    }
}

// The byte of a digit.
#[tactic(auto, using(crate::proofs::ReadLaws::table_laws))]
fn digit(d: u8) -> u8
    requires { d < 16 }
    ensures { result ≡ digit d }
{
    if d < 10 { 48 + d } else { 87 + d }
}

// For each byte the value of that digit, or 16: made once for many words, and read faster than tests are made.
#[derive(Clone, Copy)]
pub struct DigitTable {
    pub values: [u8; 256],
    ghost right: { DigitValues values },
}

impl DigitTable {
    #[tactic(auto, using(crate::proofs::ReadLaws::table_laws))]
    pub fn new() -> DigitTable {
        let mut values = [16u8; 256];
        for d in 0..16u8 {
            values[digit(d) as usize] = d;
        }
        DigitTable { values }
    }

    #[tactic(auto, using(crate::proofs::ReadLaws::table_laws))]
    fn value(&self, b: u8) -> u64
        ensures { result ≡ value_of b }
    {
        self.values[b as usize] as u64
    }
}

// 16 hexadecimal digits.
#[tactic(auto, using(crate::proofs::ReadLaws::word_laws))]
pub fn read_word(s: &[u8], at: usize, table: &DigitTable) -> Option<(u64, usize)>
    ensures { numbered s.now result ≡ word (drop at s.now) }
{
    let mut n: u64 = 0;
    for b in s.get(at..)?.get(..16)? {
        let d = table.value(*b);
        if 16 <= d {
            return None;
        }
        n = n * 16 + d;
    }
    Some((n, at + 16))
}

// A decimal digit.
pub fn is_decimal(b: u8) -> bool
    ensures { result ≡ is_decimal b }
{
    b.is_ascii_digit()
}

// Decimal without leading zeros, up to a limit.
#[tactic(auto, using(crate::proofs::ReadLaws::decimal_laws))]
pub fn read_decimal(s: &[u8], at: usize, limit: u32) -> Option<(u64, usize)>
    ensures { numbered s.now result ≡ decimal limit (drop at s.now) }
{
    let first = *s.get(at)?;
    if first == b'0' {
        return Some((0, at + 1));
    }
    if !is_decimal(first) {
        return None;
    }
    let mut n: u64 = 0;
    for i in at..s.len() {
        let b = s[i];
        if !is_decimal(b) {
            return Some((n, i));
        }
        n = n * 10 + u64::from(b - b'0');
        if n > u64::from(limit) {
            return None;
        }
    }
    Some((n, s.len()))
}
