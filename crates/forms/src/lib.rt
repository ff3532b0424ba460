// Readers of the lines of the state file, each over a place of the file; specs/Forms.antt says what the lines are. A reader of words is lent the
// table of digits. Assumes nothing.
#![tactic(auto)]

ghost use Rattle.std.specs.Prelude.{◌≡◌, drop};
ghost use Rattle.text.specs.Text.{line_end};
ghost use Rattle.text.specs.Rules.{onward, literal, fixed, word, decimal};
ghost use Rattle.text.specs.Places.{numbered};
ghost use Rattle.forms.specs.Forms.{entry, next, most_nodes, words, kinds, later_kinds, one_of, takes_node, takes_tuning, edition_line, draws_line, state_line, move_line, node_line, tuning_line, tips_line, pair_line, height_line};
ghost use Rattle.forms.specs.Given.{worded, named, paired};

use text::DigitTable;

// The largest number of a node.
const MOST_NODES: u32 = 65535;

// The moves that a file can name.
#[derive(Clone, Copy)]
pub enum Kind {
    NodeHeight,
    SubtreeSlide,
    NarrowExchange,
    WideExchange,
    WilsonBalding,
    RootScale,
    TreeScale,
}

// The four words of a generator.
#[derive(Clone, Copy)]
pub struct Words {
    pub a: u64,
    pub b: u64,
    pub c: u64,
    pub d: u64,
}

// The end of a line after its number.
#[tactic(auto, using(crate::proofs::LineLaws::end_laws))]
fn end_line(s: &[u8], n: Option<(u64, usize)>) -> Option<(u64, usize)>
    ensures { numbered s.now result ≡ onward (numbered s.now n) (fixed line_end) }
{
    let (v, i) = n?;
    let e = text::read_byte(s, i, 10)?;
    Some((v, e))
}

#[tactic(auto, using(crate::proofs::LineLaws::key_laws))]
pub fn read_number_line(s: &[u8], at: usize, key: &[u8], limit: u32) -> Option<(u64, usize)>
    ensures { numbered s.now result ≡ entry key.now (decimal limit) (drop at s.now) }
{
    let i = text::read_literal(s, at, key)?;
    end_line(s, text::read_decimal(s, i, limit))
}

#[tactic(auto, using(crate::proofs::LineLaws::key_laws))]
fn read_word_line(s: &[u8], at: usize, key: &[u8], table: &DigitTable) -> Option<(u64, usize)>
    ensures { numbered s.now result ≡ entry key.now word (drop at s.now) }
{
    let i = text::read_literal(s, at, key)?;
    end_line(s, text::read_word(s, i, table))
}

// A fixed text, for which a number stands.
#[tactic(auto, using(crate::proofs::LineLaws::fixed_laws))]
fn read_fixed(s: &[u8], at: usize, text: &[u8], n: u64) -> Option<(u64, usize)>
    ensures { numbered s.now result ≡ fixed text.now n (drop at s.now) }
{
    let e = text::read_literal(s, at, text)?;
    Some((n, e))
}

#[tactic(auto, using(crate::proofs::LineLaws::fixed_laws))]
pub fn read_edition(s: &[u8]) -> Option<(u64, usize)>
    ensures { numbered s.now result ≡ edition_line s.now }
{
    read_fixed(s, 0, b"edition=1\n", 1)
}

#[tactic(auto, unfolding(crate::specs::Forms::draws_line))]
pub fn read_draws(s: &[u8], at: usize) -> Option<(u64, usize)>
    ensures { numbered s.now result ≡ draws_line (drop at s.now) }
{
    read_number_line(s, at, b"draws=", u32::MAX)
}

#[tactic(auto, unfolding(crate::specs::Forms::tips_line))]
pub fn read_tips(s: &[u8], at: usize) -> Option<(u64, usize)>
    ensures { numbered s.now result ≡ tips_line (drop at s.now) }
{
    read_number_line(s, at, b"tips=", u32::MAX)
}

pub fn takes_node(kind: Kind) -> bool
    ensures { result ≡ takes_node kind }
{
    matches!(kind, Kind::SubtreeSlide)
}

pub fn takes_tuning(kind: Kind) -> bool
    ensures { result ≡ takes_tuning kind }
{
    matches!(kind, Kind::SubtreeSlide | Kind::RootScale | Kind::TreeScale)
}

#[tactic(auto, using(crate::proofs::LineLaws::fixed_laws))]
pub fn read_node(s: &[u8], at: usize, kind: Kind) -> Option<(u64, usize)>
    ensures { numbered s.now result ≡ node_line kind (drop at s.now) }
{
    read_number_line(
        s,
        at,
        b"node=",
        if takes_node(kind) { MOST_NODES } else { 0 },
    )
}

#[tactic(auto, using(crate::proofs::LineLaws::fixed_laws))]
pub fn read_tuning(s: &[u8], at: usize, kind: Kind, table: &DigitTable) -> Option<(u64, usize)>
    ensures { numbered s.now result ≡ tuning_line kind (drop at s.now) }
{
    if takes_tuning(kind) {
        read_word_line(s, at, b"tuning=", table)
    } else {
        read_fixed(s, at, b"tuning=0000000000000000\n", 0)
    }
}

#[tactic(auto, unfolding(crate::specs::Forms::height_line))]
pub fn read_height(s: &[u8], at: usize, table: &DigitTable) -> Option<(u64, usize)>
    ensures { numbered s.now result ≡ height_line (drop at s.now) }
{
    read_word_line(s, at, b"height=", table)
}

// A word after a comma.
#[tactic(auto, using(crate::proofs::LineLaws::next_laws))]
fn read_next_word(s: &[u8], at: usize, table: &DigitTable) -> Option<(u64, usize)>
    ensures { numbered s.now result ≡ next word (drop at s.now) }
{
    let i = text::read_byte(s, at, b',')?;
    text::read_word(s, i, table)
}

#[tactic(auto, using(crate::proofs::LineLaws::words_laws))]
fn read_words(s: &[u8], at: usize, table: &DigitTable) -> Option<(Words, usize)>
    ensures { worded s.now result ≡ words (drop at s.now) }
{
    let (a, i) = text::read_word(s, at, table)?;
    let (b, j) = read_next_word(s, i, table)?;
    let (c, k) = read_next_word(s, j, table)?;
    let (d, e) = read_next_word(s, k, table)?;
    Some((Words { a, b, c, d }, e))
}

#[tactic(auto, using(crate::proofs::LineLaws::value_laws), unfolding(crate::specs::Forms::state_line))]
pub fn read_generator(s: &[u8], at: usize, table: &DigitTable) -> Option<(Words, usize)>
    ensures { worded s.now result ≡ state_line (drop at s.now) }
{
    let i = text::read_literal(s, at, b"state=")?;
    let (w, j) = read_words(s, i, table)?;
    let e = text::read_byte(s, j, 10)?;
    Some((w, e))
}

// The later names.
fn read_later_name(s: &[u8], at: usize) -> Option<(Kind, usize)>
    ensures { named s.now result ≡ one_of later_kinds (drop at s.now) }
{
    if let Some(i) = text::read_literal(s, at, b"WilsonBalding") {
        return Some((Kind::WilsonBalding, i));
    }
    if let Some(i) = text::read_literal(s, at, b"RootScale") {
        return Some((Kind::RootScale, i));
    }
    if let Some(i) = text::read_literal(s, at, b"TreeScale") {
        return Some((Kind::TreeScale, i));
    }
    None
}

fn read_name(s: &[u8], at: usize) -> Option<(Kind, usize)>
    ensures { named s.now result ≡ one_of kinds (drop at s.now) }
{
    if let Some(i) = text::read_literal(s, at, b"NodeHeight") {
        return Some((Kind::NodeHeight, i));
    }
    if let Some(i) = text::read_literal(s, at, b"SubtreeSlide") {
        return Some((Kind::SubtreeSlide, i));
    }
    if let Some(i) = text::read_literal(s, at, b"NarrowExchange") {
        return Some((Kind::NarrowExchange, i));
    }
    if let Some(i) = text::read_literal(s, at, b"WideExchange") {
        return Some((Kind::WideExchange, i));
    }
    read_later_name(s, at)
}

#[tactic(auto, using(crate::proofs::LineLaws::value_laws), unfolding(crate::specs::Forms::move_line))]
pub fn read_move(s: &[u8], at: usize) -> Option<(Kind, usize)>
    ensures { named s.now result ≡ move_line (drop at s.now) }
{
    let i = text::read_literal(s, at, b"move=")?;
    let (kind, j) = read_name(s, i)?;
    let e = text::read_byte(s, j, 10)?;
    Some((kind, e))
}

// A node's number after a comma.
#[tactic(auto, using(crate::proofs::LineLaws::next_laws))]
fn read_next_node(s: &[u8], at: usize) -> Option<(u64, usize)>
    ensures { numbered s.now result ≡ next (decimal most_nodes) (drop at s.now) }
{
    let i = text::read_byte(s, at, b',')?;
    text::read_decimal(s, i, MOST_NODES)
}

#[tactic(auto, using(crate::proofs::LineLaws::pair_laws))]
pub fn read_pair(s: &[u8], at: usize) -> Option<(u16, u16, usize)>
    ensures { paired s.now result ≡ pair_line (drop at s.now) }
{
    let i = text::read_literal(s, at, b"pair=")?;
    let (a, j) = text::read_decimal(s, i, MOST_NODES)?;
    let (b, k) = read_next_node(s, j)?;
    let e = text::read_byte(s, k, 10)?;
    Some((a as u16, b as u16, e))
}
