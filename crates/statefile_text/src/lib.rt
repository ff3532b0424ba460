// The text of a state, as document 01's state file has it: written into a lent slice from its start, what room it leaves, and the two together, which write
// nothing where the slice is too short. Assumes nothing.
#![tactic(auto)]

ghost use Rattle.std.specs.Prelude.{◌≡◌, suc, ◌+◌, ◌-◌, length};
ghost use Rattle.std.specs.Float.{binary64};
ghost use Rattle.std.specs.Float.Ieee.{to_bits};
ghost use Rattle.text.specs.Text.{bytes, word_text};
ghost use Rattle.forms.specs.Forms.{name_of};
ghost use Rattle.print.specs.Writing.{written, write};
ghost use Rattle.notation.specs.Notation.{line, state_text, pairs_text, heights_text};
ghost use Rattle.report.specs.Report.{delivery, delivered};
ghost use Rattle.statefile.specs.StateFile.{words_of, move_of, state_in};
ghost use Rattle.statefile_text.specs.StateText.{node_of, tuning_of, supplied_text, asked_text, tips_text, nodes_text, file_text};

use forms::{Kind, Words, takes_node, takes_tuning};
use notation::{pair_len, put_heights, put_number, put_pairs, put_state};
use print::{decimal_len, put_byte, put_text, put_word};
use statefile::{Asked, Supplied};

// ---- the text

// The line of a generator.
#[tactic(auto, using(crate::proofs::PutLaws::part_laws))]
fn put_words(out: &mut [u8], at: usize, words: Words) -> usize
    ensures { written out.new result ≡ write (written out.old at) (line (bytes "state=") (state_text (words_of words))) }
{
    let value = put_text(out, at, b"state=");
    let end = put_state(out, value, [words.a, words.b, words.c, words.d]);
    put_byte(out, end, b'\n')
}

// Lines 1 to 3.
#[tactic(auto, using(crate::proofs::PutLaws::part_laws))]
fn put_supplied(out: &mut [u8], at: usize, supplied: Supplied) -> usize
    ensures { written out.new result ≡ write (written out.old at) (supplied_text supplied.draws (words_of supplied.words)) }
{
    let draws = put_text(out, at, b"edition=1\n");
    let state = put_number(out, draws, b"draws=", supplied.draws as u64);
    put_words(out, state, supplied.words)
}

fn name(kind: Kind) -> &'static [u8]
    ensures { result.now ≡ name_of kind }
{
    match kind {
        Kind::NodeHeight => b"NodeHeight",
        Kind::SubtreeSlide => b"SubtreeSlide",
        Kind::NarrowExchange => b"NarrowExchange",
        Kind::WideExchange => b"WideExchange",
        Kind::WilsonBalding => b"WilsonBalding",
        Kind::RootScale => b"RootScale",
        Kind::TreeScale => b"TreeScale",
    }
}

#[tactic(auto, using(crate::proofs::PutLaws::part_laws))]
fn put_move(out: &mut [u8], at: usize, kind: Kind) -> usize
    ensures { written out.new result ≡ write (written out.old at) (line (bytes "move=") (name_of kind)) }
{
    let value = put_text(out, at, b"move=");
    let end = put_text(out, value, name(kind));
    put_byte(out, end, b'\n')
}

// The node that a move takes, 0 where it takes none.
#[tactic(auto, using(crate::proofs::PutLaws::taken_laws))]
fn node_of(asked: Asked) -> usize
    ensures { result ≡ node_of (move_of asked.kind asked.node asked.tuning) }
{
    if takes_node(asked.kind) {
        asked.node
    } else {
        0
    }
}

// The bits of the tuning that a move takes, 0 where it takes none.
#[tactic(auto, using(crate::proofs::PutLaws::taken_laws))]
fn bits_of(asked: Asked) -> u64
    ensures { result ≡ to_bits binary64 (tuning_of (move_of asked.kind asked.node asked.tuning)) }
{
    if takes_tuning(asked.kind) {
        real::to_bits(asked.tuning)
    } else {
        0
    }
}

#[tactic(auto, using(crate::proofs::PutLaws::part_laws))]
fn put_tuning(out: &mut [u8], at: usize, bits: u64) -> usize
    ensures { written out.new result ≡ write (written out.old at) (line (bytes "tuning=") (word_text bits)) }
{
    let value = put_text(out, at, b"tuning=");
    let end = put_word(out, value, bits);
    put_byte(out, end, b'\n')
}

// Lines 4 to 6.
#[tactic(auto, using(crate::proofs::PutLaws::part_laws))]
fn put_asked(out: &mut [u8], at: usize, asked: Asked) -> usize
    ensures { written out.new result ≡ write (written out.old at) (asked_text (move_of asked.kind asked.node asked.tuning)) }
{
    let node = put_move(out, at, asked.kind);
    let tuning = put_number(out, node, b"node=", node_of(asked) as u64);
    put_tuning(out, tuning, bits_of(asked))
}

// The tips, the pairs of the internal nodes, and the heights.
#[tactic(auto, using(crate::proofs::PutLaws::part_laws))]
fn put_nodes(out: &mut [u8], at: usize, pairs: &[u16], heights: &[f64]) -> usize
    ensures { written out.new result ≡ write (written out.old at) (nodes_text pairs.now heights.now) }
{
    let first = put_number(out, at, b"tips=", nodes::tips(pairs) as u64);
    let next = put_pairs(out, first, pairs);
    put_heights(out, next, heights)
}

// The whole text, as far as there is room.
#[tactic(auto, using(crate::proofs::PutLaws::part_laws))]
fn put_all(
    out: &mut [u8],
    supplied: Supplied,
    asked: Asked,
    pairs: &[u16],
    heights: &[f64],
) -> usize
    ensures { written out.new result ≡ write (written out.old 0) (file_text (state_in supplied asked pairs.now heights.now)) }
{
    let next = put_supplied(out, 0, supplied);
    let tree = put_asked(out, next, asked);
    put_nodes(out, tree, pairs, heights)
}

// ---- the room that it leaves, since its length may be no number of usize

// How long lines 1 to 7 are.
#[tactic(auto, using(crate::proofs::RoomLaws::head_laws))]
fn head_len(supplied: Supplied, asked: Asked, pairs: &[u16]) -> usize
    ensures { result ≡ length (supplied_text supplied.draws (words_of supplied.words)) + length (asked_text (move_of asked.kind asked.node asked.tuning)) + length (tips_text pairs.now) }
{
    133 + decimal_len(supplied.draws as u64)
        + name(asked.kind).len()
        + decimal_len(node_of(asked) as u64)
        + decimal_len(nodes::tips(pairs) as u64)
}

// What the pairs leave.
#[tactic(auto, using(crate::proofs::RoomLaws::taken_laws))]
fn less_pairs(room: usize, pairs: &[u16]) -> usize
    ensures { result ≡ room - length (pairs_text pairs.now) }
{
    let n = pairs.len() / 2;
    let mut left = room;
    for k in n - n / 2..n {
        left = left.saturating_sub(pair_len(pairs[k + k], pairs[k + k + 1]));
    }
    left
}

// What the heights leave.
fn less_heights(room: usize, heights: &[f64]) -> usize
    ensures { result ≡ room - length (heights_text heights.now) }
{
    room.saturating_sub(heights.len().saturating_mul(24))
}

// One more than the text leaves of so many bytes; 0 where it is longer.
#[tactic(auto, using(crate::proofs::RoomLaws::all_laws))]
fn less_all(room: usize, supplied: Supplied, asked: Asked, pairs: &[u16], heights: &[f64]) -> usize
    ensures { result ≡ suc room - length (file_text (state_in supplied asked pairs.now heights.now)) }
{
    let head = head_len(supplied, asked, pairs);
    less_heights(less_pairs(room.saturating_sub(head - 1), pairs), heights)
}

// ---- both

// The text of a state at the start of the slice, and how long it is; 0, with nothing written, where the slice is too short. What the move does not use of
// `asked` is left out. The text reads back as the state where a file can hold it, which `Writable` says.
#[tactic(auto, using(crate::proofs::RoomLaws::file_laws))]
pub fn put_file(
    out: &mut [u8],
    supplied: Supplied,
    asked: Asked,
    pairs: &[u16],
    heights: &[f64],
) -> usize
    ensures { delivery result out.new ≡ delivered out.old (file_text (state_in supplied asked pairs.now heights.now)) }
{
    if less_all(out.len(), supplied, asked, pairs, heights) == 0 {
        0
    } else {
        put_all(out, supplied, asked, pairs, heights)
    }
}
