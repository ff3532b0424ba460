// The functions that C and Rust hosts call for Newick copies: the text of a tree into a lent slice, and back into pairs and ages. Each takes the words of a
// record (crate record) and then its slices, and returns the answer code: 0 done, 2 refused, 3 where there are not enough words for a record, which changes
// nothing. Neither has a `requires`. Crate rove_newick_c exports them, and include/rove.h declares them for C. Assumes nothing.
#![tactic(auto)]

ghost use Rattle.std.specs.Prelude.{◌≡◌, ◌≤◌, length};
ghost use Rattle.record.specs.Record.{written, replied};
ghost use Rattle.rove_newick.specs.Exports.{turned_back, copied_left, taken_left, copy_left, read_left, write_exported, read_exported};

use newick::{CopyError, ReadError};
use record::{NO_RECORD, Reply};
use tree::Tree;

// The refusals that a copy has beside the nine of every call: a text that is not of the form, and a slice that is too short.
const WRONG_TEXT: u64 = 9;

const NO_ROOM: u64 = 10;

// A refusal by its number and detail.
fn put_refused(words: &mut [u64], number: u64, detail: u64) -> u64
    requires { 32 ≤ length words.old }
    ensures { written result words.new ≡ replied (turned_back number detail) words.old }
{
    record::put_reply(
        words,
        Reply {
            code: 2,
            draws: 0,
            kind: number,
            first: detail,
            second: 0,
        },
    )
}

// The Newick text of the tree, whose root is in word 4, at the start of `out`; its length goes into word 11.
#[tactic(auto, unfolding(crate::specs::Exports::write_exported, crate::specs::Exports::copied_left))]
pub fn rove_write_newick(
    words: &mut [u64],
    pairs: &[u16],
    parents: &[u16],
    heights: &[f64],
    out: &mut [u8],
) -> u64
    ensures { copy_left (written result words.new) out.new ≡ write_exported pairs.now parents.now heights.now out.old words.old }
{
    if !record::is_record(words) {
        return NO_RECORD;
    }
    let tree = Tree {
        pairs,
        parents,
        heights,
        root: record::root(words),
    };
    match newick_write::write(&tree, out) {
        Ok(count) => record::put_given(words, 0, count as u64, 0),
        Err(CopyError::Refused(why)) => record::put_refusal(words, why),
        Err(CopyError::Room) => put_refused(words, NO_ROOM, 0),
    }
}

// What a Newick text says, at the start of `pairs` and of `ages`; the number of nodes goes into word 11.
#[tactic(auto, unfolding(crate::specs::Exports::read_exported, crate::specs::Exports::taken_left))]
pub fn rove_read_newick(words: &mut [u64], text: &[u8], pairs: &mut [u16], ages: &mut [u64]) -> u64
    ensures { read_left (written result words.new) pairs.new ages.new ≡ read_exported text.now pairs.old ages.old words.old }
{
    if !record::is_record(words) {
        return NO_RECORD;
    }
    match newick_read::read(text, pairs, ages) {
        Ok(count) => record::put_given(words, 0, count as u64, 0),
        Err(ReadError::Place(place)) => put_refused(words, WRONG_TEXT, place as u64),
        Err(ReadError::Room) => put_refused(words, NO_ROOM, 0),
    }
}
