// The text of an answer: written into a lent slice from its start, how long it is, and the two together, which write nothing where the slice is too short.
// Assumes nothing.
#![tactic(auto)]

ghost use Rattle.std.specs.Prelude.{◌≡◌, ◌++◌, length};
ghost use Rattle.text.specs.Text.{bytes};
ghost use Rattle.print.specs.Writing.{written, write};
ghost use Rattle.notation.specs.Notation.{line, state_text, ratio_text};
ghost use Rattle.random.specs.Generator.{state_of};
ghost use Rattle.report.specs.Report.{drawn_text, odds_text, tree_text, refused_text, answer_text, delivery, delivered};
ghost use Rattle.report.specs.Few.{Few};

use answer::{Answer, Moved, Ratio, Refusal};
use calls::Answered;
use notation::{
    pairs_len, put_heights, put_number, put_numbers, put_pairs, put_ratio, put_state, ratio_len,
};
use print::{decimal_len, put_byte, put_text};
use random::Random;

// ---- the text

// The line of a generator.
#[tactic(auto, using(crate::proofs::PutLaws::part_laws))]
fn put_random(out: &mut [u8], at: usize, random: Random) -> usize
    ensures { written out.new result ≡ write (written out.old at) (line (bytes "state=") (state_text (state_of random))) }
{
    let value = put_text(out, at, b"state=");
    let end = put_state(out, value, random.state());
    put_byte(out, end, 10)
}

// The draws made, and the generator after them.
#[tactic(auto, using(crate::proofs::PutLaws::part_laws))]
fn put_drawn(out: &mut [u8], at: usize, draws: u32, random: Random) -> usize
    ensures { written out.new result ≡ write (written out.old at) (drawn_text draws random) }
{
    let state = put_number(out, at, b"draws=", draws as u64);
    put_random(out, state, random)
}

// The line of a ratio.
#[tactic(auto, using(crate::proofs::PutLaws::part_laws))]
fn put_ratio_line(out: &mut [u8], at: usize, ratio: Ratio) -> usize
    ensures { written out.new result ≡ write (written out.old at) (line (bytes "ratio=") (ratio_text ratio)) }
{
    let value = put_text(out, at, b"ratio=");
    let end = put_ratio(out, value, ratio);
    put_byte(out, end, 10)
}

// A move's ratio and root.
#[tactic(auto, using(crate::proofs::PutLaws::part_laws))]
fn put_odds(out: &mut [u8], at: usize, ratio: Ratio, root: usize) -> usize
    ensures { written out.new result ≡ write (written out.old at) (odds_text ratio root) }
{
    let next = put_ratio_line(out, at, ratio);
    put_number(out, next, b"root=", root as u64)
}

#[tactic(auto, using(crate::proofs::PutLaws::part_laws))]
fn put_tree(out: &mut [u8], at: usize, pairs: &[u16], heights: &[f64]) -> usize
    ensures { written out.new result ≡ write (written out.old at) (tree_text pairs.now heights.now) }
{
    let next = put_pairs(out, at, pairs);
    put_heights(out, next, heights)
}

#[tactic(auto, using(crate::proofs::PutLaws::part_laws))]
fn put_moved(out: &mut [u8], moved: Moved, random: Random, pairs: &[u16], heights: &[f64]) -> usize
    ensures { written out.new result ≡ write (written out.old 0) (answer_text (Answer.Moved moved) random pairs.now heights.now) }
{
    let drawn = put_text(out, 0, b"answer=moved\n");
    let odds = put_drawn(out, drawn, moved.draws, random);
    let tree = put_odds(out, odds, moved.ratio, moved.root);
    put_tree(out, tree, pairs, heights)
}

#[tactic(auto, using(crate::proofs::PutLaws::part_laws))]
fn put_declined(out: &mut [u8], draws: u32, random: Random) -> usize
    ensures { written out.new result ≡ write (written out.old 0) (line (bytes "answer=") (bytes "declined") ++ drawn_text draws random) }
{
    let drawn = put_text(out, 0, b"answer=declined\n");
    put_drawn(out, drawn, draws, random)
}

// The text of a refusal.
pub fn put_refused(out: &mut [u8], why: Refusal) -> usize
    ensures { written out.new result ≡ write (written out.old 0) (refused_text why) }
{
    let value = put_text(out, 0, b"answer=refused,");
    let end = put_numbers(out, value, why.number() as u64, why.detail() as u64);
    put_byte(out, end, 10)
}

// The text of an answer, with the tree after the call.
#[tactic(auto, unfolding(crate::specs::Report::answer_text))]
pub fn put_answer(out: &mut [u8], answered: Answered, pairs: &[u16], heights: &[f64]) -> usize
    ensures { written out.new result ≡ write (written out.old 0) (answer_text answered.answer answered.random pairs.now heights.now) }
{
    match answered.answer {
        Answer::Moved(moved) => put_moved(out, moved, answered.random, pairs, heights),
        Answer::Declined(draws) => put_declined(out, draws, answered.random),
        Answer::Refused(why) => put_refused(out, why),
    }
}

// ---- how long it is

#[tactic(auto, using(crate::proofs::CountLaws::part_laws))]
fn odds_len(ratio: Ratio, root: usize) -> usize
    ensures { result ≡ length (odds_text ratio root) }
{
    13 + ratio_len(ratio) + decimal_len(root as u64)
}

#[tactic(auto, using(crate::proofs::CountLaws::part_laws))]
fn tree_len(pairs: &[u16], heights: &[f64]) -> usize
    requires { Few pairs.now heights.now }
    ensures { result ≡ length (tree_text pairs.now heights.now) }
{
    pairs_len(pairs) + 24 * heights.len()
}

#[tactic(auto, using(crate::proofs::CountLaws::part_laws))]
fn refused_len(why: Refusal) -> usize
    ensures { result ≡ length (refused_text why) }
{
    17 + decimal_len(why.number() as u64) + decimal_len(why.detail() as u64)
}

#[tactic(auto, using(crate::proofs::CountLaws::answer_laws), unfolding(crate::specs::Report::answer_text))]
fn report_len(answered: Answered, pairs: &[u16], heights: &[f64]) -> usize
    requires { Few pairs.now heights.now }
    ensures { result ≡ length (answer_text answered.answer answered.random pairs.now heights.now) }
{
    match answered.answer {
        Answer::Moved(moved) => {
            94 + decimal_len(moved.draws as u64)
                + odds_len(moved.ratio, moved.root)
                + tree_len(pairs, heights)
        }
        Answer::Declined(draws) => 97 + decimal_len(draws as u64),
        Answer::Refused(why) => refused_len(why),
    }
}

// ---- both

// The text of an answer at the start of the slice, and how long it is; 0, with nothing written, where the slice is too short.
pub fn put_report(out: &mut [u8], answered: Answered, pairs: &[u16], heights: &[f64]) -> usize
    requires { Few pairs.now heights.now }
    ensures { delivery result out.new ≡ delivered out.old (answer_text answered.answer answered.random pairs.now heights.now) }
{
    if out.len() < report_len(answered, pairs, heights) {
        return 0;
    }
    put_answer(out, answered, pairs, heights)
}

// The text of a refusal in the same way.
pub fn put_refusal(out: &mut [u8], why: Refusal) -> usize
    ensures { delivery result out.new ≡ delivered out.old (refused_text why) }
{
    if out.len() < refused_len(why) {
        return 0;
    }
    put_refused(out, why)
}
