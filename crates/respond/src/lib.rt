// The answer of a state file: its tree is read into local arrays, the move that it asks for is made there, and the text of what came of it is put into
// a lent slice. Nothing else is written, and a refused file changes nothing. No public function has a `requires`. Assumes nothing.
#![tactic(auto)]

ghost use Rattle.std.specs.Prelude.{◌≡◌, length};
ghost use Rattle.tree.specs.Given.{tree_of};
ghost use Rattle.calls.specs.Call.{called};
ghost use Rattle.moves.specs.Moves.{UnvalidatedCall};
ghost use Rattle.random.specs.Generator.{from_state};
ghost use Rattle.statefile.specs.StateFile.{move_of, state_of, words_of, state_file};
ghost use Rattle.report.specs.Report.{delivery, delivered};
ghost use Rattle.respond.specs.Respond.{state_reply, read_reply, file_reply};
ghost use Rattle.respond.specs.Given.{Lent, Room, nodes, tried};

use answer::Refusal;
use calls::Answered;
use exchanges::{narrow_exchange_unvalidated, wide_exchange_unvalidated};
use forms::{Kind, Words};
use heights::{node_height_unvalidated, root_scale_unvalidated, tree_scale_unvalidated};
use random::Random;
use slide::subtree_slide_unvalidated;
use statefile::{Asked, Head};
use wilson::wilson_balding_unvalidated;

// The nodes of the largest tree, and those of a short file's.
const MOST_NODES: usize = 4095;

const FEW_NODES: usize = 511;

// A tree of a file of so many bytes has at most 511 nodes: each height takes 24.
const SHORT: usize = 12288;

// The move that is asked for, on a tree that was accepted.
fn make(
    asked: Asked,
    pairs: &mut [u16],
    parents: &mut [u16],
    heights: &mut [f64],
    root: usize,
    random: Random,
    allowed: u32,
) -> Answered
    ensures { UnvalidatedCall (move_of asked.kind asked.node asked.tuning) (tree_of pairs.old parents.old heights.old root) random allowed (called result.answer result.random pairs.new parents.new heights.new) }
{
    let node = asked.node;
    let x = asked.tuning;
    match asked.kind {
        Kind::NodeHeight => {
            node_height_unvalidated(pairs, parents, heights, root, random, allowed)
        }
        Kind::SubtreeSlide => {
            subtree_slide_unvalidated(pairs, parents, heights, root, node, x, random, allowed)
        }
        Kind::NarrowExchange => {
            narrow_exchange_unvalidated(pairs, parents, heights, root, random, allowed)
        }
        Kind::WideExchange => {
            wide_exchange_unvalidated(pairs, parents, heights, root, random, allowed)
        }
        Kind::WilsonBalding => {
            wilson_balding_unvalidated(pairs, parents, heights, root, random, allowed)
        }
        Kind::RootScale => {
            root_scale_unvalidated(pairs, parents, heights, root, x, random, allowed)
        }
        Kind::TreeScale => {
            tree_scale_unvalidated(pairs, parents, heights, root, x, random, allowed)
        }
    }
}

// The generator of a state file.
fn generator(words: Words) -> Random
    ensures { result ≡ from_state (words_of words) }
{
    Random::from_state([words.a, words.b, words.c, words.d])
}

// The answer of a state whose tree is in the slices; the parents are found.
fn answer_state(
    head: Head,
    pairs: &mut [u16],
    parents: &mut [u16],
    heights: &mut [f64],
    out: &mut [u8],
) -> usize
    requires { Lent pairs.old parents.old heights.old }
    ensures { delivery result out.new ≡ delivered out.old (state_reply (state_of head (nodes pairs.old heights.old))) }
{
    match tree::new(pairs, heights, parents) {
        Ok(root) => {
            let supplied = head.supplied;
            let random = generator(supplied.words);
            let answered = make(
                head.asked,
                pairs,
                parents,
                heights,
                root,
                random,
                supplied.draws,
            );
            report::put_report(out, answered, pairs, heights)
        }
        Err(why) => report::put_refusal(out, why),
    }
}

// The answer of a file that is not too long, its tree being read into the slices.
fn respond_in(
    file: &[u8],
    pairs: &mut [u16],
    parents: &mut [u16],
    heights: &mut [f64],
    out: &mut [u8],
) -> Option<usize>
    requires { Room pairs.old parents.old heights.old }
    ensures { tried file.now (length heights.old) out.old result out.new }
{
    match statefile::read_state(file, pairs, heights) {
        Ok(head) => {
            let n = statefile::node_count(head.tips);
            if MOST_NODES < n {
                return Some(report::put_refusal(out, Refusal::Size(n)));
            }
            if heights.len() < n {
                return None;
            }
            Some(answer_state(
                head,
                &mut pairs[..n + n],
                &mut parents[..n],
                &mut heights[..n],
                out,
            ))
        }
        Err(wrong) => Some(report::put_refusal(out, Refusal::Line(wrong.0))),
    }
}

// In room for any tree.
fn respond_long(file: &[u8], out: &mut [u8]) -> usize
    ensures { delivery result out.new ≡ delivered out.old (read_reply (state_file file.now)) }
{
    let mut pairs = [0; 2 * MOST_NODES];
    let mut parents = [0; MOST_NODES];
    let mut heights = [0.0; MOST_NODES];
    respond_in(file, &mut pairs, &mut parents, &mut heights, out).unwrap_or(0)
}

// In room for a tree of 511 nodes, which is cleared in less time.
fn respond_short(file: &[u8], out: &mut [u8]) -> Option<usize>
    ensures { tried file.now 511 out.old result out.new }
{
    let mut pairs = [0; 2 * FEW_NODES];
    let mut parents = [0; FEW_NODES];
    let mut heights = [0.0; FEW_NODES];
    respond_in(file, &mut pairs, &mut parents, &mut heights, out)
}

// The answer of a file that is not too long.
fn respond_to(file: &[u8], out: &mut [u8]) -> usize
    ensures { delivery result out.new ≡ delivered out.old (read_reply (state_file file.now)) }
{
    if file.len() <= SHORT {
        if let Some(count) = respond_short(file, out) {
            return count;
        }
    }
    respond_long(file, out)
}

// The answer of a state file of at most so many bytes, at the start of `out`, and how long it is; 0, with nothing written, where `out` is too short.
#[tactic(auto, unfolding(crate::specs::Respond::file_reply))]
pub fn respond(file: &[u8], limit: usize, out: &mut [u8]) -> usize
    ensures { delivery result out.new ≡ delivered out.old (file_reply limit file.now) }
{
    if limit < file.len() {
        report::put_refusal(out, Refusal::Line(0))
    } else {
        respond_to(file, out)
    }
}
