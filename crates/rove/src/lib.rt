// The functions that C and Rust hosts call with a tree in memory: its generator, `new`, `validate` and `postorder`, and the seven moves. Each takes
// the words of a record (crate record) and then its slices, and returns the answer code: 0 done, 1 declined, 2 refused, 3 where there are not enough
// words for a record, which changes nothing. None has a `requires`. Crate rove_c exports them, and include/rove.h declares them for C. Assumes nothing.
#![tactic(auto)]

ghost use Rattle.std.specs.Prelude.{◌≡◌, ◌≤◌, length};
ghost use Rattle.moves.specs.Moves.{node_height, subtree_slide, narrow_exchange, wide_exchange, wilson_balding, root_scale, tree_scale};
ghost use Rattle.record.specs.Record.{written, node_in, tuning_in};
ghost use Rattle.rove.specs.Exports.{left, filled, exported, start_exported, validate_exported, new_exported, postorder_exported, seed_exported, next_exported, below_exported, below_left, root_left, begun_left};

use random::Random;
use record::NO_RECORD;
use slide::Started;
use tree::Tree;

// ---- the generator

// The generator of a seed, into words 0 to 3.
#[tactic(auto, unfolding(crate::specs::Exports::seed_exported))]
pub fn rove_seed(words: &mut [u64], seed: u64) -> u64
    ensures { written result words.new ≡ seed_exported seed words.old }
{
    if !record::is_record(words) {
        return NO_RECORD;
    }
    record::put_generator(words, Random::new(seed));
    0
}

// One draw.
#[tactic(auto, unfolding(crate::specs::Exports::next_exported))]
pub fn rove_next_u64(words: &mut [u64]) -> u64
    ensures { written result words.new ≡ next_exported words.old }
{
    if !record::is_record(words) {
        return NO_RECORD;
    }
    let (word, random) = record::generator(words).next_u64();
    record::put_generator(words, random);
    record::put_given(words, 1, word, 0)
}

// A number below word 6.
#[tactic(auto, unfolding(crate::specs::Exports::below_exported))]
pub fn rove_below(words: &mut [u64]) -> u64
    ensures { written result words.new ≡ below_exported words.old }
{
    if !record::is_record(words) {
        return NO_RECORD;
    }
    let (answer, random) = record::generator(words).below(
        record::node(words),
        record::allowance(words),
    );
    match answer {
        Ok((k, draws)) => {
            record::put_generator(words, random);
            record::put_given(words, draws, k as u64, 0)
        }
        Err(why) => record::put_refusal(words, why),
    }
}

// ---- the tree

// `Tree::new`: the parents and the root of the pairs.
#[tactic(auto, unfolding(crate::specs::Exports::new_exported))]
pub fn rove_new(words: &mut [u64], pairs: &[u16], heights: &[f64], parents: &mut [u16]) -> u64
    ensures { filled (written result words.new) parents.new ≡ new_exported pairs.now heights.now parents.old words.old }
{
    if !record::is_record(words) {
        return NO_RECORD;
    }
    match tree::new(pairs, heights, parents) {
        Ok(root) => {
            record::put_root(words, root);
            record::put_given(words, 0, 0, 0)
        }
        Err(why) => record::put_refusal(words, why),
    }
}

#[tactic(auto, unfolding(crate::specs::Exports::validate_exported))]
pub fn rove_validate(words: &mut [u64], pairs: &[u16], parents: &[u16], heights: &[f64]) -> u64
    ensures { written result words.new ≡ validate_exported pairs.now parents.now heights.now words.old }
{
    if !record::is_record(words) {
        return NO_RECORD;
    }
    let tree = Tree {
        pairs,
        parents,
        heights,
        root: record::root(words),
    };
    let verdict = quick::validate(&tree);
    record::put_verdict(words, verdict)
}

// Every node with both children before their parent, into `order`.
#[tactic(auto, unfolding(crate::specs::Exports::postorder_exported))]
pub fn rove_postorder(
    words: &mut [u64],
    pairs: &[u16],
    parents: &[u16],
    heights: &[f64],
    order: &mut [u16],
) -> u64
    ensures { filled (written result words.new) order.new ≡ postorder_exported pairs.now parents.now heights.now order.old words.old }
{
    if !record::is_record(words) {
        return NO_RECORD;
    }
    let tree = Tree {
        pairs,
        parents,
        heights,
        root: record::root(words),
    };
    let verdict = order::postorder(&tree, order);
    record::put_verdict(words, verdict)
}

// ---- the moves

#[tactic(auto, unfolding(crate::specs::Exports::exported))]
pub fn rove_node_height(
    words: &mut [u64],
    pairs: &[u16],
    parents: &[u16],
    heights: &mut [f64],
) -> u64
    ensures { left (written result words.new) pairs.now parents.now heights.new ≡ exported node_height pairs.now parents.now heights.old words.old }
{
    if !record::is_record(words) {
        return NO_RECORD;
    }
    let given = record::read(words);
    let answered = heights::node_height(
        pairs,
        parents,
        heights,
        given.root,
        given.random,
        given.allowance,
    );
    record::put_answer(words, answered)
}

// The answer of a slide's first call.
pub fn put_started(words: &mut [u64], started: Started) -> u64
    requires { 32 ≤ length words.old }
    ensures { written result words.new ≡ begun_left started.answer started.random words.old }
{
    match started.answer {
        Ok(s) => {
            record::put_generator(words, started.random);
            record::put_node(words, s.node);
            record::put_given(
                words,
                s.draws,
                real::to_bits(s.first),
                real::to_bits(s.second),
            )
        }
        Err(why) => record::put_refusal(words, why),
    }
}

// The first call of SubtreeSlide: a node into word 6, and two uniforms.
#[tactic(auto, unfolding(crate::specs::Exports::start_exported))]
pub fn rove_slide_start(words: &mut [u64], pairs: &[u16], parents: &[u16], heights: &[f64]) -> u64
    ensures { written result words.new ≡ start_exported pairs.now parents.now heights.now words.old }
{
    if !record::is_record(words) {
        return NO_RECORD;
    }
    let given = record::read(words);
    let tree = Tree {
        pairs,
        parents,
        heights,
        root: given.root,
    };
    let started = slide::slide_start(&tree, given.random, given.allowance);
    put_started(words, started)
}

// The second call of SubtreeSlide, with the node in word 6 and the step in word 7.
#[tactic(auto, unfolding(crate::specs::Exports::exported))]
pub fn rove_subtree_slide(
    words: &mut [u64],
    pairs: &mut [u16],
    parents: &mut [u16],
    heights: &mut [f64],
) -> u64
    ensures { left (written result words.new) pairs.new parents.new heights.new ≡ exported (subtree_slide (node_in words.old) (tuning_in words.old)) pairs.old parents.old heights.old words.old }
{
    if !record::is_record(words) {
        return NO_RECORD;
    }
    let given = record::read(words);
    let answered = slide::subtree_slide(
        pairs,
        parents,
        heights,
        given.root,
        record::node(words),
        record::tuning(words),
        given.random,
        given.allowance,
    );
    record::put_answer(words, answered)
}

#[tactic(auto, unfolding(crate::specs::Exports::exported))]
pub fn rove_narrow_exchange(
    words: &mut [u64],
    pairs: &mut [u16],
    parents: &mut [u16],
    heights: &[f64],
) -> u64
    ensures { left (written result words.new) pairs.new parents.new heights.now ≡ exported narrow_exchange pairs.old parents.old heights.now words.old }
{
    if !record::is_record(words) {
        return NO_RECORD;
    }
    let given = record::read(words);
    let answered = exchanges::narrow_exchange(
        pairs,
        parents,
        heights,
        given.root,
        given.random,
        given.allowance,
    );
    record::put_answer(words, answered)
}

#[tactic(auto, unfolding(crate::specs::Exports::exported))]
pub fn rove_wide_exchange(
    words: &mut [u64],
    pairs: &mut [u16],
    parents: &mut [u16],
    heights: &[f64],
) -> u64
    ensures { left (written result words.new) pairs.new parents.new heights.now ≡ exported wide_exchange pairs.old parents.old heights.now words.old }
{
    if !record::is_record(words) {
        return NO_RECORD;
    }
    let given = record::read(words);
    let answered = exchanges::wide_exchange(
        pairs,
        parents,
        heights,
        given.root,
        given.random,
        given.allowance,
    );
    record::put_answer(words, answered)
}

#[tactic(auto, unfolding(crate::specs::Exports::exported))]
pub fn rove_wilson_balding(
    words: &mut [u64],
    pairs: &mut [u16],
    parents: &mut [u16],
    heights: &mut [f64],
) -> u64
    ensures { left (written result words.new) pairs.new parents.new heights.new ≡ exported wilson_balding pairs.old parents.old heights.old words.old }
{
    if !record::is_record(words) {
        return NO_RECORD;
    }
    let given = record::read(words);
    let answered = wilson::wilson_balding(
        pairs,
        parents,
        heights,
        given.root,
        given.random,
        given.allowance,
    );
    record::put_answer(words, answered)
}

// With the tuning in word 7.
#[tactic(auto, unfolding(crate::specs::Exports::exported))]
pub fn rove_root_scale(
    words: &mut [u64],
    pairs: &[u16],
    parents: &[u16],
    heights: &mut [f64],
) -> u64
    ensures { left (written result words.new) pairs.now parents.now heights.new ≡ exported (root_scale (tuning_in words.old)) pairs.now parents.now heights.old words.old }
{
    if !record::is_record(words) {
        return NO_RECORD;
    }
    let given = record::read(words);
    let answered = heights::root_scale(
        pairs,
        parents,
        heights,
        given.root,
        record::tuning(words),
        given.random,
        given.allowance,
    );
    record::put_answer(words, answered)
}

// With the tuning in word 7.
#[tactic(auto, unfolding(crate::specs::Exports::exported))]
pub fn rove_tree_scale(
    words: &mut [u64],
    pairs: &[u16],
    parents: &[u16],
    heights: &mut [f64],
) -> u64
    ensures { left (written result words.new) pairs.now parents.now heights.new ≡ exported (tree_scale (tuning_in words.old)) pairs.now parents.now heights.old words.old }
{
    if !record::is_record(words) {
        return NO_RECORD;
    }
    let given = record::read(words);
    let answered = heights::tree_scale(
        pairs,
        parents,
        heights,
        given.root,
        record::tuning(words),
        given.random,
        given.allowance,
    );
    record::put_answer(words, answered)
}
