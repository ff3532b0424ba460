// The moves for a host whose tree was accepted and has since been changed by moves alone: as those of `rove`, with the same record and answer code, but the tree is
// not validated again. Parameters and allowance are checked. Where the slices are an accepted tree, each leaves what the checked function leaves. What a move leaves
// is accepted again, but for TreeScale on a tree with a tip that is not at zero: a tip may then stand above its parent, and a checked call or `rove_validate` comes
// next. On any other slices each ends, reads and writes nothing outside them, and is harmless (calls/Harmless). None has a `requires`. Crate rove_unvalidated_c
// exports them, and include/rove.h declares them for C. Assumes nothing.
#![tactic(auto)]

ghost use Rattle.std.specs.Prelude.{◌≡◌};
ghost use Rattle.moves.specs.Moves.{node_height, subtree_slide, narrow_exchange, wide_exchange, wilson_balding, root_scale, tree_scale};
ghost use Rattle.record.specs.Record.{written, node_in, tuning_in};
ghost use Rattle.rove.specs.Exports.{left};
ghost use Rattle.rove_unvalidated.specs.Unvalidated.{UnvalidatedExport, unvalidated_start_exported};

use tree::Tree;

pub fn rove_node_height_unvalidated(
    words: &mut [u64],
    pairs: &[u16],
    parents: &[u16],
    heights: &mut [f64],
) -> u64
    ensures { UnvalidatedExport node_height pairs.now parents.now heights.old words.old (left (written result words.new) pairs.now parents.now heights.new) }
{
    if !record::is_ready(words) {
        return record::put_unready(words);
    }
    let given = record::read(words);
    let answered = heights::node_height_unvalidated(
        pairs,
        parents,
        heights,
        given.root,
        given.random,
        given.allowance,
    );
    record::put_answer(words, answered)
}

// The first call of SubtreeSlide: a node into word 6, and two uniforms.
pub fn rove_slide_start_unvalidated(
    words: &mut [u64],
    pairs: &[u16],
    parents: &[u16],
    heights: &[f64],
) -> u64
    ensures { written result words.new ≡ unvalidated_start_exported pairs.now parents.now heights.now words.old }
{
    if !record::is_ready(words) {
        return record::put_unready(words);
    }
    let given = record::read(words);
    let tree = Tree {
        pairs,
        parents,
        heights,
        root: given.root,
    };
    let started = slide::slide_start_unvalidated(&tree, given.random, given.allowance);
    rove::put_started(words, started)
}

// The second call of SubtreeSlide, with the node in word 6 and the step in word 7.
pub fn rove_subtree_slide_unvalidated(
    words: &mut [u64],
    pairs: &mut [u16],
    parents: &mut [u16],
    heights: &mut [f64],
) -> u64
    ensures { UnvalidatedExport (subtree_slide (node_in words.old) (tuning_in words.old)) pairs.old parents.old heights.old words.old (left (written result words.new) pairs.new parents.new heights.new) }
{
    if !record::is_ready(words) {
        return record::put_unready(words);
    }
    let given = record::read(words);
    let answered = slide::subtree_slide_unvalidated(
        pairs,
        parents,
        heights,
        given.root,
        record::node(words),
        record::tuning(words),
        given.random,
        given.allowance,
    );
    record::put_answer(words, answered)
}

pub fn rove_narrow_exchange_unvalidated(
    words: &mut [u64],
    pairs: &mut [u16],
    parents: &mut [u16],
    heights: &[f64],
) -> u64
    ensures { UnvalidatedExport narrow_exchange pairs.old parents.old heights.now words.old (left (written result words.new) pairs.new parents.new heights.now) }
{
    if !record::is_ready(words) {
        return record::put_unready(words);
    }
    let given = record::read(words);
    let answered = exchanges::narrow_exchange_unvalidated(
        pairs,
        parents,
        heights,
        given.root,
        given.random,
        given.allowance,
    );
    record::put_answer(words, answered)
}

pub fn rove_wide_exchange_unvalidated(
    words: &mut [u64],
    pairs: &mut [u16],
    parents: &mut [u16],
    heights: &[f64],
) -> u64
    ensures { UnvalidatedExport wide_exchange pairs.old parents.old heights.now words.old (left (written result words.new) pairs.new parents.new heights.now) }
{
    if !record::is_ready(words) {
        return record::put_unready(words);
    }
    let given = record::read(words);
    let answered = exchanges::wide_exchange_unvalidated(
        pairs,
        parents,
        heights,
        given.root,
        given.random,
        given.allowance,
    );
    record::put_answer(words, answered)
}

pub fn rove_wilson_balding_unvalidated(
    words: &mut [u64],
    pairs: &mut [u16],
    parents: &mut [u16],
    heights: &mut [f64],
) -> u64
    ensures { UnvalidatedExport wilson_balding pairs.old parents.old heights.old words.old (left (written result words.new) pairs.new parents.new heights.new) }
{
    if !record::is_ready(words) {
        return record::put_unready(words);
    }
    let given = record::read(words);
    let answered = wilson::wilson_balding_unvalidated(
        pairs,
        parents,
        heights,
        given.root,
        given.random,
        given.allowance,
    );
    record::put_answer(words, answered)
}

// With the tuning in word 7.
pub fn rove_root_scale_unvalidated(
    words: &mut [u64],
    pairs: &[u16],
    parents: &[u16],
    heights: &mut [f64],
) -> u64
    ensures { UnvalidatedExport (root_scale (tuning_in words.old)) pairs.now parents.now heights.old words.old (left (written result words.new) pairs.now parents.now heights.new) }
{
    if !record::is_ready(words) {
        return record::put_unready(words);
    }
    let given = record::read(words);
    let answered = heights::root_scale_unvalidated(
        pairs,
        parents,
        heights,
        given.root,
        record::tuning(words),
        given.random,
        given.allowance,
    );
    record::put_answer(words, answered)
}

// With the tuning in word 7.
pub fn rove_tree_scale_unvalidated(
    words: &mut [u64],
    pairs: &[u16],
    parents: &[u16],
    heights: &mut [f64],
) -> u64
    ensures { UnvalidatedExport (tree_scale (tuning_in words.old)) pairs.now parents.now heights.old words.old (left (written result words.new) pairs.now parents.now heights.new) }
{
    if !record::is_ready(words) {
        return record::put_unready(words);
    }
    let given = record::read(words);
    let answered = heights::tree_scale_answer(
        pairs,
        parents,
        heights,
        given.root,
        record::tuning(words),
        given.random,
        given.allowance,
    );
    let code = record::put_answer(words, answered);
    heights::scale_by(heights, answered.answer);
    code
}
