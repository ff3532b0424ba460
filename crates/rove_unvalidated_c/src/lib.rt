// The functions of crate rove_unvalidated, exported to hosts in C and Rust: each calls the function of its name there, and promises what that promises. include/rove.h
// declares them. Assumes nothing.
#![tactic(auto)]

ghost use Rattle.std.specs.Prelude.{◌≡◌};
ghost use Rattle.moves.specs.Moves.{node_height, subtree_slide, narrow_exchange, wide_exchange, wilson_balding, root_scale, tree_scale};
ghost use Rattle.record.specs.Record.{written, node_in, tuning_in};
ghost use Rattle.rove.specs.Exports.{left};
ghost use Rattle.rove_unvalidated.specs.Unvalidated.{UnvalidatedExport, unvalidated_start_exported};

#[unsafe(no_mangle)]
pub extern "C" fn rove_node_height_unvalidated(
    words: &mut [u64],
    pairs: &[u16],
    parents: &[u16],
    heights: &mut [f64],
) -> u64
    ensures { UnvalidatedExport node_height pairs.now parents.now heights.old words.old (left (written result words.new) pairs.now parents.now heights.new) }
{
    rove_unvalidated::rove_node_height_unvalidated(words, pairs, parents, heights)
}

#[unsafe(no_mangle)]
pub extern "C" fn rove_slide_start_unvalidated(
    words: &mut [u64],
    pairs: &[u16],
    parents: &[u16],
    heights: &[f64],
) -> u64
    ensures { written result words.new ≡ unvalidated_start_exported pairs.now parents.now heights.now words.old }
{
    rove_unvalidated::rove_slide_start_unvalidated(words, pairs, parents, heights)
}

#[unsafe(no_mangle)]
pub extern "C" fn rove_subtree_slide_unvalidated(
    words: &mut [u64],
    pairs: &mut [u16],
    parents: &mut [u16],
    heights: &mut [f64],
) -> u64
    ensures { UnvalidatedExport (subtree_slide (node_in words.old) (tuning_in words.old)) pairs.old parents.old heights.old words.old (left (written result words.new) pairs.new parents.new heights.new) }
{
    rove_unvalidated::rove_subtree_slide_unvalidated(words, pairs, parents, heights)
}

#[unsafe(no_mangle)]
pub extern "C" fn rove_narrow_exchange_unvalidated(
    words: &mut [u64],
    pairs: &mut [u16],
    parents: &mut [u16],
    heights: &[f64],
) -> u64
    ensures { UnvalidatedExport narrow_exchange pairs.old parents.old heights.now words.old (left (written result words.new) pairs.new parents.new heights.now) }
{
    rove_unvalidated::rove_narrow_exchange_unvalidated(words, pairs, parents, heights)
}

#[unsafe(no_mangle)]
pub extern "C" fn rove_wide_exchange_unvalidated(
    words: &mut [u64],
    pairs: &mut [u16],
    parents: &mut [u16],
    heights: &[f64],
) -> u64
    ensures { UnvalidatedExport wide_exchange pairs.old parents.old heights.now words.old (left (written result words.new) pairs.new parents.new heights.now) }
{
    rove_unvalidated::rove_wide_exchange_unvalidated(words, pairs, parents, heights)
}

#[unsafe(no_mangle)]
pub extern "C" fn rove_wilson_balding_unvalidated(
    words: &mut [u64],
    pairs: &mut [u16],
    parents: &mut [u16],
    heights: &mut [f64],
) -> u64
    ensures { UnvalidatedExport wilson_balding pairs.old parents.old heights.old words.old (left (written result words.new) pairs.new parents.new heights.new) }
{
    rove_unvalidated::rove_wilson_balding_unvalidated(words, pairs, parents, heights)
}

#[unsafe(no_mangle)]
pub extern "C" fn rove_root_scale_unvalidated(
    words: &mut [u64],
    pairs: &[u16],
    parents: &[u16],
    heights: &mut [f64],
) -> u64
    ensures { UnvalidatedExport (root_scale (tuning_in words.old)) pairs.now parents.now heights.old words.old (left (written result words.new) pairs.now parents.now heights.new) }
{
    rove_unvalidated::rove_root_scale_unvalidated(words, pairs, parents, heights)
}

#[unsafe(no_mangle)]
pub extern "C" fn rove_tree_scale_unvalidated(
    words: &mut [u64],
    pairs: &[u16],
    parents: &[u16],
    heights: &mut [f64],
) -> u64
    ensures { UnvalidatedExport (tree_scale (tuning_in words.old)) pairs.now parents.now heights.old words.old (left (written result words.new) pairs.now parents.now heights.new) }
{
    rove_unvalidated::rove_tree_scale_unvalidated(words, pairs, parents, heights)
}
