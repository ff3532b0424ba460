// The functions of crate rove, exported to hosts in C and Rust: each calls the function of its name there, and promises what that promises. include/rove.h
// declares them. Assumes nothing.
#![tactic(auto)]

ghost use Rattle.std.specs.Prelude.{◌≡◌};
ghost use Rattle.moves.specs.Moves.{node_height, subtree_slide, narrow_exchange, wide_exchange, wilson_balding, root_scale, tree_scale};
ghost use Rattle.record.specs.Record.{written, node_in, tuning_in};
ghost use Rattle.rove.specs.Exports.{left, filled, exported, start_exported, validate_exported, new_exported, postorder_exported, seed_exported, next_exported, below_exported};

#[unsafe(no_mangle)]
pub extern "C" fn rove_seed(words: &mut [u64], seed: u64) -> u64
    ensures { written result words.new ≡ seed_exported seed words.old }
{
    rove::rove_seed(words, seed)
}

#[unsafe(no_mangle)]
pub extern "C" fn rove_next_u64(words: &mut [u64]) -> u64
    ensures { written result words.new ≡ next_exported words.old }
{
    rove::rove_next_u64(words)
}

#[unsafe(no_mangle)]
pub extern "C" fn rove_below(words: &mut [u64]) -> u64
    ensures { written result words.new ≡ below_exported words.old }
{
    rove::rove_below(words)
}

#[unsafe(no_mangle)]
pub extern "C" fn rove_new(
    words: &mut [u64],
    pairs: &[u16],
    heights: &[f64],
    parents: &mut [u16],
) -> u64
    ensures { filled (written result words.new) parents.new ≡ new_exported pairs.now heights.now parents.old words.old }
{
    rove::rove_new(words, pairs, heights, parents)
}

#[unsafe(no_mangle)]
pub extern "C" fn rove_validate(
    words: &mut [u64],
    pairs: &[u16],
    parents: &[u16],
    heights: &[f64],
) -> u64
    ensures { written result words.new ≡ validate_exported pairs.now parents.now heights.now words.old }
{
    rove::rove_validate(words, pairs, parents, heights)
}

#[unsafe(no_mangle)]
pub extern "C" fn rove_postorder(
    words: &mut [u64],
    pairs: &[u16],
    parents: &[u16],
    heights: &[f64],
    order: &mut [u16],
) -> u64
    ensures { filled (written result words.new) order.new ≡ postorder_exported pairs.now parents.now heights.now order.old words.old }
{
    rove::rove_postorder(words, pairs, parents, heights, order)
}

#[unsafe(no_mangle)]
pub extern "C" fn rove_node_height(
    words: &mut [u64],
    pairs: &[u16],
    parents: &[u16],
    heights: &mut [f64],
) -> u64
    ensures { left (written result words.new) pairs.now parents.now heights.new ≡ exported node_height pairs.now parents.now heights.old words.old }
{
    rove::rove_node_height(words, pairs, parents, heights)
}

#[unsafe(no_mangle)]
pub extern "C" fn rove_slide_start(
    words: &mut [u64],
    pairs: &[u16],
    parents: &[u16],
    heights: &[f64],
) -> u64
    ensures { written result words.new ≡ start_exported pairs.now parents.now heights.now words.old }
{
    rove::rove_slide_start(words, pairs, parents, heights)
}

#[unsafe(no_mangle)]
pub extern "C" fn rove_subtree_slide(
    words: &mut [u64],
    pairs: &mut [u16],
    parents: &mut [u16],
    heights: &mut [f64],
) -> u64
    ensures { left (written result words.new) pairs.new parents.new heights.new ≡ exported (subtree_slide (node_in words.old) (tuning_in words.old)) pairs.old parents.old heights.old words.old }
{
    rove::rove_subtree_slide(words, pairs, parents, heights)
}

#[unsafe(no_mangle)]
pub extern "C" fn rove_narrow_exchange(
    words: &mut [u64],
    pairs: &mut [u16],
    parents: &mut [u16],
    heights: &[f64],
) -> u64
    ensures { left (written result words.new) pairs.new parents.new heights.now ≡ exported narrow_exchange pairs.old parents.old heights.now words.old }
{
    rove::rove_narrow_exchange(words, pairs, parents, heights)
}

#[unsafe(no_mangle)]
pub extern "C" fn rove_wide_exchange(
    words: &mut [u64],
    pairs: &mut [u16],
    parents: &mut [u16],
    heights: &[f64],
) -> u64
    ensures { left (written result words.new) pairs.new parents.new heights.now ≡ exported wide_exchange pairs.old parents.old heights.now words.old }
{
    rove::rove_wide_exchange(words, pairs, parents, heights)
}

#[unsafe(no_mangle)]
pub extern "C" fn rove_wilson_balding(
    words: &mut [u64],
    pairs: &mut [u16],
    parents: &mut [u16],
    heights: &mut [f64],
) -> u64
    ensures { left (written result words.new) pairs.new parents.new heights.new ≡ exported wilson_balding pairs.old parents.old heights.old words.old }
{
    rove::rove_wilson_balding(words, pairs, parents, heights)
}

#[unsafe(no_mangle)]
pub extern "C" fn rove_root_scale(
    words: &mut [u64],
    pairs: &[u16],
    parents: &[u16],
    heights: &mut [f64],
) -> u64
    ensures { left (written result words.new) pairs.now parents.now heights.new ≡ exported (root_scale (tuning_in words.old)) pairs.now parents.now heights.old words.old }
{
    rove::rove_root_scale(words, pairs, parents, heights)
}

#[unsafe(no_mangle)]
pub extern "C" fn rove_tree_scale(
    words: &mut [u64],
    pairs: &[u16],
    parents: &[u16],
    heights: &mut [f64],
) -> u64
    ensures { left (written result words.new) pairs.now parents.now heights.new ≡ exported (tree_scale (tuning_in words.old)) pairs.now parents.now heights.old words.old }
{
    rove::rove_tree_scale(words, pairs, parents, heights)
}
