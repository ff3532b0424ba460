// The functions of crate rove_values, exported to hosts in C and Rust: each calls the function of its name there, and promises what that promises. include/rove.h
// declares them. Assumes nothing.
#![tactic(auto)]

ghost use Rattle.std.specs.Prelude.{◌≡◌};
ghost use Rattle.record.specs.Record.{written};
ghost use Rattle.rove_values.specs.Exports.{uniform_exported, coin_exported, scaler_exported, initial_tuning_exported, changes_fbd_exported, changes_tree_exported, changes_topology_exported, estimates_exported, branch_length_exported, tree_length_exported};

#[unsafe(no_mangle)]
pub extern "C" fn rove_uniform(words: &mut [u64]) -> u64
    ensures { written result words.new ≡ uniform_exported words.old }
{
    rove_values::rove_uniform(words)
}

#[unsafe(no_mangle)]
pub extern "C" fn rove_coin(words: &mut [u64]) -> u64
    ensures { written result words.new ≡ coin_exported words.old }
{
    rove_values::rove_coin(words)
}

#[unsafe(no_mangle)]
pub extern "C" fn rove_scaler(words: &mut [u64]) -> u64
    ensures { written result words.new ≡ scaler_exported words.old }
{
    rove_values::rove_scaler(words)
}

#[unsafe(no_mangle)]
pub extern "C" fn rove_initial_tuning(words: &mut [u64]) -> u64
    ensures { written result words.new ≡ initial_tuning_exported words.old }
{
    rove_values::rove_initial_tuning(words)
}

#[unsafe(no_mangle)]
pub extern "C" fn rove_changes_fbd(words: &mut [u64]) -> u64
    ensures { written result words.new ≡ changes_fbd_exported words.old }
{
    rove_values::rove_changes_fbd(words)
}

#[unsafe(no_mangle)]
pub extern "C" fn rove_changes_tree(words: &mut [u64]) -> u64
    ensures { written result words.new ≡ changes_tree_exported words.old }
{
    rove_values::rove_changes_tree(words)
}

#[unsafe(no_mangle)]
pub extern "C" fn rove_changes_topology(words: &mut [u64]) -> u64
    ensures { written result words.new ≡ changes_topology_exported words.old }
{
    rove_values::rove_changes_topology(words)
}

#[unsafe(no_mangle)]
pub extern "C" fn rove_estimates(words: &mut [u64]) -> u64
    ensures { written result words.new ≡ estimates_exported words.old }
{
    rove_values::rove_estimates(words)
}

#[unsafe(no_mangle)]
pub extern "C" fn rove_branch_length(words: &mut [u64], parents: &[u16], heights: &[f64]) -> u64
    ensures { written result words.new ≡ branch_length_exported parents.now heights.now words.old }
{
    rove_values::rove_branch_length(words, parents, heights)
}

#[unsafe(no_mangle)]
pub extern "C" fn rove_tree_length(words: &mut [u64], parents: &[u16], heights: &[f64]) -> u64
    ensures { written result words.new ≡ tree_length_exported parents.now heights.now words.old }
{
    rove_values::rove_tree_length(words, parents, heights)
}
