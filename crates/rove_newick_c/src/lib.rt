// The functions of crate rove_newick, exported to hosts in C and Rust: each calls the function of its name there, and promises what that promises. include/rove.h
// declares them. Assumes nothing.
#![tactic(auto)]

ghost use Rattle.std.specs.Prelude.{◌≡◌};
ghost use Rattle.record.specs.Record.{written};
ghost use Rattle.rove_newick.specs.Exports.{copy_left, read_left, write_exported, read_exported};

#[unsafe(no_mangle)]
pub extern "C" fn rove_write_newick(
    words: &mut [u64],
    pairs: &[u16],
    parents: &[u16],
    heights: &[f64],
    out: &mut [u8],
) -> u64
    ensures { copy_left (written result words.new) out.new ≡ write_exported pairs.now parents.now heights.now out.old words.old }
{
    rove_newick::rove_write_newick(words, pairs, parents, heights, out)
}

#[unsafe(no_mangle)]
pub extern "C" fn rove_read_newick(
    words: &mut [u64],
    text: &[u8],
    pairs: &mut [u16],
    ages: &mut [u64],
) -> u64
    ensures { read_left (written result words.new) pairs.new ages.new ≡ read_exported text.now pairs.old ages.old words.old }
{
    rove_newick::rove_read_newick(words, text, pairs, ages)
}
