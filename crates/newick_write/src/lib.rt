// The writer of Newick copies: the text of an accepted tree, or of pairs with ages in whole thousandths, at the start of a lent slice. The text is measured
// first, so that nothing is written where it does not fit. Assumes nothing.
#![tactic(auto)]

ghost use Rattle.std.specs.Prelude.{[], ◌∷◌, ◌++◌, ◌≡◌, ◌+◌, ◌-◌, ◌/◌, ◌%◌, ◌≤◌, length, get_or, Some};
ghost use Rattle.tree.specs.Given.{tree_of};
ghost use Rattle.tree.specs.Tree.{nodes_of};
ghost use Rattle.print.specs.Writing.{written, write};
ghost use Rattle.newick.specs.Newick.{number_text, length_text, text};
ghost use Rattle.newick.specs.Copies.{dated_at, tree_text, ages_of, copied, placed, copy_aged, copy_call};
ghost use Rattle.newick_write.specs.Given.{children_of, space_after, aged_in};

use answer::Refusal;
use newick::CopyError;
use print::{decimal_len, put_byte, put_decimal};
use tree::{MOST_NODES, Tree};

// ---- numbers and lengths

#[tactic(auto, using(crate::proofs::PutLaws::put_laws))]
fn put_number(out: &mut [u8], at: usize, n: u64) -> usize
    ensures { written out.new result ≡ write (written out.old at) (number_text n) }
{
    put_decimal(out, at, n)
}

// The last two decimals of a length.
#[tactic(auto, using(crate::proofs::PutLaws::put_laws))]
fn put_last(out: &mut [u8], at: usize, x: u64) -> usize
    ensures { written out.new result ≡ write (written out.old at) ((48 + x / 10 % 10) ∷ (48 + x % 10) ∷ []) }
{
    let place = put_byte(out, at, (48 + x / 10 % 10) as u8);
    put_byte(out, place, (48 + x % 10) as u8)
}

// Its point and three decimals.
#[tactic(auto, using(crate::proofs::PutLaws::put_laws))]
fn put_decimals(out: &mut [u8], at: usize, x: u64) -> usize
    ensures { written out.new result ≡ write (written out.old at) (46 ∷ (48 + x / 100 % 10) ∷ (48 + x / 10 % 10) ∷ (48 + x % 10) ∷ []) }
{
    let tenths = put_byte(out, at, b'.');
    let rest = put_byte(out, tenths, (48 + x / 100 % 10) as u8);
    put_last(out, rest, x)
}

// A colon and a length in thousandths.
#[tactic(auto, using(crate::proofs::PutLaws::put_laws))]
fn put_length(out: &mut [u8], at: usize, x: u64) -> usize
    ensures { written out.new result ≡ write (written out.old at) (58 ∷ length_text x) }
{
    let whole = put_byte(out, at, b':');
    let point = put_number(out, whole, x / 1000);
    put_decimals(out, point, x)
}

// These, and the sign after them.
#[tactic(auto, using(crate::proofs::PutLaws::put_laws))]
fn put_branch(out: &mut [u8], at: usize, x: u64, after: u8) -> usize
    ensures { written out.new result ≡ write (written out.old at) (58 ∷ length_text x ++ (after ∷ [])) }
{
    let place = put_length(out, at, x);
    put_byte(out, place, after)
}

// How many bytes these are.
#[tactic(auto, using(crate::proofs::PutLaws::room_laws, crate::proofs::PutLaws::copy_laws))]
fn branch_len(x: u64) -> usize
    ensures { result ≡ 6 + length (number_text (x / 1000)) }
{
    6 + decimal_len(x / 1000)
}

// ---- nodes

// The length of the branch above a child.
fn branch(ages: &[u64], node: usize, child: usize) -> u64
    ensures { result ≡ get_or ages.now node 0 - get_or ages.now child 0 }
{
    let upper = ages.get(node).copied().unwrap_or(0);
    let lower = ages.get(child).copied().unwrap_or(0);
    upper.saturating_sub(lower)
}

// The children of a node, each with the length of its branch.
#[derive(Clone, Copy)]
struct Children {
    first: usize,
    second: usize,
    upper: u64,
    lower: u64,
}

#[tactic(auto, using(crate::proofs::PutLaws::put_laws))]
fn read_children(pairs: &[u16], ages: &[u64], node: usize) -> Children
    ensures { result ≡ children_of pairs.now ages.now node }
{
    let first = reads::first(pairs, node);
    let second = reads::second(pairs, node);
    Children {
        first,
        second,
        upper: branch(ages, node, first),
        lower: branch(ages, node, second),
    }
}

// The text of a node, no deeper than so many levels.
#[tactic(auto, using(crate::proofs::PutLaws::put_laws))]
fn put_node(
    pairs: &[u16],
    ages: &[u64],
    node: usize,
    depth: usize,
    out: &mut [u8],
    at: usize,
) -> usize
    ensures { written out.new result ≡ write (written out.old at) (text (dated_at depth (nodes_of pairs.now) pairs.now ages.now node)) }
{
    if depth == 0 || !reads::is_inner(pairs.len() / 2, node) {
        return put_number(out, at, node as u64);
    }
    let c = read_children(pairs, ages, node);
    let first = put_byte(out, at, b'(');
    let colon = put_node(pairs, ages, c.first, depth - 1, out, first);
    let second = put_branch(out, colon, c.upper, b',');
    let last = put_node(pairs, ages, c.second, depth - 1, out, second);
    put_branch(out, last, c.lower, b')')
}

// ---- space

// What so many bytes more leave.
#[tactic(auto, using(crate::proofs::PutLaws::room_laws))]
fn take(space: Option<usize>, count: usize) -> Option<usize>
    ensures { result ≡ space_after space count }
{
    space?.checked_sub(count)
}

// What the text of a node leaves.
#[tactic(auto, using(crate::proofs::PutLaws::room_laws))]
fn take_node(
    pairs: &[u16],
    ages: &[u64],
    node: usize,
    depth: usize,
    space: Option<usize>,
) -> Option<usize>
    ensures { result ≡ space_after space (length (text (dated_at depth (nodes_of pairs.now) pairs.now ages.now node))) }
{
    if depth == 0 || !reads::is_inner(pairs.len() / 2, node) {
        return take(space, decimal_len(node as u64));
    }
    let c = read_children(pairs, ages, node);
    let first = take_node(pairs, ages, c.first, depth - 1, take(space, 1));
    let comma = take(first, branch_len(c.upper));
    let second = take_node(pairs, ages, c.second, depth - 1, comma);
    take(second, branch_len(c.lower))
}

// ---- a tree with ages

#[tactic(auto, using(crate::proofs::PutLaws::room_laws, crate::proofs::PutLaws::copy_laws))]
fn take_whole(pairs: &[u16], ages: &[u64], root: usize, space: usize) -> Option<usize>
    ensures { result ≡ space_after (Some space) (length (tree_text pairs.now root ages.now)) }
{
    let left = take_node(pairs, ages, root, pairs.len() / 2, Some(space));
    take(left, 1)
}

#[tactic(auto, using(crate::proofs::PutLaws::room_laws, crate::proofs::PutLaws::copy_laws))]
fn put_whole(pairs: &[u16], ages: &[u64], root: usize, out: &mut [u8]) -> usize
    ensures { written out.new result ≡ write (written out.old 0) (tree_text pairs.now root ages.now) }
{
    let end = put_node(pairs, ages, root, pairs.len() / 2, out, 0);
    put_byte(out, end, b';')
}

// The text of a tree with ages in whole thousandths; of slices that are no tree, some text.
#[tactic(auto, using(crate::proofs::PutLaws::room_laws, crate::proofs::PutLaws::copy_laws))]
pub fn write_ages(
    pairs: &[u16],
    ages: &[u64],
    root: usize,
    out: &mut [u8],
) -> Result<usize, CopyError>
    ensures { copied result out.new ≡ placed out.old (tree_text pairs.now root ages.now) }
{
    take_whole(pairs, ages, root, out.len()).ok_or(CopyError::Room)?;
    Ok(put_whole(pairs, ages, root, out))
}

// ---- an accepted tree

// The printed ages of the heights; None where one is not printed.
#[tactic(auto, using(crate::proofs::AgesLaws::ages_laws))]
fn print_ages(heights: &[f64], ages: &mut [u64]) -> Option<()>
    requires { length ages.old ≡ length heights.now }
    ensures { aged_in result ages.new ≡ ages_of heights.now }
{
    for (k, x) in heights.iter().enumerate() {
        ages[k] = real::print_age(*x)?;
    }
    Some(())
}

// In as many places as there are heights.
#[tactic(auto, using(crate::proofs::WriteLaws::write_laws))]
fn write_with(
    pairs: &[u16],
    heights: &[f64],
    root: usize,
    ages: &mut [u64],
    out: &mut [u8],
) -> Result<usize, CopyError>
    requires { length ages.old ≡ length heights.now }
    ensures { copied result out.new ≡ copy_aged (tree_of pairs.now [] heights.now root) out.old (ages_of heights.now) }
{
    print_ages(heights, ages).ok_or(Refusal::Parameter(0))?;
    write_ages(pairs, ages, root, out)
}

// In places for the ages of the largest tree.
#[tactic(auto, using(crate::proofs::WriteLaws::write_laws))]
fn write_valid(
    pairs: &[u16],
    heights: &[f64],
    root: usize,
    out: &mut [u8],
) -> Result<usize, CopyError>
    requires { length heights.now ≤ 4095 }
    ensures { copied result out.new ≡ copy_aged (tree_of pairs.now [] heights.now root) out.old (ages_of heights.now) }
{
    let mut ages = [0u64; MOST_NODES];
    write_with(pairs, heights, root, &mut ages[..heights.len()], out)
}

// The Newick text of an accepted tree.
#[tactic(auto, using(crate::proofs::WriteLaws::write_laws))]
pub fn write(tree: &Tree<'_>, out: &mut [u8]) -> Result<usize, CopyError>
    ensures { copied result out.new ≡ copy_call tree.now out.old }
{
    quick::validate(tree)?;
    write_valid(tree.pairs, tree.heights, tree.root, out)
}
