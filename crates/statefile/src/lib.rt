// The state file, read into lent slices. specs/StateFile.antt says what a file holds and how its lines are counted. Assumes nothing.
#![tactic(auto)]

ghost use Rattle.std.specs.Prelude.{◌≡◌, ◌+◌, ◌-◌, ◌^◌, ◌<◌, set, drop};
ghost use Rattle.statefile.specs.StateFile.{nodes_for, supplied, asked, head};
ghost use Rattle.statefile.specs.Given.{supplied_given, asked_given, head_given, Counts, Marked, pairs_stored, planted, heights_stored, grown, file_given};

use forms::{Kind, Words};
use text::DigitTable;
use tree::NO_NODE;

// The first line that is not of its form.
#[derive(Clone, Copy)]
pub struct WrongLine(pub usize);

// What is drawn from: the draws allowed, and the generator's words.
#[derive(Clone, Copy)]
pub struct Supplied {
    pub draws: u32,
    pub words: Words,
}

// The move that is asked for, with its node and its tuning, or its step; 0 where it has none.
#[derive(Clone, Copy)]
pub struct Asked {
    pub kind: Kind,
    pub node: usize,
    pub tuning: f64,
}

// What stands before the tree.
#[derive(Clone, Copy)]
pub struct Head {
    pub supplied: Supplied,
    pub asked: Asked,
    pub tips: u32,
}

// Lines 1 to 3.
#[tactic(auto, using(crate::proofs::HeadLaws::supplied_laws))]
fn read_supplied(s: &[u8], table: &DigitTable) -> Result<(Supplied, usize), WrongLine>
    ensures { supplied_given s.now result ≡ supplied 1 s.now }
{
    let (_, i) = forms::read_edition(s).ok_or(WrongLine(1))?;
    let (draws, j) = forms::read_draws(s, i).ok_or(WrongLine(2))?;
    let (words, e) = forms::read_generator(s, j, table).ok_or(WrongLine(3))?;
    let draws = draws as u32;
    Ok((Supplied { draws, words }, e))
}

// Lines 4 to 6.
#[tactic(auto, using(crate::proofs::HeadLaws::asked_laws))]
fn read_asked(s: &[u8], at: usize, table: &DigitTable) -> Result<(Asked, usize), WrongLine>
    ensures { asked_given s.now result ≡ asked 4 (drop at s.now) }
{
    let (kind, i) = forms::read_move(s, at).ok_or(WrongLine(4))?;
    let (node, j) = forms::read_node(s, i, kind).ok_or(WrongLine(5))?;
    let (w, e) = forms::read_tuning(s, j, kind, table).ok_or(WrongLine(6))?;
    let node = node as usize;
    let tuning = real::of_bits(w);
    Ok((Asked { kind, node, tuning }, e))
}

// Lines 1 to 7.
#[tactic(auto, using(crate::proofs::HeadLaws::head_laws))]
fn read_head(s: &[u8], table: &DigitTable) -> Result<(Head, usize), WrongLine>
    ensures { head_given s.now result ≡ head 1 s.now }
{
    let (supplied, i) = read_supplied(s, table)?;
    let (asked, j) = read_asked(s, i, table)?;
    let (tips, e) = forms::read_tips(s, j).ok_or(WrongLine(7))?;
    let tips = tips as u32;
    let head = Head {
        supplied,
        asked,
        tips,
    };
    Ok((head, e))
}

// Stores at a place, if the slice has it.
#[tactic(auto, using(crate::proofs::FillLaws::store_laws))]
fn store<T: Copy>(out: &mut [T], i: usize, x: T)
    ensures { out.new ≡ set out.old i x }
{
    if i < out.len() {
        out[i] = x;
    }
}

// Stores the two numbers of a pair from a place on, as far as the slice goes.
#[tactic(auto, using(crate::proofs::FillLaws::store_laws))]
fn store_pair(out: &mut [u16], i: usize, a: u16, b: u16)
    requires { i < 2 ^ 48 }
    ensures { out.new ≡ set (set out.old i a) (i + 1) b }
{
    store(out, i, a);
    store(out, i + 1, b);
}

// So many pairs, from the line and the place of the file on, into the places of the slice from `from` on, as far as there are any.
#[tactic(auto, using(crate::proofs::FillLaws::pairs_laws))]
fn read_pairs(
    s: &[u8],
    at: usize,
    line: usize,
    count: usize,
    out: &mut [u16],
    from: usize,
) -> Result<usize, WrongLine>
    requires { Counts line count from }
    ensures { pairs_stored count line at s.now from out.old result out.new }
{
    let mut j = at;
    for k in 0..count {
        let (a, b, e) = forms::read_pair(s, j).ok_or(WrongLine(line + k))?;
        store_pair(out, from + k + k, a, b);
        j = e;
    }
    Ok(j)
}

// So many heights, from the line and the place of the file on, into the slice, as far as it goes.
#[tactic(auto, using(crate::proofs::FillLaws::heights_laws))]
fn read_heights(
    s: &[u8],
    at: usize,
    line: usize,
    count: usize,
    out: &mut [f64],
    table: &DigitTable,
) -> Result<usize, WrongLine>
    requires { Counts line count 0 }
    ensures { heights_stored count line at s.now out.old result out.new }
{
    let mut j = at;
    for k in 0..count {
        let (w, e) = forms::read_height(s, j, table).ok_or(WrongLine(line + k))?;
        store(out, k, real::of_bits(w));
        j = e;
    }
    Ok(j)
}

// Marks the first places, as far as the slice goes.
#[tactic(auto, using(crate::proofs::FillLaws::mark_laws))]
fn mark(out: &mut [u16], count: usize)
    ensures { Marked count out.old out.new }
{
    let most = count.min(out.len());
    out[..most].fill(NO_NODE);
}

// The number of nodes of a tree with so many tips.
pub fn node_count(tips: u32) -> usize
    ensures { result ≡ nodes_for tips }
{
    (2 * tips as usize).saturating_sub(1)
}

// The pairs of a tree, from line 8 and a place of the file on, after the marks of its tips.
#[tactic(auto, using(crate::proofs::FillLaws::plant_laws))]
fn read_nodes(s: &[u8], at: usize, tips: u32, pairs: &mut [u16]) -> Result<usize, WrongLine>
    ensures { planted tips at s.now pairs.old result pairs.new }
{
    let from = 2 * tips as usize;
    mark(pairs, from);
    read_pairs(s, at, 8, (tips as usize).saturating_sub(1), pairs, from)
}

// The tree of so many tips, from line 8 and a place of the file on, which is the rest of the file.
fn read_tree(
    s: &[u8],
    at: usize,
    tips: u32,
    pairs: &mut [u16],
    heights: &mut [f64],
    table: &DigitTable,
) -> Result<usize, WrongLine>
    ensures { grown tips at s.now pairs.old heights.old result pairs.new heights.new }
{
    let i = read_nodes(s, at, tips, pairs)?;
    let line = 8 + (tips as usize).saturating_sub(1);
    let count = node_count(tips);
    let end = read_heights(s, i, line, count, heights, table)?;
    if s.len() <= end {
        Ok(end)
    } else {
        Err(WrongLine(line + count))
    }
}

// A whole file. Each slice starts with the tree's pairs or heights and keeps the rest, where it has room for all; without, or after a fault, what it holds is not said.
pub fn read_state(file: &[u8], pairs: &mut [u16], heights: &mut [f64]) -> Result<Head, WrongLine>
    ensures { file_given file.now pairs.old heights.old result pairs.new heights.new }
{
    let table = DigitTable::new();
    let (head, at) = read_head(file, &table)?;
    read_tree(file, at, head.tips, pairs, heights, &table)?;
    Ok(head)
}
