// The recopy program: reads a Newick text on standard input and prints what it says, a line for its number of tips, one for each pair and one for each age in
// whole thousandths above the youngest tip; then the text once more, written from these. Or the refusal, as the listing prints it. Assumes nothing beyond std.
#![tactic(auto)]

use lines::Said;
use newick::{CopyError, ReadError};
use std::io;
use std::io::{BufWriter, Read, Write};

// The longest text that is looked at, in bytes, is longer than any copy; of a longer one these are read.
const LONGEST: usize = 131072;

// No node: twice for a tip's children.
const NONE: u16 = 65535;

// The text of a tree, whose root is its last node.
fn print_copy(out: &mut impl Write, pairs: &[u16], ages: &[u64]) -> io::Result<()> {
    let Some(root) = ages.len().checked_sub(1) else {
        return Ok(());
    };
    // Room for the longest copy.
    let mut copy = [0; 86916];
    match newick_write::write_ages(pairs, ages, root, &mut copy) {
        Ok(count) => {
            out.write_all(&copy[..count.min(86916)])?;
            writeln!(out)
        }
        Err(CopyError::Refused(why)) => writeln!(out, "answer={}", Said(why)),
        Err(CopyError::Room) => writeln!(out, "answer=refused,10,0"),
    }
}

fn print_tree(out: &mut impl Write, pairs: &[u16], ages: &[u64]) -> io::Result<()> {
    writeln!(out, "tips={}", ages.len() / 2 + 1)?;
    for pair in pairs.chunks_exact(2).filter(|pair| pair[0] != NONE) {
        writeln!(out, "pair={},{}", pair[0], pair[1])?;
    }
    for age in ages {
        writeln!(out, "age={age}")?;
    }
    print_copy(out, pairs, ages)
}

fn recopy(out: &mut impl Write, text: &[u8]) -> io::Result<()> {
    // Room for the largest tree.
    let mut pairs = [0; 8190];
    let mut ages = [0; 4095];
    match newick_read::read(text, &mut pairs, &mut ages) {
        Ok(count) => {
            // No tree has more nodes than there is room for.
            let n = count.min(ages.len());
            print_tree(out, &pairs[..2 * n], &ages[..n])
        }
        Err(ReadError::Place(place)) => writeln!(out, "answer=refused,9,{place}"),
        Err(ReadError::Room) => writeln!(out, "answer=refused,10,0"),
    }
}

fn main(rt: HostRuntime) -> io::Result<()> {
    let mut out = BufWriter::new(rt.alloc(), io::writer(&rt))?;
    let mut text = Vec::with_capacity(rt.alloc(), LONGEST)?;
    rt.reader().take(LONGEST as u64).read_to_end(&mut text)?;
    recopy(&mut out, &text)?;
    out.flush()
}
