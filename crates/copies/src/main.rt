// Reads Newick texts on standard input, one to a line, and prints what the reader answers of each: the number of nodes, with the pairs of the internal nodes and
// the ages of a small tree, or with the root's age of a larger one; or the refusal. Assumes nothing beyond std.
#![tactic(auto)]

use newick::ReadError;
use std::io;
use std::io::{BufWriter, Read, Write};

// How many bytes of the input are looked at. No line of it is longer.
const LONGEST: usize = 131072;

// No node: twice for a tip's children.
const NONE: u16 = 65535;

fn print_small(out: &mut impl Write, pairs: &[u16], ages: &[u64]) -> io::Result<()> {
    write!(out, "{} pairs", ages.len())?;
    for pair in pairs.chunks_exact(2).filter(|pair| pair[0] != NONE) {
        write!(out, " {},{}", pair[0], pair[1])?;
    }
    write!(out, " ages")?;
    for age in ages {
        write!(out, " {age}")?;
    }
    writeln!(out)
}

fn answer(out: &mut impl Write, text: &[u8]) -> io::Result<()> {
    // Room for the largest tree.
    let mut pairs = [0; 8190];
    let mut ages = [0; 4095];
    match newick_read::read(text, &mut pairs, &mut ages) {
        Ok(count) => {
            // No tree has more nodes than there is room for.
            let n = count.min(ages.len());
            match ages[..n].last() {
                Some(root) if 10 <= n => writeln!(out, "{n} root {root}"),
                _ => print_small(out, &pairs[..2 * n], &ages[..n]),
            }
        }
        Err(ReadError::Place(place)) => writeln!(out, "refused,9,{place}"),
        Err(ReadError::Room) => writeln!(out, "refused,10,0"),
    }
}

// A line without an end is not answered.
fn answer_lines(out: &mut impl Write, input: &[u8]) -> io::Result<()> {
    for line in input.split_inclusive(|b| *b == b'\n') {
        if let Some(text) = line.strip_suffix(b"\n") {
            answer(out, text)?;
        }
    }
    Ok(())
}

fn main(rt: HostRuntime) -> io::Result<()> {
    let mut out = BufWriter::new(rt.alloc(), io::writer(&rt))?;
    let mut input = Vec::with_capacity(rt.alloc(), LONGEST)?;
    rt.reader().take(LONGEST as u64).read_to_end(&mut input)?;
    answer_lines(&mut out, &input)?;
    out.flush()
}
