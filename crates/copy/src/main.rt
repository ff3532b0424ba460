// The museum's program: reads a state file on standard input and prints its tree as Newick text, without a line end, or the refusal in the listing's form.
// Assumes nothing beyond std.
#![tactic(auto)]

use std::io;
use std::io::Read;

// The longest file that is looked at, in bytes: that of the largest tree is shorter.
const LONGEST: usize = 131072;

// No copy is longer: 2,048 tips' numbers have 7,082 digits, and each of 4,094 lengths has at most 13 before its point.
const LONGEST_COPY: usize = 86916;

fn main(rt: HostRuntime) -> io::Result<()> {
    // One byte more, by which a longer file is told.
    let mut file = Vec::with_capacity(rt.alloc(), LONGEST + 1)?;
    let mut copy = vec![in rt.alloc(); 0; LONGEST_COPY]?;
    rt.reader().take(LONGEST as u64 + 1).read_to_end(&mut file)?;
    let length = copying::copy(&file, LONGEST, &mut copy);
    rt.write_all(&copy[..length.min(copy.len())])
}
