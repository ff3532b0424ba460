// The listing program: reads a state file on standard input, makes the move that it asks for, and prints what came of it, or the refusal. Assumes nothing beyond std.
#![tactic(auto)]

use std::io;
use std::io::Read;

// The longest file that is looked at, in bytes.
const LONGEST: usize = 65536;

// An answer is at most 15 bytes longer than its file: it has the same pairs and heights but for the root's number, and fewer lines before them.
const LONGEST_ANSWER: usize = 65600;

fn main(rt: HostRuntime) -> io::Result<()> {
    // One byte more, by which a longer file is told.
    let mut file = Vec::with_capacity(rt.alloc(), LONGEST + 1)?;
    let mut answer = vec![in rt.alloc(); 0; LONGEST_ANSWER]?;
    rt.reader().take(LONGEST as u64 + 1).read_to_end(&mut file)?;
    let length = respond::respond(&file, LONGEST, &mut answer);
    rt.write_all(&answer[..length.min(answer.len())])
}
