// The replay program: answers state files that are stored with the Rust's answers, and says that all answers are alike, or which is the first that is
// not. specs/Replay.antt says what the data is and what comes of it. Assumes nothing beyond std.
#![tactic(auto)]

ghost use Rattle.std.specs.Prelude.{◌≡◌, length, drop, nat_eq};
ghost use Rattle.std.specs.List.{take_while, zip};
ghost use Rattle.respond.specs.Respond.{file_reply};
ghost use Rattle.replay.specs.Replay.{compared, within, counted, replay_case, outcome, replayed};
ghost use Rattle.replay.specs.Given.{texted, Inside, stepped};

use std::fs::File;
use std::io::Read;
use std::{fmt, io};

// The longest file that is looked at, in bytes.
const LONGEST: usize = 131072;

// Room for the longest answer, in bytes.
const ROOM: usize = 131136;

// How much of the data is looked at, in bytes, which is more than it has.
const LOOKED_AT: usize = 2000000;

// Why a case is not counted: its answer differs from the one stored at a place, or the case is not of its form.
#[derive(Clone, Copy)]
pub enum Fault {
    Differs(usize),
    Malformed,
}

// Why not all cases are alike: the first that differs, by its number from 1, and the place in its answer; or after how many cases the data is not of
// its form.
#[derive(Clone, Copy)]
pub enum Stop {
    Differs(usize, usize),
    Malformed(usize),
}

impl fmt::Display for Stop {
    fn fmt<W: fmt::Write>(&self, f: &mut fmt::Formatter<W>) -> fmt::Result {
        match self {
            Stop::Differs(case, place) => write!(
                f,
                "case {case} differs: its answer is the one stored for {place} bytes only"
            ),
            Stop::Malformed(count) => {
                write!(f, "the data is not of its form after {count} cases")
            }
        }
    }
}

// How many bytes are alike from the start of both.
fn count_alike(given: &[u8], expected: &[u8]) -> usize
    ensures { result ≡ length (take_while (λ p. nat_eq p.0 p.1) (zip given.now expected.now)) }
{
    given
        .iter()
        .zip(expected)
        .take_while(|(a, b)| a == b)
        .count()
}

// The first place where two texts are not alike.
#[tactic(auto, using(crate::proofs::ReplayLaws::compare_laws))]
fn compare(given: &[u8], expected: &[u8]) -> Option<usize>
    ensures { result ≡ compared 0 given.now expected.now }
{
    if given == expected {
        None
    } else {
        Some(count_alike(given, expected))
    }
}

// A file's answer beside the one that is expected.
fn replay_file(file: &[u8], expected: &[u8]) -> Option<usize>
    ensures { result ≡ compared 0 (within 131136 (file_reply 131072 file.now)) expected.now }
{
    let mut answer = [0u8; ROOM];
    let count = respond::respond(file, LONGEST, &mut answer);
    compare(&answer[..count], expected)
}

// A text after a line with its key and its length, and a byte 10 after it: where it starts and ends.
#[tactic(auto, using(crate::proofs::ReplayLaws::text_laws))]
fn read_text(s: &[u8], at: usize, key: &[u8]) -> Option<(usize, usize)>
    ensures result_value { texted s.now result ≡ counted key.now (drop at s.now) }
    ensures inside { Inside s.now result }
{
    let (count, start) = forms::read_number_line(s, at, key, u32::MAX)?;
    let end = start.checked_add(count as usize)?;
    if *s.get(end)? == 10 {
        Some((start, end))
    } else {
        None
    }
}

// The case from a place of the data on, whose answer is the one stored: where it ends.
#[tactic(auto, using(crate::proofs::ReplayLaws::place_laws, crate::proofs::ReplayLaws::case_laws))]
fn replay_case(s: &[u8], at: usize) -> Result<usize, Fault>
    ensures { stepped s.now result ≡ replay_case (drop at s.now) }
{
    let (a, b) = read_text(s, at, b"file=").ok_or(Fault::Malformed)?;
    let (c, d) = read_text(s, b + 1, b"answer=").ok_or(Fault::Malformed)?;
    match replay_file(&s[a..b], &s[c..d]) {
        Some(place) => Err(Fault::Differs(place)),
        None => Ok(d + 1),
    }
}

// So many cases from a place of the data on, and nothing after them: how many, where all are alike.
#[tactic(auto, using(crate::proofs::ReplayLaws::cases_laws))]
fn replay_cases(s: &[u8], at: usize, count: usize) -> Result<usize, Stop>
    ensures { result ≡ outcome count 0 (drop at s.now) }
{
    let mut place = at;
    for k in 0..count {
        match replay_case(s, place) {
            Ok(end) => place = end,
            Err(Fault::Differs(i)) => return Err(Stop::Differs(k + 1, i)),
            Err(Fault::Malformed) => return Err(Stop::Malformed(k)),
        }
    }
    if place < s.len() {
        Err(Stop::Malformed(count))
    } else {
        Ok(count)
    }
}

#[tactic(auto, using(crate::proofs::ReplayLaws::all_laws))]
fn replay(s: &[u8]) -> Result<usize, Stop>
    ensures { result ≡ replayed s.now }
{
    let (count, at) = forms::read_number_line(s, 0, b"cases=", u32::MAX).ok_or(Stop::Malformed(0))?;
    replay_cases(s, at, count as usize)
}

fn main(rt: HostRuntime) -> io::Result<()> {
    let name = "cases";
    match File::open(&rt, name) {
        Ok(file) => {
            let mut data = Vec::with_capacity(rt.alloc(), LOOKED_AT)?;
            file.take(LOOKED_AT as u64).read_to_end(&mut data)?;
            match replay(&data) {
                Ok(count) => println!(rt; "{count} cases replayed, none differs"),
                Err(stop) => println!(rt; "{stop}"),
            }
        }
        Err(error) => {
            eprintln!(rt; "{name}: {error}")?;
            println!(rt; "the data cannot be opened")
        }
    }
}
