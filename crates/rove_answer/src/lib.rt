// The function that C and Rust hosts call with a whole state file. It has no `requires`. Crate rove_answer_c exports it, and include/rove.h declares it
// for C. Assumes nothing.
#![tactic(auto)]

ghost use Rattle.std.specs.Prelude.{◌≡◌};
ghost use Rattle.report.specs.Report.{delivery, delivered};
ghost use Rattle.respond.specs.Respond.{file_reply};

// The longest file that is looked at, in bytes.
const LONGEST: usize = 131072;

// The answer to a file of up to 131,072 bytes, as the listing prints it of shorter ones, at the start of `answer`, and how long it is; 0, with nothing written,
// where `answer` is too short.
pub fn rove_answer(file: &[u8], answer: &mut [u8]) -> usize
    ensures { delivery result answer.new ≡ delivered answer.old (file_reply 131072 file.now) }
{
    respond::respond(file, LONGEST, answer)
}
