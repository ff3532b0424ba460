// The function of crate rove_answer, exported to hosts in C and Rust: it calls that function, and promises what it promises. include/rove.h declares it.
// Assumes nothing.
#![tactic(auto)]

ghost use Rattle.std.specs.Prelude.{◌≡◌};
ghost use Rattle.report.specs.Report.{delivery, delivered};
ghost use Rattle.respond.specs.Respond.{file_reply};

#[unsafe(no_mangle)]
pub extern "C" fn rove_answer(file: &[u8], answer: &mut [u8]) -> usize
    ensures { delivery result answer.new ≡ delivered answer.old (file_reply 131072 file.now) }
{
    rove_answer::rove_answer(file, answer)
}
