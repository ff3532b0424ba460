// Why the writer and the reader of Newick copies do not do as asked; specs/ says what a copy is, which text a tree has and what a text says, with the theorems
// on both. Refusals 9, with a place, and 10 are theirs alone, and so stand here and not among document 01's. Assumes nothing.
#![tactic(auto)]

ghost use Rattle.std.specs.Prelude.{◌≡◌};
ghost use Rattle.newick.specs.declared.CopyError.TheVariants.{Refused};

use answer::Refusal;

// Why nothing is written.
#[derive(Clone, Copy)]
pub enum CopyError {
    // The tree is refused.
    Refused(Refusal),
    // The slice is too short for the text.
    Room,
}

impl From<Refusal> for CopyError {
    ghost from_gives = { λ why e. e ≡ Refused why };

    fn from(why: Refusal) -> CopyError {
        CopyError::Refused(why)
    }
}

// Why nothing is read.
#[derive(Clone, Copy)]
pub enum ReadError {
    // The place of the fault in the text.
    Place(usize),
    // A slice is too short for what the text says.
    Room,
}
