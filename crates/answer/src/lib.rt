// What a call answers: moved or scaled with its ratio, declined, or refused. specs/Answers.antt gives the number and the values that document 01
// has for each case. Assumes nothing.
#![tactic(auto)]

ghost use Rattle.std.specs.Prelude.{◌≡◌};
ghost use Rattle.answer.specs.Answers.{number_of, detail_of};

// Why a call is turned back, in the order of the refusals' numbers 1 to 9.
#[derive(Clone, Copy)]
pub enum Refusal {
    // The node count is under 3, even or over 4,095, or lengths disagree; the count.
    Size(usize),
    // The pairs do not make a tree at this node.
    Shape(usize),
    // The pairs make more than one tree, or the given parents or root are not the pairs'.
    Disconnected,
    // The lowest node whose height is negative, not finite or above its parent's.
    Height(usize),
    // A parameter is outside its limits; the faulty tip of an age table, else 0.
    Parameter(usize),
    // More draws are needed than allowed; the allowance.
    Allowance(u32),
    // The lowest node whose new height is not finite.
    NotFinite(usize),
    // The node whose drawn height is outside its interval.
    Outside(usize),
    // The first line that is not of the state file's form; 0 for a file that is too long.
    Line(usize),
}

impl Refusal {
    pub fn number(self) -> u32
        ensures { result ≡ number_of self }
    {
        match self {
            Refusal::Size(_) => 1,
            Refusal::Shape(_) => 2,
            Refusal::Disconnected => 3,
            Refusal::Height(_) => 4,
            Refusal::Parameter(_) => 5,
            Refusal::Allowance(_) => 6,
            Refusal::NotFinite(_) => 7,
            Refusal::Outside(_) => 8,
            Refusal::Line(_) => 9,
        }
    }

    pub fn detail(self) -> usize
        ensures { result ≡ detail_of self }
    {
        match self {
            Refusal::Disconnected => 0,
            Refusal::Allowance(allowance) => allowance as usize,
            Refusal::Size(detail)
            | Refusal::Shape(detail)
            | Refusal::Height(detail)
            | Refusal::Parameter(detail)
            | Refusal::NotFinite(detail)
            | Refusal::Outside(detail)
            | Refusal::Line(detail) => detail,
        }
    }
}

// The Hastings ratio before its logarithm is taken: 1 over 1, a over b, or f to the power k.
#[derive(Clone, Copy)]
pub enum Ratio {
    Even,
    Counts(usize, usize),
    Lengths(f64, f64),
    Power(f64, i32),
}

// A move that was made: the root after it, the draws made and the ratio.
#[derive(Clone, Copy)]
pub struct Moved {
    pub root: usize,
    pub draws: u32,
    pub ratio: Ratio,
}

// Declined carries the draws made.
#[derive(Clone, Copy)]
pub enum Answer {
    Moved(Moved),
    Declined(u32),
    Refused(Refusal),
}

// What a call on parameters answers: scaled, with the draws made and the ratio; declined, with the draws made; or refused. The parameters
// stand beside it.
#[derive(Clone, Copy)]
pub enum Proposal {
    Scaled(u32, Ratio),
    Declined(u32),
    Refused(Refusal),
}
