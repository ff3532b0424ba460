// How the programs print what calls take and answer: floats by their bits, the words of a generator, ratios, answers and refusals in the state
// file's form, and what a slice holds. Assumes nothing.
#![tactic(auto)]

use answer::{Answer, Proposal, Ratio, Refusal};
use std::fmt;
use std::fmt::Display;

// A float by its bits, in 16 hexadecimal digits.
#[derive(Clone, Copy)]
pub struct Bits(pub f64);

impl Display for Bits {
    fn fmt<W: fmt::Write>(&self, f: &mut fmt::Formatter<W>) -> fmt::Result {
        let bits = real::to_bits(self.0);
        write!(f, "{bits:016x}")
    }
}

// All floats of a slice, each after a space.
#[derive(Clone, Copy)]
pub struct Floats<'a>(pub &'a [f64]);

impl Display for Floats<'_> {
    fn fmt<W: fmt::Write>(&self, f: &mut fmt::Formatter<W>) -> fmt::Result {
        for x in self.0 {
            write!(f, " {}", Bits(*x))?;
        }
        Ok(())
    }
}

// The words of a generator, each in 16 hexadecimal digits.
#[derive(Clone, Copy)]
pub struct Words(pub [u64; 4]);

impl Display for Words {
    fn fmt<W: fmt::Write>(&self, f: &mut fmt::Formatter<W>) -> fmt::Result {
        let [a, b, c, d] = self.0;
        write!(f, "{a:016x},{b:016x},{c:016x},{d:016x}")
    }
}

// A value, or a text where it is missing.
#[derive(Clone, Copy)]
pub struct Or<'a, T>(pub Option<T>, pub &'a str);

impl<T: Display> Display for Or<'_, T> {
    fn fmt<W: fmt::Write>(&self, f: &mut fmt::Formatter<W>) -> fmt::Result {
        match &self.0 {
            Some(x) => write!(f, "{x}"),
            None => write!(f, "{}", self.1),
        }
    }
}

// What a call says.
#[derive(Clone, Copy)]
pub struct Said<T>(pub T);

// The refusal's number and detail.
impl Display for Said<Refusal> {
    fn fmt<W: fmt::Write>(&self, f: &mut fmt::Formatter<W>) -> fmt::Result {
        let why = self.0;
        write!(f, "refused,{},{}", why.number(), why.detail())
    }
}

// The value, or the refusal.
impl<T: Display> Display for Said<Result<T, Refusal>> {
    fn fmt<W: fmt::Write>(&self, f: &mut fmt::Formatter<W>) -> fmt::Result {
        match &self.0 {
            Ok(x) => write!(f, "{x}"),
            Err(why) => write!(f, "{}", Said(*why)),
        }
    }
}

// Whether a call accepts what it was given.
#[derive(Clone, Copy)]
pub struct Verdict(pub Result<(), Refusal>);

impl Display for Verdict {
    fn fmt<W: fmt::Write>(&self, f: &mut fmt::Formatter<W>) -> fmt::Result {
        match &self.0 {
            Ok(()) => write!(f, "fine"),
            Err(why) => write!(f, "{}", Said(*why)),
        }
    }
}

impl Display for Said<Ratio> {
    fn fmt<W: fmt::Write>(&self, f: &mut fmt::Formatter<W>) -> fmt::Result {
        match self.0 {
            Ratio::Even => write!(f, "even"),
            Ratio::Counts(a, b) => write!(f, "counts,{a},{b}"),
            Ratio::Lengths(a, b) => write!(f, "lengths,{},{}", Bits(a), Bits(b)),
            Ratio::Power(x, k) => write!(f, "power,{},{k}", Bits(x)),
        }
    }
}

// What a tree move answers.
impl Display for Said<Answer> {
    fn fmt<W: fmt::Write>(&self, f: &mut fmt::Formatter<W>) -> fmt::Result {
        match self.0 {
            Answer::Moved(moved) => {
                write!(
                    f,
                    "moved draws={} ratio={} root={}",
                    moved.draws,
                    Said(moved.ratio),
                    moved.root
                )
            }
            Answer::Declined(draws) => write!(f, "declined draws={draws}"),
            Answer::Refused(why) => write!(f, "{}", Said(why)),
        }
    }
}

// What a call on parameters answers.
impl Display for Said<Proposal> {
    fn fmt<W: fmt::Write>(&self, f: &mut fmt::Formatter<W>) -> fmt::Result {
        match self.0 {
            Proposal::Scaled(draws, ratio) => {
                write!(f, "scaled draws={draws} ratio={}", Said(ratio))
            }
            Proposal::Declined(draws) => write!(f, "declined draws={draws}"),
            Proposal::Refused(why) => write!(f, "{}", Said(why)),
        }
    }
}

// The first nine nodes of a slice, each after a space, with a dash for 65,535, which is none.
#[derive(Clone, Copy)]
pub struct Marks<'a>(pub &'a [u16]);

impl Display for Marks<'_> {
    fn fmt<W: fmt::Write>(&self, f: &mut fmt::Formatter<W>) -> fmt::Result {
        for k in self.0.iter().take(9) {
            write!(f, " {}", Or(Some(*k).filter(|k| *k != 65535), "-"))?;
        }
        if self.0.len() > 9 {
            write!(f, " ...")?;
        }
        Ok(())
    }
}
