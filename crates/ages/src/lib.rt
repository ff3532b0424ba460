// The age table of rove's dating.rs: the least and the greatest age of each tip, lent as two slices, and the rules that `Dating::validate` has for its tips. The two
// ends of a tip are one record where they are handed on. Assumes nothing.
#![tactic(auto)]

ghost use Rattle.std.specs.Prelude.{◌≡◌, ◌&&◌, ◌<◌, eqb, length};
ghost use Rattle.tree.specs.Tree.{tips_of};
ghost use Rattle.tree.specs.New.{counts};
ghost use Rattle.ages.specs.Ages.{age_of, misaged, unsampled, at_fault, lowest_fault, table_then, table_checked, table_call};

use answer::Refusal;
use process::FossilizedBirthDeath;
use tree::Tree;

// The least and the greatest age of a tip, or of the interval that is left to it under its parent.
#[derive(Clone, Copy)]
pub struct TipAge {
    pub minimum: f64,
    pub maximum: f64,
}

// The number of tips of so many nodes.
pub fn tips(nodes: usize) -> usize
    ensures { result ≡ tips_of nodes }
{
    nodes - nodes / 2
}

// The ages of a tip.
pub fn age_of(minima: &[f64], maxima: &[f64], tip: usize) -> TipAge
    ensures { result ≡ age_of minima.now maxima.now tip }
{
    TipAge {
        minimum: reads::height(minima, tip),
        maximum: reads::height(maxima, tip),
    }
}

// Whether a tip has neither a fixed age nor an interval of ages that is younger than the origin and does not include the present.
#[tactic(auto, using(crate::proofs::TableLaws::age_laws))]
fn is_misaged(origin: f64, age: TipAge) -> bool
    ensures { result ≡ misaged origin age }
{
    // What is not finite is found by one comparison each, since neither end is below 0 by then.
    age.minimum < 0.0
        || !(age.minimum < f64::INFINITY)
        || age.maximum < age.minimum
        || !(age.maximum < f64::INFINITY)
        || origin <= age.maximum
        || (age.minimum <= 0.0 && 0.0 < age.maximum)
}

// Whether a tip is at the present where nothing is sampled there.
#[tactic(auto, unfolding(crate::specs::Ages::unsampled))]
fn is_unsampled(sampling: f64, age: TipAge) -> bool
    ensures { result ≡ unsampled sampling age }
{
    sampling == 0.0 && age.minimum == 0.0
}

// Whether a tip is against either of the rules on ages.
#[tactic(auto, using(crate::proofs::TableLaws::age_laws), unfolding(crate::specs::Ages::at_fault))]
fn is_at_fault(minima: &[f64], maxima: &[f64], process: FossilizedBirthDeath, tip: usize) -> bool
    ensures { result ≡ at_fault process minima.now maxima.now tip }
{
    let age = age_of(minima, maxima, tip);
    // The last test is of no tip above the present: one comparison in place of two.
    is_misaged(process.origin, age)
        || (age.minimum <= 0.0 && is_unsampled(process.present_sampling, age))
}

// Whether the tips of a table are in order, or the lowest that is not.
#[tactic(auto, using(tree::specs::LowestLaws::lowest_laws))]
fn judge(
    minima: &[f64],
    maxima: &[f64],
    process: FossilizedBirthDeath,
    tips: usize,
) -> Result<(), Refusal>
    ensures { result ≡ lowest_fault process minima.now maxima.now tips }
{
    for tip in 0..tips {
        if is_at_fault(minima, maxima, process, tip) {
            return Err(Refusal::Parameter(tip));
        }
    }
    Ok(())
}

// The tips of a table, then whether the other parameters of the call are within their limits.
#[tactic(auto, using(crate::proofs::TableLaws::table_laws))]
fn check_table(
    minima: &[f64],
    maxima: &[f64],
    process: FossilizedBirthDeath,
    tips: usize,
    limits: bool,
) -> Result<(), Refusal>
    ensures { result ≡ table_then process minima.now maxima.now tips limits }
{
    judge(minima, maxima, process, tips)?;
    if limits {
        Ok(())
    } else {
        Err(Refusal::Parameter(0))
    }
}

// Whether a table has one age for each tip.
fn is_sized(minima: &[f64], maxima: &[f64], tips: usize) -> bool
    ensures { result ≡ eqb (length minima.now) tips && eqb (length maxima.now) tips }
{
    minima.len() == tips && maxima.len() == tips
}

// Whether a tree may have so many nodes.
fn is_count(nodes: usize) -> bool
    ensures { result ≡ counts nodes }
{
    3 <= nodes && nodes <= 4095 && nodes % 2 == 1
}

// The table by itself, for a tree of so many nodes.
#[tactic(auto, using(crate::proofs::TableLaws::validate_laws))]
pub fn validate(
    minima: &[f64],
    maxima: &[f64],
    process: FossilizedBirthDeath,
    nodes: usize,
) -> Result<(), Refusal>
    ensures { result ≡ table_call nodes minima.now maxima.now process }
{
    let tips = tips(nodes);
    if is_count(nodes) && is_sized(minima, maxima, tips) {
        check_table(minima, maxima, process, tips, process.is_finite())
    } else {
        Err(Refusal::Size(nodes))
    }
}

// The checks of a call on a tree with a table, in the order of the refusals; `limits` is whether its other parameters are within theirs.
#[tactic(auto, using(crate::proofs::TableLaws::check_laws))]
pub fn check(
    tree: &Tree<'_>,
    minima: &[f64],
    maxima: &[f64],
    process: FossilizedBirthDeath,
    limits: bool,
) -> Result<(), Refusal>
    ensures { result ≡ table_checked process minima.now maxima.now tree.now limits }
{
    let nodes = tree.pairs.len() / 2;
    let tips = tips(nodes);
    if !is_sized(minima, maxima, tips) {
        return Err(Refusal::Size(nodes));
    }
    quick::validate(tree)?;
    check_table(minima, maxima, process, tips, limits)
}
