// The speciation state of rove's speciation.rs, and the terms of the Yule density of a tree. The birth–death density stays out. Assumes nothing.
#![tactic(auto)]

ghost use Rattle.std.specs.Prelude.{◌≡◌, [], length};
ghost use Rattle.tree.specs.Tree.{tips_of};
ghost use Rattle.tree.specs.Bounded.{every};
ghost use Rattle.tree.specs.Given.{kin_in};
ghost use Rattle.speciation.specs.Yule.{present_at, total_to, yule_call};

use answer::Refusal;
use tree::Tree;

// The live parameters: Yule's birth rate; or of a birth–death process the difference of birth and death rates, and the relative death rate.
#[derive(Clone, Copy)]
pub enum Speciation {
    Yule(f64),
    BirthDeath(f64, f64),
}

// The terms of a Yule density: the number of tips less 1, the rate, and the rate times the total of heights. Its logarithm is the first times
// the logarithm of the second, less the third.
#[derive(Clone, Copy)]
pub enum Density {
    MinusInfinity,
    Terms(usize, f64, f64),
}

// Whether all tips of a tree with these heights are at the present.
fn are_present(heights: &[f64]) -> bool
    ensures { result ≡ every (present_at (kin_in [] heights.now)) (tips_of (length heights.now)) }
{
    let tips = heights.len() - heights.len() / 2;
    heights[..tips].iter().all(|height| *height == 0.0)
}

// The internal heights, added in their order.
#[tactic(auto, using(crate::proofs::YuleLaws::total_laws))]
fn internal_total(heights: &[f64]) -> f64
    ensures { result ≡ total_to (length heights.now) (kin_in [] heights.now) (length heights.now) }
{
    let mut sum = 0.0;
    for k in heights.len() / 2 + 1..heights.len() {
        sum += heights[k];
    }
    sum
}

// The Yule density of a tree at a birth rate.
#[tactic(auto, using(crate::proofs::YuleLaws::yule_laws))]
pub fn yule_log_density(tree: &Tree<'_>, rate: f64) -> Result<Density, Refusal>
    ensures { result ≡ yule_call tree.now rate }
{
    quick::validate(tree)?;
    let heights = tree.heights;
    if !(real::is_positive(rate) && are_present(heights)) {
        return Ok(Density::MinusInfinity);
    }
    let total = internal_total(heights) + heights[tree.root];
    Ok(Density::Terms(heights.len() / 2, rate, rate * total))
}
