// The generator lent: a caller lends it by `&mut` and finds it advanced, as with rove's methods of the same names. Each function makes the
// draw of crate `random` on a copy, and leaves the generator that the draw hands back. No function has a `requires`.
// Assumes nothing.
#![tactic(auto)]

ghost use Rattle.std.specs.Prelude.{◌≡◌};
ghost use Rattle.random.specs.Generator.{drawn_word, drawn_uniform, drawn_coin};
ghost use Rattle.random.specs.BelowCall.{below_call};

use answer::Refusal;
use random::Random;

pub fn next_u64(random: &mut Random) -> u64
    ensures { (result, random.new) ≡ drawn_word random.old }
{
    let (word, after) = random.next_u64();
    *random = after;
    word
}

// Uniform on [0, 1), from the top 53 bits.
pub fn uniform(random: &mut Random) -> f64
    ensures { (result, random.new) ≡ drawn_uniform random.old }
{
    let (u, after) = random.uniform();
    *random = after;
    u
}

// Uniform on 0..n by at most `allowance` draws: the number and the draws made. A refused call leaves the generator as it was lent.
pub fn below(random: &mut Random, n: usize, allowance: u32) -> Result<(usize, u32), Refusal>
    ensures { (result, random.new) ≡ below_call random.old n allowance }
{
    let (answer, after) = random.below(n, allowance);
    *random = after;
    answer
}

pub fn coin(random: &mut Random) -> bool
    ensures { (result, random.new) ≡ drawn_coin random.old }
{
    let (first, after) = random.coin();
    *random = after;
    first
}
