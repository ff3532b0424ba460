// Whether a text of any length and depth is spelled as a Newick copy is, or the place of the first byte that the spelling forbids. One pass over the tokens,
// without values: it knows where it stands, how many parentheses are open, and whether the innermost is at its second subtree. The same of those around it is
// kept in an array as far as that goes; of those further in, the byte before the inner parenthesis tells it, for which the pass goes back in the text. Assumes
// nothing.
#![tactic(auto)]

ghost use Rattle.std.specs.Prelude.{true, false, ◌≡◌, ◌≤◌, length, set};
ghost use Rattle.newick_spell.specs.Spelling.{spelling_of};
ghost use Rattle.newick_spell.specs.Spots.{Branch, Colon, Point, Sub};
ghost use Rattle.newick_spell.specs.Stands.{comma_before, Closes, Stands};
ghost use Rattle.newick_spell.specs.Tokens.{is_sign, is_digit, stopped, Skips, NumberFrom, Ends, AtPoint, AtColon, AtTip, Finishes, Reaches};

use std::ops::ControlFlow;

// Why a text is not spelled as a copy is.
#[derive(Clone, Copy)]
pub enum Misspelling {
    // The place of the first byte that the spelling forbids.
    Forbidden(usize),
    // The text ends too early.
    Unfinished,
}

// Where the pass stands, with how many parentheses open, and whether the innermost is at its second subtree.
#[derive(Clone, Copy)]
struct Scan {
    at: usize,
    depth: usize,
    side: bool,
}

// Where a part of the pass leads, or what the whole answers.
type Passed = ControlFlow<Result<(), Misspelling>, Scan>;

// ---- tokens

// Whether a byte stands at `at`, and is the sign.
#[tactic(auto, using(crate::proofs::TokenLaws::byte_laws))]
fn is_sign(text: &[u8], at: usize, sign: u8) -> bool
    ensures { result ≡ is_sign text.now at sign }
{
    text.get(at).is_some_and(|b| *b == sign)
}

// Whether a byte stands at `at`, and is a digit.
#[tactic(auto, using(crate::proofs::TokenLaws::byte_laws))]
fn is_digit(text: &[u8], at: usize) -> bool
    ensures { result ≡ is_digit text.now at }
{
    text.get(at).is_some_and(|b| text::is_decimal(*b))
}

// Behind the digits. By a `while`: a `for` over the places would leave at two exits, one for the end of the text.
#[tactic(auto, using(crate::proofs::TokenLaws::number_laws, crate::proofs::TokenLaws::byte_laws))]
fn skip_digits(text: &[u8], from: usize) -> usize
    ensures { Skips text.now from result }
{
    let mut at = from;
    while is_digit(text, at) {
        at += 1;
    }
    at
}

// A number without leading zeros.
#[tactic(auto, using(crate::proofs::TokenLaws::byte_laws, crate::proofs::TokenLaws::number_laws))]
fn pass_number(text: &[u8], at: usize) -> Result<usize, usize>
    ensures { NumberFrom text.now at result }
{
    if is_sign(text, at, b'0') {
        Ok(at + 1)
    } else if is_digit(text, at) {
        Ok(skip_digits(text, at + 1))
    } else {
        Err(at)
    }
}

// Three decimals.
#[tactic(auto, using(crate::proofs::TokenLaws::byte_laws, crate::proofs::TokenLaws::token_laws))]
fn pass_decimals(text: &[u8], at: usize) -> Result<usize, usize>
    ensures { Ends text.now at result (Stands text.now at Point) }
{
    if !is_digit(text, at) {
        return Err(at);
    }
    let second = at + 1;
    if !is_digit(text, second) {
        return Err(second);
    }
    let third = second + 1;
    if !is_digit(text, third) {
        return Err(third);
    }
    Ok(third + 1)
}

// A point and three decimals.
#[tactic(auto, using(crate::proofs::TokenLaws::byte_laws, crate::proofs::TokenLaws::token_laws))]
fn pass_fraction(text: &[u8], at: usize) -> Result<usize, usize>
    ensures { Ends text.now at result (AtPoint text.now at) }
{
    if is_sign(text, at, b'.') {
        pass_decimals(text, at + 1)
    } else {
        Err(at)
    }
}

// A length: a number and its fraction.
#[tactic(auto, using(crate::proofs::TokenLaws::token_laws))]
fn pass_length(text: &[u8], at: usize) -> Result<usize, usize>
    ensures { Ends text.now at result (Stands text.now at Colon) }
{
    let e = pass_number(text, at)?;
    pass_fraction(text, e)
}

// A colon and a length.
#[tactic(auto, using(crate::proofs::TokenLaws::byte_laws, crate::proofs::TokenLaws::token_laws))]
fn pass_branch(text: &[u8], at: usize) -> Result<usize, usize>
    ensures { Ends text.now at result (AtColon text.now at) }
{
    if is_sign(text, at, b':') {
        pass_length(text, at + 1)
    } else {
        Err(at)
    }
}

// A tip's number and its branch.
#[tactic(auto, using(crate::proofs::TokenLaws::token_laws))]
fn pass_tip(text: &[u8], at: usize) -> Result<usize, usize>
    ensures { Ends text.now at result (AtTip text.now at) }
{
    let e = pass_number(text, at)?;
    pass_branch(text, e)
}

// ---- the sides of the open parentheses

// Whether a comma stands before the innermost parenthesis that is open at `at`. By index: the byte before the parenthesis is read too.
#[tactic(auto, using(crate::proofs::SideLaws::comma_laws))]
fn comma_before(text: &[u8], at: usize) -> bool
    requires { at ≤ length text.now }
    ensures { result ≡ comma_before text.now at }
{
    let mut i = at;
    let mut inner: usize = 0;
    while 0 < i {
        i -= 1;
        let b = text[i];
        if b == b'(' {
            if inner == 0 {
                if i == 0 {
                    return false;
                }
                return text[i - 1] == b',';
            }
            inner -= 1;
        } else if b == b')' {
            inner += 1;
        }
    }
    false
}

// The side of the parenthesis around one that closes at `at`, where so many stay open.
#[tactic(auto, using(crate::proofs::SideLaws::keep_laws))]
fn side_around(text: &[u8], at: usize, outer: usize, sides: &[bool]) -> bool
    requires { Closes text.now at outer sides.now }
    ensures { result ≡ comma_before text.now at }
{
    if outer < sides.len() {
        sides[outer]
    } else {
        comma_before(text, at)
    }
}

// A side, where the array has room for it.
#[tactic(auto, using(crate::proofs::SideLaws::keep_laws))]
fn keep(sides: &mut [bool], depth: usize, side: bool)
    ensures { sides.new ≡ set sides.old depth side }
{
    if depth < sides.len() {
        sides[depth] = side;
    }
}

// ---- the pass

// The answer where no byte of those that lead on stands.
#[tactic(auto, using(crate::proofs::TokenLaws::byte_laws))]
fn stop(text: &[u8], at: usize) -> Result<(), Misspelling>
    ensures { result ≡ stopped text.now at }
{
    Err(if at < text.len() {
        Misspelling::Forbidden(at)
    } else {
        Misspelling::Unfinished
    })
}

// Behind the last parenthesis.
#[tactic(auto, using(crate::proofs::TokenLaws::byte_laws, crate::proofs::PassLaws::end_laws))]
fn spell_end(text: &[u8], at: usize) -> Result<(), Misspelling>
    ensures { Finishes text.now at result }
{
    if !is_sign(text, at, b';') {
        return stop(text, at);
    }
    let after = at + 1;
    if after < text.len() {
        Err(Misspelling::Forbidden(after))
    } else {
        Ok(())
    }
}

// Behind a second subtree: its parenthesis, and the branch above that.
#[tactic(auto, using(crate::proofs::PassLaws::close_laws))]
fn close_one(text: &[u8], q: Scan, sides: &[bool]) -> Passed
    requires { Stands text.now q.at Branch q.depth true sides.now }
    ensures { Reaches text.now q.at result Branch sides.now }
{
    let at = q.at;
    if !is_sign(text, at, b')') {
        return ControlFlow::Break(stop(text, at));
    }
    let outer = q.depth - 1;
    if outer == 0 {
        return ControlFlow::Break(spell_end(text, at + 1));
    }
    let side = side_around(text, at, outer, sides);
    match pass_branch(text, at + 1) {
        Ok(e) => ControlFlow::Continue(Scan {
            at: e,
            depth: outer,
            side,
        }),
        Err(x) => ControlFlow::Break(stop(text, x)),
    }
}

// Behind a subtree: all that it ends, and a comma.
#[tactic(auto, using(crate::proofs::PassLaws::close_laws))]
fn close_all(text: &[u8], from: Scan, sides: &[bool]) -> Passed
    requires { Stands text.now from.at Branch from.depth from.side sides.now }
    ensures { Reaches text.now from.at result Sub sides.now }
{
    let mut q = from;
    while q.side {
        q = close_one(text, q, sides)?;
    }
    if !is_sign(text, q.at, b',') {
        return ControlFlow::Break(stop(text, q.at));
    }
    ControlFlow::Continue(Scan {
        at: q.at + 1,
        side: true,
        ..q
    })
}

// From a tip to the next subtree.
#[tactic(auto, using(crate::proofs::PassLaws::pass_laws))]
fn pass_subtree(text: &[u8], q: Scan, sides: &[bool]) -> Passed
    requires { AtTip text.now q.at q.depth q.side sides.now }
    ensures { Reaches text.now q.at result Sub sides.now }
{
    match pass_tip(text, q.at) {
        Ok(e) => close_all(text, Scan { at: e, ..q }, sides),
        Err(x) => ControlFlow::Break(stop(text, x)),
    }
}

// Behind the first parenthesis.
#[tactic(auto, using(crate::proofs::TokenLaws::byte_laws, crate::proofs::PassLaws::pass_laws))]
fn spell_inside(text: &[u8], sides: &mut [bool]) -> Result<(), Misspelling>
    requires { Stands text.now 1 Sub 1 false sides.old }
    ensures { result ≡ spelling_of text.now }
{
    let mut q = Scan {
        at: 1,
        depth: 1,
        side: false,
    };
    loop {
        if is_sign(text, q.at, b'(') {
            keep(sides, q.depth, q.side);
            q = Scan {
                at: q.at + 1,
                depth: q.depth + 1,
                side: false,
            };
        } else {
            match pass_subtree(text, q, sides) {
                ControlFlow::Continue(to) => {
                    q = to;
                }
                ControlFlow::Break(told) => {
                    return told;
                }
            }
        }
    }
}

// The whole text, whatever the array holds before.
#[tactic(auto, using(crate::proofs::PassLaws::pass_laws))]
fn spell_with(text: &[u8], sides: &mut [bool]) -> Result<(), Misspelling>
    ensures { result ≡ spelling_of text.now }
{
    if is_sign(text, 0, b'(') {
        keep(sides, 0, false);
        spell_inside(text, sides)
    } else {
        stop(text, 0)
    }
}

// As many sides as a text of 2,048 tips can have parentheses open, and one more.
pub fn spell(text: &[u8]) -> Result<(), Misspelling>
    ensures { result ≡ spelling_of text.now }
{
    let mut sides = [false; 2048];
    spell_with(text, &mut sides)
}
