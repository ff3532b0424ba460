// WideExchange and NarrowExchange: two nodes of a lent tree change places, the port of the functions of the same names of rove's moves.rs. Each has
// the call of its name, which refuses what is not in order, and an unvalidated one, which leaves the tree unchecked; both take whatever is lent. The
// unvalidated one leaves of an accepted tree what the checked one leaves, and of any slices what is `Harmless` of calls. Assumes nothing.
#![tactic(auto)]

ghost use Rattle.std.specs.Prelude.{◌≡◌};
ghost use Rattle.random.specs.Draw.{pick, run, drawn};
ghost use Rattle.tree.specs.Tree.{nodes_of};
ghost use Rattle.tree.specs.Valid.{Valid};
ghost use Rattle.tree.specs.Given.{tree_of, dates_in, kin_in};
ghost use Rattle.rules.specs.Rules.{grand, grands, narrow_declines, wide_declines};
ghost use Rattle.calls.specs.Call.{called};
ghost use Rattle.moves.specs.Programs as Programs;
ghost use Rattle.moves.specs.Moves.{narrow_exchange, wide_exchange, move_call, UnvalidatedCall};
ghost use Rattle.calls.specs.Given.{after, turn_of};
ghost use Rattle.calls.specs.Harmless.{Turning};
ghost use Rattle.exchanges.specs.Given.{pairs_in, spends, taller_in, side_in, uncle_in, narrow_turn, AtInner, Narrows};
ghost use Rattle.moves.specs.Programs.{apart, grandparent, narrow_under};

use answer::Ratio;
use calls::{Answered, Turn, Turned};
use random::{Random, Supply};
use tree::Tree;

// A turn without the draws that it needs.
fn spent(s: Supply) -> Turn
    ensures { result ≡ spends s }
{
    Turn {
        turned: Turned::Spent,
        supply: s,
    }
}

// A node of n other than the root and i.
#[tactic(auto, using(crate::proofs::WideLaws::apart_laws))]
fn apart(mut s: Supply, n: usize, root: usize, i: usize) -> Option<(usize, Supply)>
    ensures { result ≡ drawn (pick (apart n root i) s) }
{
    loop {
        let (k, next) = calls::non_root(s, n, root)?;
        if k != i {
            return Some((k, next));
        }
        s = next;
    }
}

// Whether the exchange of i and j is declined.
#[tactic(auto, unfolding(rules::specs::Rules::wide_declines, tree::specs::Tree::parent, tree::specs::Tree::height))]
fn wide_declines(parents: &[u16], heights: &[f64], i: usize, j: usize) -> bool
    ensures { result ≡ wide_declines (dates_in parents.now heights.now 0) i j }
{
    let p = reads::parent(parents, i);
    let q = reads::parent(parents, j);
    p == q
        || i == q
        || j == p
        || reads::height(heights, p) <= reads::height(heights, j)
        || reads::height(heights, q) <= reads::height(heights, i)
}

// Two nodes other than the root are drawn, and change places.
#[tactic(auto, using(crate::proofs::WideLaws::wide_laws))]
fn wide_exchange_turn(
    pairs: &mut [u16],
    parents: &mut [u16],
    heights: &[f64],
    root: usize,
    s: Supply,
) -> Turn
    ensures { Turning (Valid (nodes_of pairs.old) (tree_of pairs.old parents.old heights.now root)) (turn_of (tree_of pairs.old parents.old heights.now root) s (run (Programs.wide_exchange (tree_of pairs.old parents.old heights.now root)) s)) (tree_of pairs.old parents.old heights.now root) s (after result pairs.new parents.new heights.now) }
{
    let n = pairs.len() / 2;
    let Some((i, between)) = calls::non_root(s, n, root) else {
        return spent(s);
    };
    let Some((j, supply)) = apart(between, n, root, i) else {
        return spent(s);
    };
    if wide_declines(parents, heights, i, j) {
        return Turn {
            turned: Turned::Declined,
            supply,
        };
    }
    let top = edits::exchange(pairs, parents, root, i, j);
    Turn {
        turned: Turned::Moved(top, Ratio::Even),
        supply,
    }
}

// WideExchange, by at most `allowance` draws, the tree being left unvalidated.
#[tactic(auto, using(calls::proofs::EntryLaws::unvalidated_laws))]
pub fn wide_exchange_unvalidated(
    pairs: &mut [u16],
    parents: &mut [u16],
    heights: &[f64],
    root: usize,
    random: Random,
    allowance: u32,
) -> Answered
    ensures { UnvalidatedCall wide_exchange (tree_of pairs.old parents.old heights.now root) random allowance (called result.answer result.random pairs.new parents.new heights.now) }
{
    if let Err(why) = calls::check_limits(true, allowance) {
        return calls::refuse(why, random);
    }
    let s = Supply {
        random,
        left: allowance,
    };
    let turn = wide_exchange_turn(pairs, parents, heights, root, s);
    calls::answer(turn, random, allowance)
}

// WideExchange, by at most `allowance` draws.
#[tactic(auto, using(calls::proofs::EntryLaws::entry_laws))]
pub fn wide_exchange(
    pairs: &mut [u16],
    parents: &mut [u16],
    heights: &[f64],
    root: usize,
    random: Random,
    allowance: u32,
) -> Answered
    ensures { called result.answer result.random pairs.new parents.new heights.now ≡ move_call wide_exchange (tree_of pairs.old parents.old heights.now root) random allowance }
{
    let tree = Tree {
        pairs: &*pairs,
        parents: &*parents,
        heights,
        root,
    };
    if let Err(why) = quick::validate(&tree) {
        return calls::refuse(why, random);
    }
    wide_exchange_unvalidated(pairs, parents, heights, root, random, allowance)
}

// Whether k is an internal node of n with an internal child.
#[tactic(auto, unfolding(rules::specs::Rules::grand))]
fn is_grand(pairs: &[u16], n: usize, k: usize) -> bool
    ensures { result ≡ grand n (pairs_in pairs.now) k }
{
    // By `|`: one branch in place of two.
    reads::is_inner(n, k)
        && (reads::is_inner(n, reads::first(pairs, k))
            | reads::is_inner(n, reads::second(pairs, k)))
}

// How many of n nodes are such grandparents; no tip is one.
#[tactic(auto, using(crate::proofs::GrandLaws::grands_laws))]
fn grands(pairs: &[u16], n: usize) -> usize
    ensures { result ≡ grands n (pairs_in pairs.now) n }
{
    let mut count = 0;
    for k in n - n / 2..n {
        if is_grand(pairs, n, k) {
            count += 1;
        }
    }
    count
}

// One of them, drawn.
#[tactic(auto, using(crate::proofs::GrandLaws::grandparent_laws))]
fn grandparent(mut s: Supply, pairs: &[u16], n: usize) -> Option<(usize, Supply)>
    ensures { result ≡ drawn (pick (grandparent n (pairs_in pairs.now)) s) }
{
    loop {
        let (k, next) = calls::internal(s, n)?;
        if is_grand(pairs, n, k) {
            return Some((k, next));
        }
        s = next;
    }
}

// Its taller child, the first if equal.
#[tactic(auto, unfolding(crate::specs::Given::taller_in, tree::specs::Tree::height))]
fn taller(pairs: &[u16], heights: &[f64], g: usize) -> usize
    ensures { result ≡ taller_in pairs.now heights.now g }
{
    let a = reads::first(pairs, g);
    let b = reads::second(pairs, g);
    if reads::height(heights, a) < reads::height(heights, b) {
        b
    } else {
        a
    }
}

// The other one.
#[tactic(auto, unfolding(crate::specs::Given::uncle_in, tree::specs::Tree::height))]
fn uncle(pairs: &[u16], heights: &[f64], g: usize) -> usize
    ensures { result ≡ uncle_in pairs.now heights.now g }
{
    let a = reads::first(pairs, g);
    let b = reads::second(pairs, g);
    if reads::height(heights, a) < reads::height(heights, b) {
        a
    } else {
        b
    }
}

// One side of the taller child.
#[tactic(auto, unfolding(crate::specs::Given::side_in))]
fn side(pairs: &[u16], heights: &[f64], g: usize, coin: bool) -> usize
    ensures { result ≡ side_in pairs.now heights.now g coin }
{
    let parent = taller(pairs, heights, g);
    if coin {
        reads::first(pairs, parent)
    } else {
        reads::second(pairs, parent)
    }
}

// Whether the exchange under the grandparent g is declined.
#[tactic(auto, unfolding(rules::specs::Rules::narrow_declines, crate::specs::Given::taller_in))]
fn narrow_declines(pairs: &[u16], heights: &[f64], n: usize, g: usize) -> bool
    ensures { result ≡ narrow_declines n (kin_in pairs.now heights.now) g }
{
    calls::is_one_internal(n) || !reads::is_inner(n, taller(pairs, heights, g))
}

// The exchange under g, once the coin is thrown: that side of the taller child and the uncle change places.
#[tactic(auto, using(crate::proofs::NarrowLaws::narrow_laws))]
fn narrow(
    pairs: &mut [u16],
    parents: &mut [u16],
    heights: &[f64],
    root: usize,
    g: usize,
    coin: bool,
    s: Supply,
) -> Turn
    ensures { Turning (Narrows (nodes_of pairs.old) (tree_of pairs.old parents.old heights.now root) g) (narrow_turn (nodes_of pairs.old) (tree_of pairs.old parents.old heights.now root) g coin s) (tree_of pairs.old parents.old heights.now root) s (after result pairs.new parents.new heights.now) }
{
    let n = pairs.len() / 2;
    let before = grands(pairs, n);
    let child = side(pairs, heights, g, coin);
    let uncle = uncle(pairs, heights, g);
    let top = edits::exchange(pairs, parents, root, child, uncle);
    let after = grands(pairs, n);
    Turn {
        turned: Turned::Moved(top, Ratio::Counts(before, after)),
        supply: s,
    }
}

// What is left of the turn once g is drawn: s is the supply as it came to the turn, `drawn` the one after g.
#[tactic(auto, using(crate::proofs::NarrowLaws::under_laws))]
fn narrow_under(
    pairs: &mut [u16],
    parents: &mut [u16],
    heights: &[f64],
    root: usize,
    g: usize,
    drawn: Supply,
    s: Supply,
) -> Turn
    ensures { Turning (AtInner (nodes_of pairs.old) (tree_of pairs.old parents.old heights.now root) g) (turn_of (tree_of pairs.old parents.old heights.now root) s (run (narrow_under (nodes_of pairs.old) (tree_of pairs.old parents.old heights.now root) g) drawn)) (tree_of pairs.old parents.old heights.now root) drawn (after result pairs.new parents.new heights.now) }
{
    let n = pairs.len() / 2;
    if narrow_declines(pairs, heights, n, g) {
        return Turn {
            turned: Turned::Declined,
            supply: drawn,
        };
    }
    let Some((coin, supply)) = drawn.coin() else {
        return spent(s);
    };
    narrow(pairs, parents, heights, root, g, coin, supply)
}

// A grandparent and a side of its taller child are drawn, and that side and the uncle change places.
#[tactic(auto, using(crate::proofs::NarrowLaws::narrow_turn_laws))]
fn narrow_exchange_turn(
    pairs: &mut [u16],
    parents: &mut [u16],
    heights: &[f64],
    root: usize,
    s: Supply,
) -> Turn
    ensures { Turning (Valid (nodes_of pairs.old) (tree_of pairs.old parents.old heights.now root)) (turn_of (tree_of pairs.old parents.old heights.now root) s (run (Programs.narrow_exchange (tree_of pairs.old parents.old heights.now root)) s)) (tree_of pairs.old parents.old heights.now root) s (after result pairs.new parents.new heights.now) }
{
    let n = pairs.len() / 2;
    if calls::is_one_internal(n) {
        return Turn {
            turned: Turned::Declined,
            supply: s,
        };
    }
    let Some((g, drawn)) = grandparent(s, pairs, n) else {
        return spent(s);
    };
    narrow_under(pairs, parents, heights, root, g, drawn, s)
}

// NarrowExchange, by at most `allowance` draws, the tree being left unvalidated.
#[tactic(auto, using(calls::proofs::EntryLaws::unvalidated_laws))]
pub fn narrow_exchange_unvalidated(
    pairs: &mut [u16],
    parents: &mut [u16],
    heights: &[f64],
    root: usize,
    random: Random,
    allowance: u32,
) -> Answered
    ensures { UnvalidatedCall narrow_exchange (tree_of pairs.old parents.old heights.now root) random allowance (called result.answer result.random pairs.new parents.new heights.now) }
{
    if let Err(why) = calls::check_limits(true, allowance) {
        return calls::refuse(why, random);
    }
    let s = Supply {
        random,
        left: allowance,
    };
    let turn = narrow_exchange_turn(pairs, parents, heights, root, s);
    calls::answer(turn, random, allowance)
}

// NarrowExchange, by at most `allowance` draws.
#[tactic(auto, using(calls::proofs::EntryLaws::entry_laws))]
pub fn narrow_exchange(
    pairs: &mut [u16],
    parents: &mut [u16],
    heights: &[f64],
    root: usize,
    random: Random,
    allowance: u32,
) -> Answered
    ensures { called result.answer result.random pairs.new parents.new heights.now ≡ move_call narrow_exchange (tree_of pairs.old parents.old heights.now root) random allowance }
{
    let tree = Tree {
        pairs: &*pairs,
        parents: &*parents,
        heights,
        root,
    };
    if let Err(why) = quick::validate(&tree) {
        return calls::refuse(why, random);
    }
    narrow_exchange_unvalidated(pairs, parents, heights, root, random, allowance)
}
