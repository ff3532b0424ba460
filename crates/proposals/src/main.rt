// Runs the calls of the seven tree moves on tree F, on small trees and on the smallest and the largest that are accepted: moved, declined and
// refused for each reason that can be met. A line has the call and the answer, then the tree and the generator's words after the call; floats are
// given by their bits. "Document 01" is the client's scope paper. Assumes nothing.
#![tactic(auto)]

use crate::Move::{Narrow, NodeHeight, RootScale, Slide, SlideStart, TreeScale, Wide, Wilson};
use crate::Sample::{Comb, F, Flat, Fork, Nine, Slid, Three};
use answer::{Answer, Refusal};
use lines::{Bits, Floats, Marks, Or, Said, Words};
use random::Random;
use samples::Generator::Seed;
use samples::{
    F_HEIGHTS, F_PAIRS, F_PARENTS, FULL, Generator, NONE, OVER_ONE, SMALLEST, START, THEN_ZERO,
    UNDER_ONE, UNDER_TUNING, UPPER, ZERO, ZEROS, put_comb, put_heights,
};
use slide::SlideNode;
use std::fmt::Display;
use std::io::{BufWriter, Write};
use std::{fmt, io};
use tree::Tree;

// A move with its parameters. `SlideStart` is the first call of a slide, `Slide` the second.
#[derive(Clone, Copy)]
enum Move {
    NodeHeight,
    SlideStart,
    Slide(usize, f64),
    Narrow,
    Wide,
    Wilson,
    RootScale(f64),
    TreeScale(f64),
}

impl Display for Move {
    fn fmt<W: fmt::Write>(&self, f: &mut fmt::Formatter<W>) -> fmt::Result {
        match *self {
            NodeHeight => write!(f, "node height"),
            SlideStart => write!(f, "slide start"),
            Slide(i, x) => write!(f, "slide of {i} by {}", Bits(x)),
            Narrow => write!(f, "narrow"),
            Wide => write!(f, "wide"),
            Wilson => write!(f, "wilson"),
            RootScale(s) => write!(f, "root scale by {}", Bits(s)),
            TreeScale(s) => write!(f, "tree scale by {}", Bits(s)),
        }
    }
}

// A move, with its generator and its allowance.
#[derive(Clone, Copy)]
struct Call {
    to: Move,
    from: Generator,
    allowance: u32,
}

// By document 01's generator.
fn started(to: Move, allowance: u32) -> Call {
    Call {
        to,
        from: START,
        allowance,
    }
}

// What a call gives: a slide's first call a node and its draws, any other a tree's answer.
#[derive(Clone, Copy)]
enum Outcome {
    Begun(Result<SlideNode, Refusal>),
    Answered(Answer),
}

impl Display for Outcome {
    fn fmt<W: fmt::Write>(&self, f: &mut fmt::Formatter<W>) -> fmt::Result {
        match *self {
            Outcome::Begun(Ok(start)) => write!(
                f,
                "node={} first={} second={} draws={}",
                start.node,
                Bits(start.first),
                Bits(start.second),
                start.draws
            ),
            Outcome::Begun(Err(why)) => write!(f, "{}", Said(why)),
            Outcome::Answered(answer) => write!(f, "{}", Said(answer)),
        }
    }
}

// The children of the internal nodes.
#[derive(Clone, Copy)]
struct Pairs<'a>(&'a [u16]);

impl Display for Pairs<'_> {
    fn fmt<W: fmt::Write>(&self, f: &mut fmt::Formatter<W>) -> fmt::Result {
        let tips = self.0.len() / 4 + 1;
        for pair in self.0.chunks_exact(2).skip(tips) {
            write!(f, " {},{}", pair[0], pair[1])?;
        }
        Ok(())
    }
}

// Makes the call. What it gives, and the generator after it.
fn make(
    call: Call,
    pairs: &mut [u16],
    over: &mut [u16],
    at: &mut [f64],
    root: usize,
) -> (Outcome, Random) {
    let g = call.from.random();
    let m = call.allowance;
    let made = match call.to {
        SlideStart => {
            let tree = Tree {
                pairs,
                parents: over,
                heights: at,
                root,
            };
            let begun = slide::slide_start(&tree, g, m);
            return (Outcome::Begun(begun.answer), begun.random);
        }
        NodeHeight => heights::node_height(pairs, over, at, root, g, m),
        Slide(i, x) => slide::subtree_slide(pairs, over, at, root, i, x, g, m),
        Narrow => exchanges::narrow_exchange(pairs, over, at, root, g, m),
        Wide => exchanges::wide_exchange(pairs, over, at, root, g, m),
        Wilson => wilson::wilson_balding(pairs, over, at, root, g, m),
        RootScale(s) => heights::root_scale(pairs, over, at, root, s, g, m),
        TreeScale(s) => heights::tree_scale(pairs, over, at, root, s, g, m),
    };
    (Outcome::Answered(made.answer), made.random)
}

fn line(
    out: &mut impl Write,
    tree: &str,
    call: Call,
    pairs: &mut [u16],
    parents: &mut [u16],
    heights: &mut [f64],
    root: usize,
) -> io::Result<()> {
    let Call {
        to,
        from,
        allowance,
    } = call;
    write!(
        out,
        "{to} on {tree} at{}, {from}, allowance {allowance}: ",
        Floats(heights)
    )?;
    let (outcome, random) = make(call, pairs, parents, heights, root);
    writeln!(
        out,
        "{outcome} pairs{} parents{} heights{} state {}",
        Pairs(pairs),
        Marks(parents),
        Floats(heights),
        Words(random.state())
    )
}

// A tree of one of seven shapes, with its heights.
#[derive(Clone, Copy)]
enum Sample {
    // Tree F of document 01: 3 = (0, 1), 4 = (3, 2).
    F([f64; 5]),
    // 3 = (0, 1), 4 = (2, 3).
    Flat([f64; 5]),
    // F when 0 was slid to 3: 3 = (0, 4), 4 = (1, 2).
    Slid([f64; 5]),
    // 2 = (0, 1).
    Three([f64; 3]),
    // 4 = (0, 1), 5 = (2, 3), 6 = (4, 5).
    Fork([f64; 7]),
    // 4 = (0, 1), 5 = (4, 2), 6 = (5, 3).
    Comb([f64; 7]),
    // 5 = (0, 1), 6 = (2, 3), 7 = (5, 6), 8 = (7, 4).
    Nine([f64; 9]),
}

// The trees with their own heights.
const TREE_F: Sample = F(F_HEIGHTS);

const TREE_SLID: Sample = Slid([0.0, 0.0, 0.0, 3.0, 2.0]);

const TREE_THREE: Sample = Three([0.0, 0.0, 1.0]);

const TREE_FORK: Sample = Fork([0.0, 0.0, 0.0, 0.0, 1.0, 2.0, 3.0]);

const TREE_COMB: Sample = Comb([0.0, 0.0, 0.0, 0.0, 1.0, 2.0, 3.0]);

const TREE_NINE: Sample = Nine([0.0, 0.0, 0.0, 0.0, 0.0, 1.0, 2.0, 3.0, 4.0]);

// On a tree that is not used again.
fn once<const P: usize, const N: usize, const H: usize>(
    out: &mut impl Write,
    name: &str,
    call: Call,
    mut pairs: [u16; P],
    mut parents: [u16; N],
    mut at: [f64; H],
    root: usize,
) -> io::Result<()> {
    line(out, name, call, &mut pairs, &mut parents, &mut at, root)
}

// On five nodes with these children of 3 and of 4, these parents and this root.
fn five(
    out: &mut impl Write,
    name: &str,
    under: [u16; 4],
    parents: [u16; 5],
    root: usize,
    at: [f64; 5],
    call: Call,
) -> io::Result<()> {
    let [a, b, c, d] = under;
    let pairs = [NONE, NONE, NONE, NONE, NONE, NONE, a, b, c, d];
    once(out, name, call, pairs, parents, at, root)
}

// On seven nodes with these children of 4, of 5 and of the root 6.
fn seven(
    out: &mut impl Write,
    name: &str,
    under: [u16; 6],
    parents: [u16; 7],
    at: [f64; 7],
    call: Call,
) -> io::Result<()> {
    let mut pairs = [NONE; 14];
    pairs[8..].copy_from_slice(&under);
    once(out, name, call, pairs, parents, at, 6)
}

fn on(out: &mut impl Write, tree: Sample, call: Call) -> io::Result<()> {
    match tree {
        F(at) => five(out, "F", [0, 1, 3, 2], [3, 3, 4, 4, NONE], 4, at, call),
        Flat(at) => five(out, "flat", [0, 1, 2, 3], [3, 3, 4, 4, NONE], 4, at, call),
        Slid(at) => five(out, "slid", [0, 4, 1, 2], [3, 4, 4, NONE, 3], 3, at, call),
        Three(at) => {
            let pairs = [NONE, NONE, NONE, NONE, 0, 1];
            once(out, "3 nodes", call, pairs, [2, 2, NONE], at, 2)
        }
        Fork(at) => {
            let parents = [4, 4, 5, 5, 6, 6, NONE];
            seven(out, "fork", [0, 1, 2, 3, 4, 5], parents, at, call)
        }
        Comb(at) => {
            let parents = [4, 4, 5, 6, 5, 6, NONE];
            seven(out, "comb", [0, 1, 4, 2, 5, 3], parents, at, call)
        }
        Nine(at) => {
            let mut pairs = [NONE; 18];
            pairs[10..].copy_from_slice(&[0, 1, 2, 3, 5, 6, 7, 4]);
            let parents = [5, 5, 6, 6, 8, 7, 7, 8, NONE];
            once(out, "nine", call, pairs, parents, at, 8)
        }
    }
}

// A line on the answer alone, of a comb that the slices have room for.
fn brief(
    out: &mut impl Write,
    tree: &str,
    call: Call,
    pairs: &mut [u16],
    parents: &mut [u16],
    heights: &mut [f64],
) -> io::Result<()> {
    put_heights(heights);
    put_comb(pairs);
    let _ = tree::new(pairs, heights, parents);
    let root = heights.len() / 2 * 2;
    let (outcome, _) = make(call, pairs, parents, heights, root);
    let Call {
        to,
        from,
        allowance,
    } = call;
    writeln!(
        out,
        "{to} on {tree}, {from}, allowance {allowance}: {outcome}"
    )
}

// Trees of 1, 2, 4 and 4,097 nodes are refused, those of 3 and 4,095 accepted.
fn sizes(out: &mut impl Write, to: Move) -> io::Result<()> {
    let call = started(to, 9);
    once(out, "1 node", call, [NONE; 2], [NONE], [0.0], 0)?;
    once(out, "2 nodes", call, [NONE; 4], [1, NONE], [0.0, 1.0], 1)?;
    let pairs = [NONE, NONE, NONE, NONE, 0, 1, 2, 0];
    let at = [0.0, 0.0, 1.0, 1.0];
    once(out, "4 nodes", call, pairs, [2, 2, 3, NONE], at, 3)?;
    too_many(out, call)?;
    on(out, TREE_THREE, call)?;
    most(out, call)
}

fn too_many(out: &mut impl Write, call: Call) -> io::Result<()> {
    let mut pairs = [NONE; 8194];
    let mut parents = [NONE; 4097];
    let mut at = [0.0; 4097];
    brief(out, "4097 nodes", call, &mut pairs, &mut parents, &mut at)
}

fn most(out: &mut impl Write, call: Call) -> io::Result<()> {
    let mut pairs = [NONE; 8190];
    let mut parents = [NONE; 4095];
    let mut at = [0.0; 4095];
    brief(out, "4095 nodes", call, &mut pairs, &mut parents, &mut at)
}

// Each call, with this step of the slide.
fn each(step: f64) -> [Move; 8] {
    [
        NodeHeight,
        SlideStart,
        Slide(0, step),
        Narrow,
        Wide,
        Wilson,
        RootScale(0.5),
        TreeScale(0.5),
    ]
}

fn all_sizes(out: &mut impl Write) -> io::Result<()> {
    for to in each(4000.0) {
        sizes(out, to)?;
    }
    Ok(())
}

// Just outside the limits of an allowance, and at the upper one.
fn allowances(out: &mut impl Write) -> io::Result<()> {
    for to in each(0.5) {
        for allowance in [0, 65536] {
            on(out, TREE_F, started(to, allowance))?;
        }
    }
    for to in each(0.5) {
        on(out, TREE_F, started(to, 65535))?;
    }
    Ok(())
}

// F with other children, or another parent or root.
fn faults(out: &mut impl Write) -> io::Result<()> {
    let call = started(Wide, 9);
    let own = [3, 3, 4, 4, NONE];
    for (name, under, parents, root) in [
        ("F with equal children", [0, 0, 3, 2], own, 4),
        ("F with a shared child", [0, 1, 1, 9], own, 4),
        ("F with a child out of range", [0, 1, 9, 1], own, 4),
        ("F with a ring", [4, 0, 3, 1], [3, 4, NONE, 4, 3], 2),
        ("F with another parent", [0, 1, 3, 2], [3, 3, 3, 4, NONE], 4),
        ("F with another root", [0, 1, 3, 2], own, 3),
        ("F with no root", [0, 1, 3, 2], own, 5),
    ] {
        five(out, name, under, parents, root, F_HEIGHTS, call)?;
    }
    Ok(())
}

// F with one height too few; then a dated tip ends above its parent, and the next call is refused.
fn altered(out: &mut impl Write) -> io::Result<()> {
    let mut pairs = F_PAIRS;
    let mut parents = F_PARENTS;
    let four = [0.0, 0.0, 0.0, 1.0];
    let call = started(Wilson, 9);
    once(out, "F with four heights", call, pairs, parents, four, 4)?;
    let mut at = [0.75, 0.0, 0.0, 1.0, 2.0];
    for (name, to) in [
        ("F dated", TreeScale(0.5)),
        ("F with tip 0 above 3", TreeScale(0.5)),
        ("F with tip 0 above 3", Wide),
    ] {
        let call = started(to, 9);
        line(out, name, call, &mut pairs, &mut parents, &mut at, 4)?;
    }
    Ok(())
}

// Heights between two ends: a refusal 8 is where one is outside, which no call on an accepted tree can meet.
fn intervals(out: &mut impl Write) -> io::Result<()> {
    for (name, lower, upper, u) in [
        ("from 2 to 1 by 0.5", 2.0, 1.0, 0.5),
        ("from 2 to 1 by 0", 2.0, 1.0, 0.0),
        ("from 1 to 1 by 0.5", 1.0, 1.0, 0.5),
        ("from 1 to 2 by 0", 1.0, 2.0, 0.0),
        ("from 1 to 2 by 0.5", 1.0, 2.0, 0.5),
        ("from 1 to a NaN by 0.5", 1.0, f64::NAN, 0.5),
    ] {
        let height = calls::interpolate(lower, upper, u);
        writeln!(out, "{name}: {}", Or(height.map(Bits), "outside"))?;
    }
    Ok(())
}

// A tree, a move, its generator and its allowance.
type Row = (Sample, Move, Generator, u32);

const NODE_HEIGHTS: &[Row] = &[
    (TREE_F, NodeHeight, START, 9), // Node 3.
    (F([0.25, 0.5, 0.0, 1.0, 2.0]), NodeHeight, THEN_ZERO, 9), // To its taller child.
    (TREE_F, NodeHeight, ZEROS, 9), // Node 3 to 0.
    (TREE_SLID, NodeHeight, Seed(6), 9), // Node 4 below the root 3.
    (TREE_SLID, NodeHeight, Seed(7), 9), // The root first.
    (TREE_NINE, NodeHeight, Seed(7), 9), // Node 5.
    (TREE_NINE, NodeHeight, Seed(8), 9), // Node 6.
    (TREE_NINE, NodeHeight, Seed(6), 9), // Node 7.
    (TREE_NINE, NodeHeight, Seed(19), 9), // The root first.
    (TREE_THREE, NodeHeight, START, 9), // One internal node.
];

const NODE_HEIGHTS_BETWEEN: &[Row] = &[
    (F([0.0, 1.0, 0.0, 1.0, OVER_ONE]), NodeHeight, Seed(6), 9), // A gap of one, low.
    (F([0.0, 1.0, 0.0, 1.0, OVER_ONE]), NodeHeight, Seed(10), 9), // A gap of one, high.
    (F([0.0, 1.0, 1.0, 1.0, 1.0]), NodeHeight, Seed(10), 9), // No gap.
    (F([-0.0; 5]), NodeHeight, Seed(10), 9), // No gap at -0.0.
    (F([-0.0, -0.0, 0.0, 1.0, 2.0]), NodeHeight, THEN_ZERO, 9), // Children at -0.0.
    (F([0.0, -0.0, 0.0, 1.0, 2.0]), NodeHeight, THEN_ZERO, 9), // Children at both zeros.
    (F([0.0, 0.0, 0.0, 1.0, f64::MAX]), NodeHeight, Seed(10), 9), // Up to the largest.
    (F([f64::MAX; 5]), NodeHeight, Seed(10), 9), // All at the largest.
    (F([0.0, 0.0, 0.0, 0.0, SMALLEST]), NodeHeight, Seed(10), 9), // The least gap over 0.
    // Dated tips.
    (
        Comb([0.5, 0.75, 1.5, 0.25, 1.0, 2.0, 3.0]),
        NodeHeight,
        Seed(6),
        9,
    ),
];

const NODE_HEIGHTS_SPENT: &[Row] = &[
    (TREE_F, NodeHeight, Seed(6), 3), // The root twice, one draw short.
    (TREE_F, NodeHeight, Seed(6), 4), // The root twice, exact.
    (TREE_F, NodeHeight, Seed(6), 5), // The root twice, one more.
    (TREE_FORK, NodeHeight, ZEROS, 65535), // Of three nodes.
];

const SLIDE_STARTS: &[Row] = &[
    (TREE_F, SlideStart, START, 9), // F.
    (TREE_F, SlideStart, ZERO, 9), // 0 is drawn again.
    (TREE_F, SlideStart, Seed(14), 9), // The root first.
    (TREE_SLID, SlideStart, Seed(7), 9), // Root 3.
    (TREE_SLID, SlideStart, Seed(24), 9), // The root 3 first.
    (TREE_THREE, SlideStart, START, 9), // Three nodes.
    (TREE_NINE, SlideStart, Seed(6), 9), // Nine nodes.
    (TREE_F, SlideStart, ZEROS, 65535), // Never.
    (TREE_F, SlideStart, Seed(14), 3), // The root once, one draw short.
    (TREE_F, SlideStart, Seed(14), 4), // The root once, exact.
    (TREE_F, SlideStart, Seed(14), 5), // The root once, one more.
];

const SLIDES_UP: &[Row] = &[
    (TREE_F, Slide(0, 2.0), START, 1), // 0 by 2 over the root.
    (TREE_F, Slide(1, 2.0), START, 9), // 1 by 2 over the root.
    (TREE_F, Slide(0, 0.5), START, 9), // 0 by 0.5 on its branch.
    (TREE_F, Slide(0, 1.0), START, 9), // 0 by 1 as high as the root.
    (TREE_F, Slide(0, 1.0000000000000004), START, 9), // 0 by the least over 1.
    (TREE_F, Slide(2, 1.0), START, 9), // 2 by 1 with the root.
    (TREE_F, Slide(3, 5.0), START, 9), // 3 by 5 with the root.
    (TREE_COMB, Slide(0, 1.5), START, 9), // 0 by 1.5 onto 5.
    (TREE_COMB, Slide(1, 2.5), START, 9), // 1 by 2.5 over the root.
    (TREE_COMB, Slide(4, 1.5), START, 9), // 4 by 1.5 over the root.
    (TREE_COMB, Slide(2, 1.0), START, 9), // 2 by 1 as high as the root.
    (TREE_NINE, Slide(2, 1.5), START, 9), // 2 by 1.5 onto 7.
    (TREE_NINE, Slide(3, 3.0), START, 9), // 3 by 3 over the root.
    (TREE_NINE, Slide(6, 2.0), START, 9), // 6 by 2 over the root.
];

const SLIDES_UP_ON_TIES: &[Row] = &[
    (F([0.0, 1.0, 1.5, 1.0, 2.0]), Slide(0, 2.0), START, 9), // No branch left.
    (F([0.0, 1.0, 0.0, 1.0, 2.0]), Slide(0, 2.0), START, 9), // Tips as high as P.
    (F([0.0; 5]), Slide(0, 1.0), START, 9), // All at 0.0.
    (F([-0.0; 5]), Slide(0, 1.0), START, 9), // All at -0.0.
];

const SLIDES_PAST_TIES: &[Row] = &[
    // Past two of a height.
    (
        Comb([0.0, 0.0, 0.0, 0.0, 1.0, 2.0, 2.0]),
        Slide(0, 1.5),
        START,
        9,
    ),
    // As high as two.
    (
        Comb([0.0, 0.0, 0.0, 0.0, 1.0, 2.0, 2.0]),
        Slide(0, 1.0),
        START,
        9,
    ),
    // A sibling as high.
    (
        Nine([0.0, 0.0, 0.0, 2.0, 0.0, 1.0, 2.0, 3.0, 4.0]),
        Slide(2, 2.5),
        START,
        9,
    ),
    // P as its parent.
    (
        Nine([0.0, 0.0, 0.0, 0.0, 0.0, 2.0, 2.0, 2.0, 4.0]),
        Slide(0, 1.5),
        START,
        9,
    ),
];

const SLIDES_AT_REST: &[Row] = &[
    (TREE_F, Slide(0, 0.0), START, 9), // 0 by 0.
    (TREE_F, Slide(0, -0.0), START, 9), // 0 by -0.0.
    (TREE_F, Slide(0, 1e-17), START, 9), // What rounds away.
    (TREE_F, Slide(0, -1e-17), START, 9), // What rounds away, down.
    (F([-0.0, -0.0, 0.0, -0.0, 1.0]), Slide(0, 0.0), START, 9), // -0.0 by 0 is 0.0.
    (F([-0.0, -0.0, 0.0, -0.0, 1.0]), Slide(0, -0.0), START, 9), // -0.0 by -0.0.
    (F([0.0, 0.0, 0.0, 0.0, 1.0]), Slide(0, -0.0), START, 9), // 0.0 by -0.0.
    (F([0.5, 0.0, 0.0, 1.0, 2.0]), Slide(0, -0.5), START, 9), // P down to its node.
    (F([0.0, 0.5, 0.0, 1.0, 2.0]), Slide(0, -0.5), START, 9), // P down to its sibling.
    (TREE_F, Slide(2, -1.0), START, 9), // The root down to its child.
];

const SLIDES_DOWN: &[Row] = &[
    (TREE_SLID, Slide(0, -2.0), START, 1), // 0 by -2, index 0.
    (TREE_SLID, Slide(0, -2.0), UPPER, 1), // 0 by -2, index 1.
    (TREE_SLID, Slide(0, -0.5), START, 9), // 0 by -0.5 on its branch.
    (TREE_SLID, Slide(0, -1.0), START, 9), // 0 by -1 as high as its sibling.
    (TREE_SLID, Slide(0, -3.0), START, 9), // 0 by -3, no branch.
    (TREE_NINE, Slide(4, -2.5), Seed(7), 9), // 4 by -2.5, index 0 of 3.
    (TREE_NINE, Slide(4, -2.5), Seed(8), 9), // 4 by -2.5, index 1 of 3.
    (TREE_NINE, Slide(4, -2.5), Seed(6), 9), // 4 by -2.5, index 2 of 3.
    (TREE_NINE, Slide(4, -2.0), Seed(7), 9), // 4 by -2, as high as 6, index 0.
    (TREE_NINE, Slide(4, -2.0), Seed(6), 9), // 4 by -2, as high as 6, index 2.
    (TREE_NINE, Slide(4, -3.0), Seed(7), 9), // 4 by -3, as high as 5, index 0.
    (TREE_NINE, Slide(4, -3.0), Seed(11), 9), // 4 by -3, as high as 5, index 3.
    (TREE_NINE, Slide(5, -1.5), Seed(6), 9), // 5 by -1.5 below 6.
];

const SLIDES_DOWN_DATED: &[Row] = &[
    (Slid([0.0, 1.5, 0.0, 3.0, 2.0]), Slide(0, -2.0), Seed(6), 9), // One branch.
    (Slid([0.0, 0.0, 1.0, 3.0, 2.0]), Slide(0, -2.0), Seed(6), 9), // One branch, the other as high.
    (Slid([0.0, -0.0, -0.0, 3.0, 2.0]), Slide(0, -3.0), START, 9), // -0.0 is not below 0.0.
    // One branch over a node.
    (
        Nine([0.0, 0.0, 1.75, 2.0, 0.0, 1.0, 2.0, 3.0, 4.0]),
        Slide(4, -2.5),
        Seed(6),
        9,
    ),
];

const SLIDES_DECLINED: &[Row] = &[
    (TREE_F, Slide(3, -2.0), START, 1), // The node is above.
    (TREE_F, Slide(0, -1.5), START, 9), // Below zero.
    (F([0.75, 0.75, 0.0, 1.0, 2.0]), Slide(2, -1.5), START, 9), // No branch.
    (F([0.5, 0.5, 0.0, 1.0, 2.0]), Slide(2, -1.5), START, 9), // No branch, as high.
    (TREE_F, Slide(0, -f64::MAX), START, 9), // By the largest down.
];

const SLIDES_SPENT: &[Row] = &[
    (TREE_NINE, Slide(4, -2.5), ZEROS, 65535), // Index of three.
    (TREE_NINE, Slide(4, -2.5), ZERO, 1), // 0 is drawn again, one draw short.
    (TREE_NINE, Slide(4, -2.5), ZERO, 2), // 0 is drawn again, exact.
    (TREE_NINE, Slide(4, -2.5), ZERO, 3), // 0 is drawn again, one more.
    (TREE_NINE, Slide(4, -3.0), ZEROS, 1), // Index of four.
];

const NARROW_MOVED: &[Row] = &[
    (TREE_F, Narrow, START, 9), // 4, side 0.
    (TREE_F, Narrow, Seed(6), 9), // 4, side 0.
    (TREE_F, Narrow, Seed(7), 9), // 4, side 1.
    (TREE_SLID, Narrow, Seed(10), 9), // 3, side 1.
    (TREE_SLID, Narrow, Seed(6), 9), // 3, side 2.
    (TREE_COMB, Narrow, Seed(6), 9), // 6, side 4.
    (TREE_COMB, Narrow, Seed(7), 9), // 6, side 2.
    (TREE_COMB, Narrow, Seed(12), 9), // 5, side 0.
    (TREE_COMB, Narrow, Seed(8), 9), // 5, side 1.
    (TREE_FORK, Narrow, Seed(6), 9), // The second is taller.
    // The first is taller.
    (
        Fork([0.0, 0.0, 0.0, 0.0, 2.0, 1.0, 3.0]),
        Narrow,
        Seed(7),
        9,
    ),
    // The first of equals.
    (
        Fork([0.0, 0.0, 0.0, 0.0, 2.0, 2.0, 3.0]),
        Narrow,
        Seed(6),
        9,
    ),
];

const NARROW_ON_NINE: &[Row] = &[
    (TREE_NINE, Narrow, Seed(6), 9), // 7, side 2.
    (TREE_NINE, Narrow, Seed(7), 9), // 7, side 3.
    (TREE_NINE, Narrow, Seed(11), 9), // 8, side 5.
    (TREE_NINE, Narrow, Seed(10), 9), // 8, side 6.
    (TREE_NINE, Narrow, Seed(66), 9), // Drawn thrice.
    (Nine([f64::MAX; 9]), Narrow, Seed(6), 9), // At the largest.
    // All at either zero.
    (
        Comb([0.0, -0.0, 0.0, -0.0, -0.0, 0.0, -0.0]),
        Narrow,
        Seed(6),
        9,
    ),
];

const NARROW_DECLINED: &[Row] = &[
    (TREE_THREE, Narrow, START, 9), // One internal node.
    (Flat([0.0, 0.0, 0.0, 0.0, 1.0]), Narrow, START, 9), // The first of equals is a tip.
    (Flat([-0.0, -0.0, 0.0, -0.0, 1.0]), Narrow, Seed(6), 9), // Both zeros are equals.
    (Flat([0.0, 0.0, 1.5, 1.0, 2.0]), Narrow, Seed(6), 9), // A taller tip.
    (F([0.0, 0.0, 1.5, 1.0, 2.0]), Narrow, Seed(6), 9), // A taller tip, second.
    (F([0.0, 0.0, 1.0, 1.0, 2.0]), Narrow, Seed(6), 9), // A tip as high, second.
    // A taller tip under 8.
    (
        Nine([0.0, 0.0, 0.0, 0.0, 3.5, 1.0, 2.0, 3.0, 4.0]),
        Narrow,
        Seed(10),
        9,
    ),
];

const NARROW_SPENT: &[Row] = &[
    (TREE_F, Narrow, Seed(7), 3), // 3 twice, one draw short.
    (TREE_F, Narrow, Seed(7), 4), // 3 twice, exact.
    (TREE_F, Narrow, Seed(7), 5), // 3 twice, one more.
    (TREE_F, Narrow, ZEROS, 65535), // Never 4.
];

const WIDE_MOVED: &[Row] = &[
    (TREE_F, Wide, START, 9), // 0 and 2.
    (TREE_F, Wide, Seed(34), 9), // 2 and 1.
    (TREE_SLID, Wide, Seed(39), 9), // 0 and 1.
    (TREE_COMB, Wide, Seed(69), 9), // 0 and 3.
    (TREE_COMB, Wide, Seed(6), 9), // 4 and 3.
    (TREE_COMB, Wide, Seed(63), 9), // 3 and 4.
    (TREE_FORK, Wide, Seed(69), 9), // 0 and 3.
    (TREE_NINE, Wide, Seed(71), 9), // 5 and 2.
    (TREE_NINE, Wide, Seed(63), 9), // 4 and 6.
    (TREE_NINE, Wide, Seed(35), 9), // 5 and 4.
    (TREE_NINE, Wide, Seed(1554), 9), // The root and 1 again.
    // Dated tips.
    (
        Nine([0.5, 0.0, 1.5, 0.25, 2.5, 1.0, 2.0, 3.0, 4.0]),
        Wide,
        Seed(39),
        9,
    ),
];

const WIDE_DECLINED: &[Row] = &[
    (TREE_F, Wide, Seed(31), 9), // Siblings.
    (TREE_F, Wide, Seed(29), 9), // I is the parent of j.
    (TREE_F, Wide, Seed(7), 9), // J is the parent of i.
    (TREE_F, Wide, Seed(6), 9), // 3 and 2, siblings.
    (F([0.0, 0.0, 1.5, 1.0, 2.0]), Wide, Seed(13), 9), // J above p.
    (F([0.0, 0.0, 1.0, 1.0, 2.0]), Wide, Seed(13), 9), // J as high as p.
    (F([0.0, 0.0, 1.5, 1.0, 2.0]), Wide, Seed(34), 9), // I above q.
    (F([0.0, 0.0, 1.0, 1.0, 2.0]), Wide, Seed(34), 9), // I as high as q.
    (F([-0.0, 0.0, -0.0, 0.0, -0.0]), Wide, Seed(13), 9), // All at either zero.
    (TREE_COMB, Wide, Seed(14), 9), // J two below i.
    (TREE_COMB, Wide, Seed(15), 9), // I two below j.
    (TREE_THREE, Wide, START, 9), // Siblings.
];

const WIDE_SPENT: &[Row] = &[
    (TREE_F, Wide, START, 4), // 0 and 2, one draw short.
    (TREE_F, Wide, START, 5), // 0 and 2, exact.
    (TREE_F, Wide, START, 6), // 0 and 2, one more.
    (TREE_F, Wide, ZEROS, 65535), // Never.
    (TREE_F, Wide, ZERO, 9), // First draw 0 is drawn again.
];

const WILSON_MOVED: &[Row] = &[
    (TREE_F, Wilson, START, 9), // 0 onto 2.
    (TREE_F, Wilson, Seed(8), 9), // 1 onto 2.
    (F([0.5, 0.25, 0.75, 1.0, 2.0]), Wilson, Seed(13), 9), // 0 onto 2, dated.
    (TREE_COMB, Wilson, Seed(69), 9), // 0 onto 3.
    (TREE_COMB, Wilson, Seed(30), 9), // 2 onto 0.
    (TREE_COMB, Wilson, Seed(6), 9), // 4 onto 3.
    (TREE_FORK, Wilson, Seed(45), 9), // 3 onto 0.
    (TREE_FORK, Wilson, Seed(15), 9), // 0 onto 5.
    (TREE_NINE, Wilson, Seed(35), 9), // 5 onto 4.
    (TREE_NINE, Wilson, Seed(86), 9), // 6 onto 4.
    (TREE_NINE, Wilson, Seed(61), 9), // 0 onto 7.
    (TREE_NINE, Wilson, Seed(269), 9), // 5 onto 2, drawn again.
];

const WILSON_RANGES: &[Row] = &[
    (F([0.0, 1.0, 0.0, 1.0, f64::MAX]), Wilson, Seed(13), 9), // At the largest.
    (F([1.0, 1.0, 1.0, 1.0, OVER_ONE]), Wilson, Seed(13), 9), // Ranges of one.
    (F([0.0, 0.0, -0.0, 0.0, SMALLEST]), Wilson, Seed(13), 9), // The least ranges.
    // An old range of one.
    (
        Comb([0.0, 0.0, 0.0, UNDER_ONE, UNDER_ONE, 1.0, 2.0]),
        Wilson,
        Seed(38),
        9,
    ),
    // Tips at -0.0.
    (
        Comb([-0.0, -0.0, -0.0, -0.0, 1.0, 2.0, 3.0]),
        Wilson,
        Seed(69),
        9,
    ),
];

const WILSON_DECLINED: &[Row] = &[
    (TREE_F, Wilson, Seed(9), 9), // The parent is the root.
    (TREE_F, Wilson, Seed(31), 9), // Onto the root.
    (TREE_F, Wilson, Seed(39), 9), // Onto its sibling.
    (TREE_F, Wilson, Seed(7), 9), // Onto its parent.
    (F([0.0, 0.0, 2.0, 1.0, 2.0]), Wilson, Seed(13), 9), // No new range.
    (F([0.0, 2.0, 0.0, 2.0, 2.0]), Wilson, Seed(13), 9), // No old range.
    (TREE_THREE, Wilson, START, 9), // The parent is the root.
    (F([-0.0, 0.0, -0.0, 0.0, -0.0]), Wilson, Seed(7), 9), // All at zero, onto the root.
];

const WILSON_SPENT: &[Row] = &[
    (TREE_F, Wilson, START, 5), // 0 onto 2, one draw short.
    (TREE_F, Wilson, START, 6), // 0 onto 2, exact.
    (TREE_F, Wilson, START, 7), // 0 onto 2, one more.
    (TREE_F, Wilson, ZEROS, 65535), // Never.
];

const ROOT_SCALES: &[Row] = &[
    (TREE_F, RootScale(0.5), START, 9), // By 0.5.
    (TREE_F, RootScale(0.5), ZERO, 9), // By 0.5, down to 3.
    (TREE_F, RootScale(0.5), FULL, 9), // By 0.5, all the way up.
    (TREE_F, RootScale(0.5), UPPER, 1), // By 0.5.
    (TREE_F, RootScale(1.0), UPPER, 9), // By 1.
    (TREE_F, RootScale(1e-8), FULL, 9), // By 1e-8, all the way up.
    (F([0.0, 0.0, 0.0, 0.0, 2.0]), RootScale(1e-8), ZERO, 9), // By 1e-8, down over zeros.
    (TREE_SLID, RootScale(0.75), UPPER, 9), // Root 3.
    (TREE_NINE, RootScale(0.75), UPPER, 9), // Root 8.
    (TREE_THREE, RootScale(0.5), START, 9), // Three nodes.
    (F([-0.0; 5]), RootScale(0.5), UPPER, 9), // All at -0.0.
    (F([0.0, 0.0, 0.0, 0.0, -0.0]), RootScale(0.5), UPPER, 9), // -0.0 over 0.0.
    (F([0.0, 0.0, 0.0, 1.0, f64::MAX]), RootScale(0.5), ZERO, 9), // The largest down.
    (F([0.0, 0.0, 0.0, 0.0, SMALLEST]), RootScale(0.5), ZERO, 9), // The least down to 0.
];

const ROOT_SCALES_DECLINED: &[Row] = &[
    (F([0.0, 0.0, 0.0, 2.0, 2.0]), RootScale(0.5), START, 9), // As high as 3.
    (F([0.0, 0.0, 0.0, OVER_ONE, 2.0]), RootScale(0.5), ZERO, 9), // Under 3.
    (F([0.0, 0.0, 2.0, 1.0, 2.0]), RootScale(0.5), START, 9), // Under tip 2.
    (TREE_F, RootScale(1e-8), ZERO, 9), // By 1e-8.
];

const ROOT_SCALES_TOO_FAR: &[Row] = &[
    (F([0.0, 0.0, 0.0, 1.0, f64::MAX]), RootScale(0.5), UPPER, 9), // The largest.
    // The largest at 3.
    (
        Slid([0.0, 0.0, 0.0, f64::MAX, 2.0]),
        RootScale(0.5),
        UPPER,
        9,
    ),
    // Children as high.
    (
        F([0.0, 0.0, 0.0, f64::MAX, f64::MAX]),
        RootScale(0.5),
        UPPER,
        9,
    ),
];

const TREE_SCALES: &[Row] = &[
    (TREE_F, TreeScale(0.5), START, 9), // F by 0.5.
    (TREE_THREE, TreeScale(0.5), START, 9), // Three nodes by 0.5.
    (TREE_FORK, TreeScale(0.5), START, 9), // Seven nodes by 0.5.
    (TREE_NINE, TreeScale(0.5), START, 9), // Nine nodes by 0.5.
    (TREE_SLID, TreeScale(0.75), UPPER, 9), // By 0.75.
    (TREE_F, TreeScale(0.5), ZERO, 9), // By 0.5, all the way down.
    (TREE_F, TreeScale(0.5), FULL, 9), // By 0.5, all the way up.
    (TREE_F, TreeScale(1.0), UPPER, 9), // By 1.
    (TREE_F, TreeScale(1e-8), FULL, 9), // By 1e-8, all the way up.
    (F([-0.0; 5]), TreeScale(0.5), UPPER, 9), // All at -0.0.
    (F([0.0, 0.0, 1.75, 1.0, 2.0]), TreeScale(0.5), START, 9), // Tip 2 above the root.
    (F([0.0, 0.0, 0.0, SMALLEST, 1.0]), TreeScale(0.5), ZERO, 9), // The least is gone.
    // Tips stay.
    (
        Comb([0.5, 0.75, 1.5, 0.25, 1.0, 2.0, 3.0]),
        TreeScale(0.75),
        UPPER,
        9,
    ),
];

const TREE_SCALES_TOO_FAR: &[Row] = &[
    // 3 and the root.
    (
        F([0.0, 0.0, 0.0, f64::MAX, f64::MAX]),
        TreeScale(0.5),
        UPPER,
        9,
    ),
    (F([0.0, 0.0, 0.0, 1.0, f64::MAX]), TreeScale(0.5), UPPER, 9), // The root alone.
];

const TREE_SCALES_AT_LARGEST: &[Row] = &[
    // 6, not 5.
    (
        Nine([0.0, 0.0, 0.0, 0.0, 0.0, 1.0, f64::MAX, f64::MAX, f64::MAX]),
        TreeScale(0.5),
        UPPER,
        9,
    ),
    // The root 3 alone.
    (
        Slid([0.0, 0.0, 0.0, f64::MAX, 2.0]),
        TreeScale(0.5),
        UPPER,
        9,
    ),
    // 3 and 4.
    (
        Slid([0.0, 0.0, 0.0, f64::MAX, f64::MAX]),
        TreeScale(0.5),
        UPPER,
        9,
    ),
];

const TUNINGS: &[Row] = &[
    (TREE_F, RootScale(UNDER_TUNING), START, 9),
    (TREE_F, RootScale(OVER_ONE), START, 9),
    (TREE_F, RootScale(f64::NAN), START, 9),
    (TREE_F, RootScale(-0.5), START, 9),
    (TREE_F, TreeScale(UNDER_TUNING), START, 9),
    (TREE_F, TreeScale(OVER_ONE), START, 9),
    (TREE_F, TreeScale(f64::NAN), START, 9),
    (TREE_F, TreeScale(-0.5), START, 9),
];

const STEPS: &[Row] = &[
    (TREE_F, Slide(5, 1.0), START, 9), // Node 5 of 5.
    (TREE_F, Slide(65535, 1.0), START, 9),
    (TREE_F, Slide(4, 1.0), START, 9), // The root.
    (TREE_SLID, Slide(3, 1.0), START, 9), // The root 3.
    (TREE_F, Slide(0, f64::INFINITY), START, 9),
    (TREE_F, Slide(0, f64::NEG_INFINITY), START, 9),
    (TREE_F, Slide(0, f64::NAN), START, 9),
];

const STEPS_TOO_FAR: &[Row] = &[
    // P too far.
    (
        F([0.0, 0.0, 0.0, f64::MAX, f64::MAX]),
        Slide(0, f64::MAX),
        START,
        9,
    ),
    // The root too far.
    (
        F([0.0, 0.0, 0.0, 1.0, f64::MAX]),
        Slide(2, f64::MAX),
        START,
        9,
    ),
    // Up to the largest.
    (
        F([0.0, 0.0, 0.0, 0.0, f64::MAX]),
        Slide(0, f64::MAX),
        START,
        9,
    ),
    (TREE_F, Slide(0, f64::MAX), START, 9), // Over the root to the largest.
];

// A tree's fault comes before a parameter's, and that before the draws.
const FAULTS_IN_ORDER: &[Row] = &[
    (F([0.0, 0.0, 3.0, 1.0, 2.0]), RootScale(2.0), START, 9), // Tip 2 too high, tuning 2.
    (F([0.0, 0.0, 3.0, 1.0, 2.0]), NodeHeight, START, 0), // Tip 2 too high, allowance 0.
    (F([-1.0, 0.0, 0.0, 1.0, 2.0]), Wide, START, 9), // Tip 0 below zero.
    (F([0.0, 0.0, 0.0, f64::INFINITY, 2.0]), Narrow, START, 9), // Node 3 infinite.
    (F([0.0, 0.0, 0.0, f64::NAN, 2.0]), Wilson, START, 9), // Node 3 NaN.
    (F([0.0, 0.0, 0.0, 1.0, f64::NAN]), Slide(5, 1.0), START, 9), // The root NaN, node 5 of 5.
    (TREE_F, RootScale(2.0), ZEROS, 9), // Tuning 2, no draws.
];

// In the order in which they are made.
const CALLS: [&[Row]; 29] = [
    NODE_HEIGHTS,
    NODE_HEIGHTS_BETWEEN,
    NODE_HEIGHTS_SPENT,
    SLIDE_STARTS,
    SLIDES_UP,
    SLIDES_UP_ON_TIES,
    SLIDES_PAST_TIES,
    SLIDES_AT_REST,
    SLIDES_DOWN,
    SLIDES_DOWN_DATED,
    SLIDES_DECLINED,
    SLIDES_SPENT,
    NARROW_MOVED,
    NARROW_ON_NINE,
    NARROW_DECLINED,
    NARROW_SPENT,
    WIDE_MOVED,
    WIDE_DECLINED,
    WIDE_SPENT,
    WILSON_MOVED,
    WILSON_RANGES,
    WILSON_DECLINED,
    WILSON_SPENT,
    ROOT_SCALES,
    ROOT_SCALES_DECLINED,
    ROOT_SCALES_TOO_FAR,
    TREE_SCALES,
    TREE_SCALES_TOO_FAR,
    TREE_SCALES_AT_LARGEST,
];

const LIMITS: [&[Row]; 4] = [TUNINGS, STEPS, STEPS_TOO_FAR, FAULTS_IN_ORDER];

fn calls(out: &mut impl Write, tables: &[&[Row]]) -> io::Result<()> {
    for table in tables {
        for &(tree, to, from, allowance) in *table {
            let call = Call {
                to,
                from,
                allowance,
            };
            on(out, tree, call)?;
        }
    }
    Ok(())
}

fn main(rt: HostRuntime) -> io::Result<()> {
    let mut out = BufWriter::new(rt.alloc(), io::writer(&rt))?;
    all_sizes(&mut out)?;
    calls(&mut out, &CALLS)?;
    allowances(&mut out)?;
    calls(&mut out, &LIMITS)?;
    faults(&mut out)?;
    altered(&mut out)?;
    intervals(&mut out)?;
    out.flush()
}
