// Runs `tree::new` and `validate` on small trees, on the smallest and the largest that are accepted, and on each kind of fault, and prints what
// is answered. Assumes nothing.
#![tactic(auto)]

use lines::{Marks, Said, Verdict};
use samples::{F_HEIGHTS, F_PAIRS, F_PARENTS, NONE, put_comb, put_flat, put_heights};
use std::io;
use std::io::{BufWriter, Write};
use tree::Tree;

// A line on `new`: the root and the parents, or the refusal with the parents as they came.
fn made(
    out: &mut impl Write,
    name: &str,
    pairs: &[u16],
    heights: &[f64],
    parents: &mut [u16],
) -> io::Result<()> {
    match tree::new(pairs, heights, parents) {
        Ok(root) => writeln!(out, "{name}: root {root}, parents{}", Marks(parents)),
        Err(why) => writeln!(out, "{name}: {}, parents{}", Said(why), Marks(parents)),
    }
}

fn sizes(out: &mut impl Write) -> io::Result<()> {
    made(out, "1 node", &[NONE; 2], &[0.0], &mut [7])?;
    made(out, "2 nodes", &[NONE; 4], &[0.0; 2], &mut [7; 2])?;
    made(out, "no nodes", &[], &[], &mut [])?;
    let pairs = [NONE, NONE, NONE, NONE, 0, 1, 2, 0];
    let heights = [0.0, 0.0, 1.0, 1.0];
    made(out, "3 nodes", &pairs[..6], &heights[..3], &mut [7; 3])?;
    made(out, "4 nodes", &pairs, &heights, &mut [7; 4])
}

fn lengths_disagree(out: &mut impl Write) -> io::Result<()> {
    let heights = [0.0, 0.0, 0.0, 1.0];
    made(out, "5 nodes, 4 heights", &F_PAIRS, &heights, &mut [7; 5])?;
    made(out, "5 nodes, 3 parents", &F_PAIRS, &F_HEIGHTS, &mut [7; 3])?;
    let odd = [NONE, NONE, NONE, NONE, 0, 1, 2];
    made(out, "7 numbers for pairs", &odd, &heights[1..], &mut [7; 3])
}

fn too_large(out: &mut impl Write) -> io::Result<()> {
    let mut parents = [7; 4097];
    made(out, "4097 nodes", &[NONE; 8194], &[0.0; 4097], &mut parents)
}

// `new` on five nodes, of which the last two have these children.
fn shapes(out: &mut impl Write) -> io::Result<()> {
    for (name, [a, b, c, d]) in [
        ("tree F", [0, 1, 3, 2]),
        ("a child out of range", [0, 9, 3, 2]),
        ("a node its own child", [0, 3, 4, 2]),
        ("equal children", [0, 0, 3, 2]),
        ("an internal node without children", [NONE, NONE, 3, 2]),
        ("an internal node with one child", [0, NONE, 3, 2]),
        ("a shared child, then one out of range", [0, 1, 1, 9]),
        ("a child out of range, then a shared one", [0, 1, 9, 1]),
        ("node 4 below the root 3, and higher", [0, 4, 1, 2]),
    ] {
        let pairs = [NONE, NONE, NONE, NONE, NONE, NONE, a, b, c, d];
        made(out, name, &pairs, &F_HEIGHTS, &mut [7; 5])?;
    }
    Ok(())
}

fn tips(out: &mut impl Write) -> io::Result<()> {
    let tip = [0, 1, NONE, NONE, NONE, NONE, 0, 1, 3, 2];
    made(out, "a tip with children", &tip, &F_HEIGHTS, &mut [7; 5])?;
    let half = [NONE, NONE, NONE, 4, NONE, NONE, 0, 1, 3, 2];
    made(
        out,
        "a tip with half a mark",
        &half,
        &F_HEIGHTS,
        &mut [7; 5],
    )
}

// Nodes 4 and 5 are each other's parents, beside the root 6 with the tips 0 and 1.
fn rings(out: &mut impl Write) -> io::Result<()> {
    let ring = [
        NONE, NONE, NONE, NONE, NONE, NONE, NONE, NONE, 5, 2, 4, 3, 0, 1,
    ];
    for (name, height) in [
        ("a ring beside the root's tree", 1.0),
        ("the ring with a NaN", f64::NAN),
    ] {
        let heights = [0.0, 0.0, 0.0, 0.0, height, 1.0, 1.0];
        made(out, name, &ring, &heights, &mut [7; 7])?;
    }
    Ok(())
}

// `new` on tree F with these heights.
fn dated(out: &mut impl Write, name: &str, heights: [f64; 5]) -> io::Result<()> {
    made(out, name, &F_PAIRS, &heights, &mut [7; 5])
}

fn heights(out: &mut impl Write) -> io::Result<()> {
    for (name, heights) in [
        ("tips at -0.0", [0.0, -0.0, -0.0, 1.0, 2.0]),
        ("all at zero, of either sign", [0.0, -0.0, 0.0, -0.0, 0.0]),
        ("nodes as high as their parents", [0.0, 1.0, 1.0, 1.0, 1.0]),
        ("a tip above its parent", [0.0, 1.5, 0.0, 1.0, 2.0]),
        ("node 3 above its parent", [0.0, 0.0, 0.0, 2.5, 2.0]),
        ("a tip below zero", [0.0, 0.0, -1.0, 1.0, 2.0]),
        ("two faults: the lower", [0.0, -1.0, -1.0, 1.0, 2.0]),
    ] {
        dated(out, name, heights)?;
    }
    Ok(())
}

// `new` with a height that is no number at each kind of node.
fn no_numbers(out: &mut impl Write) -> io::Result<()> {
    for (name, height) in [
        ("infinity", f64::INFINITY),
        ("-infinity", f64::NEG_INFINITY),
        ("a NaN", f64::NAN),
    ] {
        writeln!(out, "{name}")?;
        dated(out, "  at tip 1", [0.0, height, 0.0, 1.0, 2.0])?;
        dated(out, "  at node 3", [0.0, 0.0, 0.0, height, 2.0])?;
        dated(out, "  at the root", [0.0, 0.0, 0.0, 1.0, height])?;
    }
    Ok(())
}

// `validate` on F, and with other parents, other heights or another root. Of two faults, a 3 comes before a 4.
fn given(out: &mut impl Write) -> io::Result<()> {
    let low = [-1.0, 0.0, 0.0, 1.0, 2.0];
    let other = [3, 3, 3, 4, NONE];
    for (name, parents, heights, root) in [
        ("F as it is", &F_PARENTS[..], F_HEIGHTS, 4),
        ("F with another root", &F_PARENTS[..], F_HEIGHTS, 3),
        (
            "F with a root that is no node",
            &F_PARENTS[..],
            F_HEIGHTS,
            5,
        ),
        ("F with 4 parents", &F_PARENTS[..4], F_HEIGHTS, 4),
        ("F with another parent", &other[..], F_HEIGHTS, 4),
        ("F with a height below zero", &F_PARENTS[..], low, 4),
        ("F with both", &other[..], low, 4),
    ] {
        let tree = Tree {
            pairs: &F_PAIRS,
            parents,
            heights: &heights,
            root,
        };
        writeln!(out, "{name}: {}", Verdict(tree::validate(&tree)))?;
    }
    Ok(())
}

fn largest(out: &mut impl Write) -> io::Result<()> {
    let mut pairs = [NONE; 8190];
    let mut heights = [0.0; 4095];
    let mut parents = [7; 4095];
    put_heights(&mut heights);
    put_comb(&mut pairs);
    made(out, "a comb of 4095 nodes", &pairs, &heights, &mut parents)?;
    put_flat(&mut pairs);
    parents = [7; 4095];
    made(
        out,
        "a flat tree of 4095 nodes",
        &pairs,
        &heights,
        &mut parents,
    )
}

fn main(rt: HostRuntime) -> io::Result<()> {
    let mut out = BufWriter::new(rt.alloc(), io::writer(&rt))?;
    sizes(&mut out)?;
    lengths_disagree(&mut out)?;
    too_large(&mut out)?;
    shapes(&mut out)?;
    tips(&mut out)?;
    rings(&mut out)?;
    heights(&mut out)?;
    no_numbers(&mut out)?;
    given(&mut out)?;
    largest(&mut out)?;
    out.flush()
}
