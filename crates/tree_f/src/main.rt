// Runs the accessors, `postorder`, `is_monophyletic_in` and the clade's age on tree F of document 01, the client's scope paper, and prints what is
// answered. Assumes nothing.
#![tactic(auto)]

use answer::Refusal;
use lines::{Marks, Or, Said, Verdict};
use samples::{F_HEIGHTS, F_PAIRS, F_PARENTS};
use std::io;
use std::io::{BufWriter, Write};
use tree::Tree;

const F: Tree<'static> = Tree {
    pairs: &F_PAIRS,
    parents: &F_PARENTS,
    heights: &F_HEIGHTS,
    root: 4,
};

fn counts(out: &mut impl Write) -> io::Result<()> {
    let nodes = nodes::nodes(&F_PAIRS);
    let tips = nodes::tips(&F_PAIRS);
    writeln!(out, "F has {nodes} nodes, {tips} tips")
}

fn parents(out: &mut impl Write) -> io::Result<()> {
    for k in [1, 4, 5] {
        let parent = nodes::parent(&F_PARENTS, k).map(|k| Or(k, "none"));
        writeln!(out, "parent of {k}: {}", Said(parent))?;
    }
    Ok(())
}

fn children(out: &mut impl Write) -> io::Result<()> {
    for k in [4, 2, 5] {
        match nodes::children(&F_PAIRS, k) {
            Ok(Some((a, b))) => writeln!(out, "children of {k}: {a} {b}")?,
            Ok(None) => writeln!(out, "children of {k}: a tip")?,
            Err(why) => writeln!(out, "children of {k}: {}", Said(why))?,
        }
    }
    Ok(())
}

fn siblings(out: &mut impl Write) -> io::Result<()> {
    for k in [0, 3, 4, 5] {
        let sibling = nodes::sibling(&F_PAIRS, &F_PARENTS, k).map(|k| Or(k, "none"));
        writeln!(out, "sibling of {k}: {}", Said(sibling))?;
    }
    Ok(())
}

// A line on a quantity, and whether it is the one that is expected.
fn quantity(
    out: &mut impl Write,
    name: &str,
    of: Result<f64, Refusal>,
    expected: f64,
) -> io::Result<()> {
    match of {
        Ok(x) if x == expected => writeln!(out, "{name}: as expected"),
        Ok(_) => writeln!(out, "{name}: not as expected"),
        Err(why) => writeln!(out, "{name}: {}", Said(why)),
    }
}

fn quantities(out: &mut impl Write) -> io::Result<()> {
    for (name, k, expected) in [
        ("length above 2 is 2", 2, 2.0),
        ("length above 4 is 0", 4, 0.0),
        ("length above 5", 5, 0.0),
    ] {
        let length = nodes::branch_length(&F_PARENTS, &F_HEIGHTS, k);
        quantity(out, name, length, expected)?;
    }
    quantity(out, "height of 3 is 1", nodes::height(&F_HEIGHTS, 3), 1.0)?;
    quantity(out, "height of 5", nodes::height(&F_HEIGHTS, 5), 0.0)?;
    let all = nodes::tree_length(&F_PARENTS, &F_HEIGHTS);
    quantity(out, "all lengths are 5", all, 5.0)
}

// A line on `postorder`: the verdict, and the slice afterwards.
fn ordered(out: &mut impl Write, name: &str, root: usize, order: &mut [u16]) -> io::Result<()> {
    let verdict = order::postorder(&Tree { root, ..F }, order);
    writeln!(out, "{name}: {}, order{}", Verdict(verdict), Marks(order))
}

fn orders(out: &mut impl Write) -> io::Result<()> {
    let mut order = [7; 5];
    ordered(out, "F from another root", 3, &mut order)?;
    ordered(out, "F in postorder", 4, &mut order)?;
    ordered(out, "F in a slice of 4", 4, &mut [7; 4])
}

fn clade_word(is_clade: bool) -> &'static str {
    if is_clade { "a clade" } else { "no clade" }
}

// A line on a set of F's tips: whether it is monophyletic, and its clade's age in thousandths.
fn clade(out: &mut impl Write, name: &str, heights: &[f64], members: &[bool]) -> io::Result<()> {
    let tree = Tree { heights, ..F };
    let is_clade = clades::is_monophyletic_in(&tree, members).map(clade_word);
    let age = clades::clade_age(&tree, members);
    writeln!(out, "{name}: {}, {}", Said(is_clade), Said(age))
}

fn sets(out: &mut impl Write) -> io::Result<()> {
    for (name, members) in [
        ("no tips", [false, false, false]),
        ("tip 0", [true, false, false]),
        ("tip 1", [false, true, false]),
        ("tip 2", [false, false, true]),
        ("tips 0 and 1", [true, true, false]),
        ("tips 0 and 2", [true, false, true]),
        ("tips 1 and 2", [false, true, true]),
        ("all tips", [true, true, true]),
    ] {
        clade(out, name, &F_HEIGHTS, &members)?;
    }
    Ok(())
}

// Tip 0 or tip 2, with tip 0 at the one height and the root at the other.
fn stems(out: &mut impl Write) -> io::Result<()> {
    let zero = [true, false, false];
    let two = [false, false, true];
    for (name, members, low, high) in [
        ("tip 0 at a half", zero, 0.5, 2.0),
        ("tip 0 level with its parent", zero, 1.0, 2.0),
        ("tip 0 under a root at 2^43", zero, 0.0, 8796093022208.0),
        ("tip 2 under a root at 2^43", two, 0.0, 8796093022208.0),
    ] {
        clade(out, name, &[low, 0.0, 0.0, 1.0, high], &members)?;
    }
    clade(out, "two marks", &F_HEIGHTS, &[true, true])
}

// Tips 0 and 1, or all tips, with node 3 at the one height and the root at the other.
fn cherries(out: &mut impl Write) -> io::Result<()> {
    for (name, third, low, high) in [
        ("tips 0 and 1 at a sixteenth", false, 0.0625, 2.0),
        (
            "tips 0 and 1 below 2^43",
            false,
            8796093022207.9990,
            8796093022208.0,
        ),
        ("all tips at 2^43", true, 1.0, 8796093022208.0),
        ("tips 0 and 1 of a refused tree", false, 3.0, 2.0),
    ] {
        clade(out, name, &[0.0, 0.0, 0.0, low, high], &[true, true, third])?;
    }
    Ok(())
}

fn main(rt: HostRuntime) -> io::Result<()> {
    let mut out = BufWriter::new(rt.alloc(), io::writer(&rt))?;
    counts(&mut out)?;
    parents(&mut out)?;
    children(&mut out)?;
    siblings(&mut out)?;
    quantities(&mut out)?;
    orders(&mut out)?;
    sets(&mut out)?;
    stems(&mut out)?;
    cherries(&mut out)?;
    out.flush()
}
