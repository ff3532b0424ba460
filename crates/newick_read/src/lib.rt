// The reader of Newick texts, by change request S-1: the first pass judges the spelling, the second fills pairs, lengths and tips into local arrays; then the
// tips, the root's age and the room are judged, and the result is written at the start of the lent slices, which stay as they are when the text is refused.
// Assumes nothing.
#![tactic(auto)]

ghost use Rattle.std.specs.Prelude.{◌++◌, ◌≡◌, ◌+◌, ◌-◌, ◌≤◌, min, length, get_or, drop};
ghost use Rattle.newick.specs.Copies.{taken, read_call};
ghost use Rattle.newick_file.specs.Filing.{most};
ghost use Rattle.newick_read.specs.Given.{Whole, Few, Works};
ghost use Rattle.newick_read.specs.Taking.{reach_at, ages_at, root_reach, root_ages, all_seen, deliver, judge_age, judge, work};

use newick::ReadError;
use newick_spell::Misspelling;
use tree::MOST_NODES;

// The most tips that are read.
const MOST_TIPS: usize = 2048;

// The first root age that is refused; lengths and their sums stay there.
const MOST: u64 = 9_007_199_254_740_992;

// ---- below a node

// The length of the branch above a node, and how long a way of length r is with that.
fn add_reach(ups: &[u64], k: usize, r: u64) -> u64
    ensures { result ≡ min (get_or ups.now k 0 + r) most }
{
    ups.get(k).copied().unwrap_or(0).saturating_add(r).min(MOST)
}

// The longest way down from a node to a tip.
#[tactic(auto, using(crate::proofs::NodeLaws::down_laws))]
fn reach(pairs: &[u16], ups: &[u64], tips: usize, node: usize, depth: usize) -> u64
    ensures { result ≡ reach_at depth tips pairs.now ups.now node }
{
    if depth == 0 || node < tips {
        return 0;
    }
    let a = reads::first(pairs, node);
    let b = reads::second(pairs, node);
    let x = reach(pairs, ups, tips, a, depth - 1);
    let y = reach(pairs, ups, tips, b, depth - 1);
    add_reach(ups, a, x).max(add_reach(ups, b, y))
}

// The age of a child k below the age h.
fn child_age(ups: &[u64], h: u64, k: usize) -> u64
    ensures { result ≡ h - get_or ups.now k 0 }
{
    h.saturating_sub(ups.get(k).copied().unwrap_or(0))
}

// The ages from a node of age h down.
#[tactic(auto, using(crate::proofs::NodeLaws::down_laws))]
fn put_ages(
    pairs: &[u16],
    ups: &[u64],
    tips: usize,
    node: usize,
    h: u64,
    depth: usize,
    ages: &mut [u64],
)
    ensures { ages.new ≡ ages_at depth tips pairs.now ups.now node h ages.old }
{
    if depth != 0 && tips <= node {
        let a = reads::first(pairs, node);
        let b = reads::second(pairs, node);
        put_ages(pairs, ups, tips, a, child_age(ups, h, a), depth - 1, ages);
        put_ages(pairs, ups, tips, b, child_age(ups, h, b), depth - 1, ages);
    }
    newick_file::put(ages, node, h);
}

// ---- of the root

#[tactic(auto, using(crate::proofs::NodeLaws::root_laws))]
fn root_reach(found: &[u16], ups: &[u64], tips: usize) -> u64
    ensures { result ≡ root_reach tips found.now ups.now }
{
    reach(found, ups, tips, ups.len().saturating_sub(1), tips)
}

// All ages, in a slice of as many places as there are nodes.
#[tactic(auto, using(crate::proofs::NodeLaws::root_laws))]
fn put_all_ages(found: &[u16], ups: &[u64], tips: usize, h: u64, ages: &mut [u64])
    ensures { ages.new ≡ root_ages tips found.now ups.now h (length ages.old) }
{
    ages.fill(0);
    put_ages(found, ups, tips, ups.len().saturating_sub(1), h, tips, ages);
}

// ---- into the lent slices

#[tactic(auto, using(crate::proofs::SliceLaws::send_laws))]
fn send_pairs(found: &[u16], pairs: &mut [u16])
    requires { length found.now ≤ length pairs.old }
    ensures { pairs.new ≡ found.now ++ drop (length found.now) pairs.old }
{
    pairs[..found.len()].copy_from_slice(found);
}

#[tactic(auto, using(crate::proofs::SliceLaws::send_laws))]
fn send_ages(found: &[u16], ups: &[u64], tips: usize, h: u64, ages: &mut [u64])
    requires { length ups.now ≤ length ages.old }
    ensures { ages.new ≡ root_ages tips found.now ups.now h (length ups.now) ++ drop (length ups.now) ages.old }
{
    put_all_ages(found, ups, tips, h, &mut ages[..ups.len()]);
}

#[tactic(auto, using(crate::proofs::SliceLaws::send_laws))]
fn send(
    found: &[u16],
    ups: &[u64],
    tips: usize,
    h: u64,
    pairs: &mut [u16],
    ages: &mut [u64],
) -> Result<usize, ReadError>
    ensures { taken result pairs.new ages.new ≡ deliver tips found.now ups.now h pairs.old ages.old }
{
    if pairs.len() < found.len() || ages.len() < ups.len() {
        return Err(ReadError::Room);
    }
    send_pairs(found, pairs);
    send_ages(found, ups, tips, h, ages);
    Ok(ups.len())
}

// ---- what was filled, judged

fn all_seen(seen: &[bool]) -> bool
    ensures { result ≡ all_seen seen.now (length seen.now) }
{
    seen.iter().all(|tip| *tip)
}

// By the root's age h, of a text of so many bytes.
#[tactic(auto, using(crate::proofs::CallLaws::judge_laws))]
fn judge_age(
    long: usize,
    found: &[u16],
    ups: &[u64],
    tips: usize,
    h: u64,
    pairs: &mut [u16],
    ages: &mut [u64],
) -> Result<usize, ReadError>
    ensures { taken result pairs.new ages.new ≡ judge_age long tips found.now ups.now h pairs.old ages.old }
{
    if h < MOST {
        send(found, ups, tips, h, pairs, ages)
    } else {
        Err(ReadError::Place(long))
    }
}

#[tactic(auto, using(crate::proofs::CallLaws::judge_laws))]
fn judge_all(
    long: usize,
    found: &[u16],
    ups: &[u64],
    seen: &[bool],
    tips: usize,
    pairs: &mut [u16],
    ages: &mut [u64],
) -> Result<usize, ReadError>
    ensures { taken result pairs.new ages.new ≡ judge long tips found.now ups.now seen.now pairs.old ages.old }
{
    if !all_seen(seen) {
        return Err(ReadError::Place(long));
    }
    let h = root_reach(found, ups, tips);
    judge_age(long, found, ups, tips, h, pairs, ages)
}

// The second pass and what follows it, in slices for what it fills.
#[tactic(auto, using(crate::proofs::CallLaws::room_laws))]
fn read_in(
    text: &[u8],
    tips: usize,
    found: &mut [u16],
    ups: &mut [u64],
    stack: &mut [u16],
    seen: &mut [bool],
    pairs: &mut [u16],
    ages: &mut [u64],
) -> Result<usize, ReadError>
    ensures { taken result pairs.new ages.new ≡ work text.now tips (length found.old) (length ups.old) stack.old (length seen.old) pairs.old ages.old }
{
    newick_file::build(text, tips, found, ups, stack, seen);
    judge_all(text.len(), found, ups, seen, tips, pairs, ages)
}

// ---- the arrays, for 2,048 tips, of which a text has the first part

#[tactic(auto, using(crate::proofs::CallLaws::room_laws))]
fn with_marks(
    text: &[u8],
    tips: usize,
    found: &mut [u16],
    ups: &mut [u64],
    pairs: &mut [u16],
    ages: &mut [u64],
) -> Result<usize, ReadError>
    requires { Works text.now tips (length found.old) (length ups.old) tips }
    ensures { taken result pairs.new ages.new ≡ read_call text.now pairs.old ages.old }
{
    let mut stack = [0u16; MOST_TIPS];
    let mut seen = [false; MOST_TIPS];
    read_in(
        text,
        tips,
        found,
        ups,
        &mut stack,
        &mut seen[..tips],
        pairs,
        ages,
    )
}

#[tactic(auto, using(crate::proofs::CallLaws::room_laws))]
fn with_lists(
    text: &[u8],
    tips: usize,
    nodes: usize,
    slots: usize,
    pairs: &mut [u16],
    ages: &mut [u64],
) -> Result<usize, ReadError>
    requires { Works text.now tips slots nodes tips }
    ensures { taken result pairs.new ages.new ≡ read_call text.now pairs.old ages.old }
{
    let mut found = [0u16; 2 * MOST_NODES];
    let mut ups = [0u64; MOST_NODES];
    with_marks(
        text,
        tips,
        &mut found[..slots],
        &mut ups[..nodes],
        pairs,
        ages,
    )
}

// ---- the call

// A well-spelled text of at most 2,048 tips.
fn read_few(
    text: &[u8],
    tips: usize,
    pairs: &mut [u16],
    ages: &mut [u64],
) -> Result<usize, ReadError>
    requires { Few text.now tips }
    ensures { taken result pairs.new ages.new ≡ read_call text.now pairs.old ages.old }
{
    let nodes = tips + tips - 1;
    with_lists(text, tips, nodes, nodes + nodes, pairs, ages)
}

// A well-spelled text.
#[tactic(auto, using(crate::proofs::CallLaws::call_laws))]
fn read_whole(text: &[u8], pairs: &mut [u16], ages: &mut [u64]) -> Result<usize, ReadError>
    requires { Whole text.now }
    ensures { taken result pairs.new ages.new ≡ read_call text.now pairs.old ages.old }
{
    let joins = newick_file::count(text);
    if joins < MOST_TIPS {
        read_few(text, joins + 1, pairs, ages)
    } else {
        Err(ReadError::Place(text.len()))
    }
}

// The pairs and the ages that a Newick text says, at the start of the lent slices, and how many nodes there are.
#[tactic(auto, using(crate::proofs::CallLaws::call_laws))]
pub fn read(text: &[u8], pairs: &mut [u16], ages: &mut [u64]) -> Result<usize, ReadError>
    ensures { taken result pairs.new ages.new ≡ read_call text.now pairs.old ages.old }
{
    match newick_spell::spell(text) {
        Ok(()) => read_whole(text, pairs, ages),
        Err(Misspelling::Forbidden(at)) => Err(ReadError::Place(at)),
        Err(Misspelling::Unfinished) => Err(ReadError::Place(text.len())),
    }
}
