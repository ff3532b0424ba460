// Runs published vectors of xoshiro256++ and SplitMix64 and the generator's calls at their limits, and prints what agrees and what is answered.
// Assumes nothing.
#![tactic(auto)]

use lines::{Bits, Said};
use random::Random;
use std::io;
use std::io::{BufWriter, Write};

// The first draws from the state 1, 2, 3, 4, by the reference xoshiro256plusplus.c, as the crate rand_xoshiro publishes them.
const DRAWS: [u64; 10] = [
    41943041,
    58720359,
    3588806011781223,
    3591011842654386,
    9228616714210784205,
    9973669472204895162,
    14011001112246962877,
    12406186145184390807,
    15849039046786891736,
    10450023813501588000,
];

// The first outputs of SplitMix64 from 1477776061723855037, by the reference splitmix64.c, as the crate rand_xoshiro publishes them.
const OUTPUTS: [u64; 50] = [
    1985237415132408290,
    2979275885539914483,
    13511426838097143398,
    8488337342461049707,
    15141737807933549159,
    17093170987380407015,
    16389528042912955399,
    13177319091862933652,
    10841969400225389492,
    17094824097954834098,
    3336622647361835228,
    9678412372263018368,
    11111587619974030187,
    7882215801036322410,
    5709234165213761869,
    7799681907651786826,
    4616320717312661886,
    4251077652075509767,
    7836757050122171900,
    5054003328188417616,
    12919285918354108358,
    16477564761813870717,
    5124667218451240549,
    18099554314556827626,
    7603784838804469118,
    6358551455431362471,
    3037176434532249502,
    3217550417701719149,
    9958699920490216947,
    5965803675992506258,
    12000828378049868312,
    12720568162811471118,
    245696019213873792,
    8351371993958923852,
    14378754021282935786,
    5655432093647472106,
    5508031680350692005,
    8515198786865082103,
    6287793597487164412,
    14963046237722101617,
    3630795823534910476,
    8422285279403485710,
    10554287778700714153,
    10871906555720704584,
    8659066966120258468,
    9420238805069527062,
    10338115333623340156,
    13514802760105037173,
    14635952304031724449,
    15419692541594102413,
];

// Likewise from 1234567, as Rosetta Code publishes them.
const FEW_OUTPUTS: [u64; 5] = [
    6457827717110365317,
    3203168211198807973,
    9817491932198370423,
    4593380528125082431,
    16408922859458223821,
];

// What SplitMix64's state grows by for each output.
const GAMMA: u64 = 0x9e37_79b9_7f4a_7c15;

// The output of SplitMix64 at a place of those from a seed. A generator's words are four outputs in a row, and the next four are those of a seed
// that has grown by four steps.
fn output(seed: u64, place: usize) -> u64 {
    let steps = place as u64 / 4 * 4;
    let words = Random::new(seed.wrapping_add(GAMMA.wrapping_mul(steps))).state();
    words[place % 4]
}

// A line on how many of the first outputs from a seed are the published ones.
fn outputs(out: &mut impl Write, seed: u64, published: &[u64]) -> io::Result<()> {
    let same = published
        .iter()
        .enumerate()
        .filter(|(place, value)| output(seed, *place) == **value)
        .count();
    let of = published.len();
    writeln!(out, "SplitMix64 from {seed}: {same} of {of} as published")
}

// A line on how many of the first draws are the published ones.
fn draws(out: &mut impl Write, start: Random) -> io::Result<()> {
    let mut random = start;
    let same = DRAWS
        .iter()
        .filter(|value| {
            let (draw, after) = random.next_u64();
            random = after;
            draw == **value
        })
        .count();
    let of = DRAWS.len();
    writeln!(
        out,
        "xoshiro256++ from 1,2,3,4: {same} of {of} as published"
    )
}

// The generator whose first draw is w: of its four words only the last is not 0, and a draw of such a generator is that word rotated left by 23.
fn drawing(w: u64) -> Random {
    Random::from_state([0, 0, 0, w.rotate_left(41)])
}

// Numerators below 2^53 at both ends of their range, and where their lower 32 bits end and the top bit begins. A line has the uniforms of the
// lowest and of the highest draw whose top 53 bits are the numerator.
fn numerators(out: &mut impl Write) -> io::Result<()> {
    for (name, numerator) in [
        ("0", 0),
        ("1", 1),
        ("2^32 - 1", 0xffff_ffff),
        ("2^32", 0x1_0000_0000),
        ("2^52", 0x10_0000_0000_0000),
        ("2^53 - 1", 0x1f_ffff_ffff_ffff),
    ] {
        let lowest = numerator << 11;
        let (low, _) = drawing(lowest).uniform();
        let (high, _) = drawing(lowest | 2047).uniform();
        writeln!(out, "uniform of {name}: {} {}", Bits(low), Bits(high))?;
    }
    Ok(())
}

// A line on whether something holds.
fn says(out: &mut impl Write, name: &str, holds: bool) -> io::Result<()> {
    writeln!(out, "{name}: {}", if holds { "yes" } else { "no" })
}

fn values(out: &mut impl Write, counting: Random) -> io::Result<()> {
    let (u, _) = counting.uniform();
    let is_exact = u == 5.0 / 2199023255552.0;
    says(out, "uniform from 1,2,3,4 is 5 * 2^-41", is_exact)?;
    let (first, _) = counting.coin();
    says(out, "coin from 1,2,3,4 is the second side", !first)?;
    let (first, _) = Random::from_state([1 << 63, 0, 0, 0]).coin();
    says(out, "coin from 2^63,0,0,0 is the first side", first)
}

// Lines on calls of `below`: the number and the draws made, or the refusal.
fn numbers(out: &mut impl Write, counting: Random) -> io::Result<()> {
    let zeros = Random::from_state([0, 0, 0, 0]);
    // The first draw is 0, which 3 passes over, and the second is not.
    let second = Random::from_state([0, 1 << 63, 0, 0]);
    let seeded = Random::new(1234567);
    for (name, random, n, allowance) in [
        ("0,0,0,0", zeros, 4, 1),
        ("0,0,0,0", zeros, 3, 1),
        ("0,0,0,0", zeros, 3, 65535),
        ("0,2^63,0,0", second, 3, 1),
        ("0,2^63,0,0", second, 3, 2),
        // As rove's own `below` answers.
        ("seed 1234567", seeded, 4095, 1),
        ("seed 1234567", seeded, 4294967296, 65535),
        // Out of the limits.
        ("1,2,3,4", counting, 0, 1),
        ("1,2,3,4", counting, 4294967297, 1),
        ("1,2,3,4", counting, 3, 0),
        ("1,2,3,4", counting, 3, 65536),
    ] {
        write!(out, "{name}: below {n} by {allowance} is ")?;
        let (answer, _) = random.below(n, allowance);
        match answer {
            Ok((value, draws)) => writeln!(out, "{value}, draws {draws}")?,
            Err(why) => writeln!(out, "{}", Said(why))?,
        }
    }
    Ok(())
}

fn main(rt: HostRuntime) -> io::Result<()> {
    let mut out = BufWriter::new(rt.alloc(), io::writer(&rt))?;
    let counting = Random::from_state([1, 2, 3, 4]);
    draws(&mut out, counting)?;
    outputs(&mut out, 1477776061723855037, &OUTPUTS)?;
    outputs(&mut out, 1234567, &FEW_OUTPUTS)?;
    values(&mut out, counting)?;
    numerators(&mut out)?;
    numbers(&mut out, counting)?;
    out.flush()
}
