// Runs the calls on parameters: the tables of the moves, the relaxed clock, the Yule density and the scales. A line has the call with what it is
// given and the answer, then what the call may change and the generator's words after it; floats are given by their bits, and a dash is a value
// that is missing. "Document 01" is the client's scope paper. Assumes nothing.
#![tactic(auto)]

use kinds::Move;
use lines::{Bits, Floats, Or, Said, Verdict, Words};
use samples::Generator::Seed;
use samples::{
    F_HEIGHTS, F_PAIRS, F_PARENTS, FULL, Generator, NONE, OVER_ONE, SMALLEST, START, THEN_ZERO,
    UNDER_ONE, UNDER_TUNING, UPPER, ZERO, ZEROS,
};
use scales::Scaled;
use speciation::Speciation::{BirthDeath, Yule};
use speciation::{Density, Speciation};
use std::fmt::Display;
use std::io::{BufWriter, Write};
use std::{fmt, io};
use tree::Tree;

// The rates of a clock of five nodes.
const RATES: [f64; 4] = [1.0, 2.0, 0.5, 1.5];

// The moves with their names.
const MOVES: [(&str, Move); 25] = [
    ("FbdBirthScale", Move::FbdBirthScale),
    ("FbdDeathScale", Move::FbdDeathScale),
    ("FbdSamplingScale", Move::FbdSamplingScale),
    ("FbdRhoLogit", Move::FbdRhoLogit),
    ("FbdOriginScale", Move::FbdOriginScale),
    ("TipAge", Move::TipAge),
    ("ClockRateScale", Move::ClockRateScale),
    ("NodeHeight", Move::NodeHeight),
    ("SubtreeSlide", Move::SubtreeSlide),
    ("NarrowExchange", Move::NarrowExchange),
    ("WideExchange", Move::WideExchange),
    ("WilsonBalding", Move::WilsonBalding),
    ("RootScale", Move::RootScale),
    ("TreeScale", Move::TreeScale),
    ("BirthDifferenceScale", Move::BirthDifferenceScale),
    ("RelativeDeathScale", Move::RelativeDeathScale),
    ("GammaShapeScale", Move::GammaShapeScale),
    ("ClockSigmaScale", Move::ClockSigmaScale),
    ("BranchRateScale", Move::BranchRateScale),
    ("NodeTimeRates", Move::NodeTimeRates),
    ("RootTimeRates", Move::RootTimeRates),
    ("ClockSigmaRates", Move::ClockSigmaRates),
    ("NarrowExchangeRates", Move::NarrowExchangeRates),
    ("BirthRateScale", Move::BirthRateScale),
    ("MorphologyRateScale", Move::MorphologyRateScale),
];

fn optional(x: Option<f64>) -> Or<'static, Bits> {
    Or(x.map(Bits), "-")
}

// Of each move its tuning to start with, and whether it changes the process, the tree and the topology.
fn moves(out: &mut impl Write) -> io::Result<()> {
    for (name, of) in MOVES {
        writeln!(
            out,
            "{name} {} {} {} {}",
            optional(of.initial_tuning()),
            of.changes_fbd() as u8,
            of.changes_tree() as u8,
            of.changes_topology() as u8
        )?;
    }
    Ok(())
}

const CLOCKS: [(f64, &[f64]); 8] = [
    (0.5, &RATES),
    // Two rates, the least number.
    (SMALLEST, &[SMALLEST, f64::MAX]),
    // One rate.
    (0.5, &[1.0]),
    // Sigma 0, a NaN.
    (0.0, &RATES),
    (f64::NAN, &RATES),
    // A rate that is a NaN, infinite, 0.
    (0.5, &[f64::NAN, 2.0]),
    (0.5, &[1.0, f64::INFINITY]),
    (0.5, &[1.0, 0.0, 2.0]),
];

fn new_clocks(out: &mut impl Write) -> io::Result<()> {
    for (sigma, rates) in CLOCKS {
        let verdict = Verdict(rates::new(sigma, rates));
        writeln!(
            out,
            "new clock of sigma {} rates{}: {verdict}",
            Bits(sigma),
            Floats(rates)
        )?;
    }
    Ok(())
}

fn branch_rates(out: &mut impl Write) -> io::Result<()> {
    for (sigma, node, root) in [
        (0.5, 1, 4),
        // The root's own.
        (0.5, 4, 4),
        (0.5, 3, 3),
        // The last node uses the root's place.
        (0.5, 4, 3),
        // Node or root above the count.
        (0.5, 5, 4),
        (0.5, 1, 5),
        // No clock.
        (0.0, 1, 4),
    ] {
        let rate = rates::branch_rate(sigma, &RATES, node, root).map(Bits);
        writeln!(
            out,
            "rate of {node} under {root} of sigma {} rates{}: {}",
            Bits(sigma),
            Floats(&RATES),
            Said(rate)
        )?;
    }
    Ok(())
}

fn stored_word(is_stored: bool) -> &'static str {
    if is_stored { "stored" } else { "not stored" }
}

const SIGMAS: [(f64, &[f64], f64); 6] = [
    (0.5, &RATES, 0.75),
    // Not stored: 0, infinite, a NaN.
    (0.5, &RATES, 0.0),
    (0.5, &RATES, f64::INFINITY),
    (0.5, &RATES, f64::NAN),
    // No clock.
    (f64::NAN, &RATES, 0.75),
    (0.5, &[1.0], 0.75),
];

fn set_sigmas(out: &mut impl Write) -> io::Result<()> {
    for (sigma, rates, new) in SIGMAS {
        let set = rates::set_sigma(sigma, rates, new);
        writeln!(
            out,
            "set sigma {} of sigma {} rates{}: {} sigma {}",
            Bits(new),
            Bits(sigma),
            Floats(rates),
            Said(set.stored.map(stored_word)),
            Bits(set.sigma)
        )?;
    }
    Ok(())
}

fn set_rates(out: &mut impl Write) -> io::Result<()> {
    for (sigma, index, new) in [
        (0.5, 0, 0.25),
        (0.5, 3, SMALLEST),
        // Not stored: 0, infinite, a NaN.
        (0.5, 1, -0.0),
        (0.5, 1, f64::INFINITY),
        (0.5, 1, f64::NAN),
        // An index at the count, whatever the rate.
        (0.5, 4, 0.25),
        (0.5, 4, f64::INFINITY),
        // No clock.
        (0.0, 0, 0.25),
    ] {
        let mut rates = RATES;
        let stored = rates::set_rate(sigma, &mut rates, index, new).map(stored_word);
        writeln!(
            out,
            "set rate {index} {} of sigma {} rates{}: {} rates{}",
            Bits(new),
            Bits(sigma),
            Floats(&RATES),
            Said(stored),
            Floats(&rates)
        )?;
    }
    Ok(())
}

#[derive(Clone, Copy)]
struct Log(Density);

impl Display for Log {
    fn fmt<W: fmt::Write>(&self, f: &mut fmt::Formatter<W>) -> fmt::Result {
        match self.0 {
            Density::MinusInfinity => write!(f, "minus infinity"),
            Density::Terms(count, rate, product) => {
                write!(f, "{count} {} {}", Bits(rate), Bits(product))
            }
        }
    }
}

// The Yule density of F with other heights, and of F slid.
fn yules(out: &mut impl Write) -> io::Result<()> {
    for (heights, rate) in [
        // Document 01's case.
        (F_HEIGHTS, 0.5),
        (F_HEIGHTS, f64::MAX),
        // No rate: 0, -1, infinite, a NaN.
        (F_HEIGHTS, 0.0),
        (F_HEIGHTS, -1.0),
        (F_HEIGHTS, f64::INFINITY),
        (F_HEIGHTS, f64::NAN),
        // A tip above 0, and at -0.0.
        ([0.0, SMALLEST, 0.0, 1.0, 2.0], 0.5),
        ([0.0, 0.0, -0.0, 1.0, 2.0], 0.5),
        // Each sum is rounded.
        ([0.0, 0.0, 0.0, 0.1, 0.3], 0.7),
        // Tip 2 above its parent.
        ([0.0, 0.0, 3.0, 1.0, 2.0], 0.5),
    ] {
        let tree = Tree {
            pairs: &F_PAIRS,
            parents: &F_PARENTS,
            heights: &heights,
            root: 4,
        };
        let density = Said(speciation::yule_log_density(&tree, rate).map(Log));
        writeln!(
            out,
            "yule at {} on heights{}: {density}",
            Bits(rate),
            Floats(&heights)
        )?;
    }
    yule_slid(out)
}

// Of F when 0 was slid to 3, whose root is 3, with a height that counts twice.
fn yule_slid(out: &mut impl Write) -> io::Result<()> {
    let slid = Tree {
        pairs: &[NONE, NONE, NONE, NONE, NONE, NONE, 0, 4, 1, 2],
        parents: &[3, 4, 4, NONE, 3],
        heights: &[0.0, 0.0, 0.0, 3.0, 2.0],
        root: 3,
    };
    let density = Said(speciation::yule_log_density(&slid, 0.5).map(Log));
    writeln!(out, "yule of F slid: {density}")
}

// What a scale is given besides the parameters: its tuning, its generator and its allowance.
#[derive(Clone, Copy)]
struct Limits(f64, Generator, u32);

impl Display for Limits {
    fn fmt<W: fmt::Write>(&self, f: &mut fmt::Formatter<W>) -> fmt::Result {
        let Limits(tuning, from, allowance) = *self;
        write!(f, "by {}, {from}, allowance {allowance}", Bits(tuning))
    }
}

// The value, the upper end and the limits of each scale.
const SCALES: [(f64, f64, Limits); 27] = [
    (1.0, 10.0, Limits(0.5, START, 9)),
    (3.0, 10.0, Limits(0.75, Seed(42), 9)),
    (1.0, 10.0, Limits(1.0, FULL, 9)),
    // The factor is the tuning, and the value goes to the upper end.
    (2.0, 1.0, Limits(0.5, ZERO, 9)),
    // Down to 0, of either sign.
    (SMALLEST, 0.0, Limits(0.5, ZERO, 9)),
    (-SMALLEST, 0.0, Limits(0.5, ZERO, 9)),
    // Declined: over the upper end.
    (1.0, 1.0, Limits(0.5, FULL, 9)),
    (2.0, UNDER_ONE, Limits(0.5, ZERO, 9)),
    (1.0, 0.0, Limits(0.5, START, 9)),
    // Below 0.
    (-1.0, 10.0, Limits(0.5, START, 9)),
    // Infinite.
    (f64::MAX, f64::MAX, Limits(0.5, FULL, 9)),
    // Nothing is drawn at 0.
    (0.0, 10.0, Limits(0.5, START, 9)),
    (-0.0, 10.0, Limits(0.5, START, 9)),
    // Tuning 1e-8 and 1, just outside, a NaN.
    (1.0, 10.0, Limits(1e-8, START, 9)),
    (1.0, 10.0, Limits(1.0, START, 9)),
    (1.0, 10.0, Limits(UNDER_TUNING, START, 9)),
    (1.0, 10.0, Limits(OVER_ONE, START, 9)),
    (1.0, 10.0, Limits(f64::NAN, START, 9)),
    // Upper end -1, infinite, -0.0.
    (1.0, -1.0, Limits(0.5, START, 9)),
    (1.0, f64::INFINITY, Limits(0.5, START, 9)),
    (1.0, -0.0, Limits(0.5, START, 9)),
    // The value infinite.
    (f64::INFINITY, 10.0, Limits(0.5, START, 9)),
    // The limits hold at 0 too.
    (0.0, 10.0, Limits(OVER_ONE, START, 9)),
    // Allowance 0, 1, 65535, 65536.
    (1.0, 10.0, Limits(0.5, START, 0)),
    (1.0, 10.0, Limits(0.5, START, 1)),
    (1.0, 10.0, Limits(0.5, START, 65535)),
    (1.0, 10.0, Limits(0.5, START, 65536)),
];

fn value_scales(out: &mut impl Write) -> io::Result<()> {
    for (value, upper, limits) in SCALES {
        let Limits(tuning, from, allowance) = limits;
        let scaled = scales::scale(value, upper, tuning, from.random(), allowance);
        writeln!(
            out,
            "scale {} to {} {limits}: {} value {} state {}",
            Bits(value),
            Bits(upper),
            Said(scaled.proposal),
            Bits(scaled.value),
            Words(scaled.random.state())
        )?;
    }
    Ok(())
}

// What a call on a value that may be missing gives.
#[derive(Clone, Copy)]
struct Rescaled(Scaled<Option<f64>>);

impl Display for Rescaled {
    fn fmt<W: fmt::Write>(&self, f: &mut fmt::Formatter<W>) -> fmt::Result {
        let scaled = self.0;
        let proposal = Said(scaled.proposal);
        let value = optional(scaled.value);
        let state = Words(scaled.random.state());
        write!(f, "{proposal} value {value} state {state}")
    }
}

fn clock_rates(out: &mut impl Write) -> io::Result<()> {
    for (mean, limits) in [
        (Some(1.0), Limits(0.5, START, 9)),
        (Some(0.125), Limits(0.75, Seed(7), 1)),
        (Some(f64::MAX), Limits(0.5, FULL, 9)),
        (Some(f64::INFINITY), Limits(0.5, START, 9)),
        // Without a mean nothing is drawn, within the limits.
        (None, Limits(0.5, START, 9)),
        (None, Limits(OVER_ONE, START, 9)),
        (None, Limits(0.5, START, 0)),
    ] {
        let Limits(tuning, from, allowance) = limits;
        let scaled = scales::clock_rate_scale(mean, tuning, from.random(), allowance);
        writeln!(
            out,
            "clock rate {} {limits}: {}",
            optional(mean),
            Rescaled(scaled)
        )?;
    }
    Ok(())
}

#[derive(Clone, Copy)]
struct Process(Speciation);

impl Display for Process {
    fn fmt<W: fmt::Write>(&self, f: &mut fmt::Formatter<W>) -> fmt::Result {
        match self.0 {
            Yule(rate) => write!(f, "yule {}", Bits(rate)),
            BirthDeath(difference, death) => {
                write!(f, "birth-death {} {}", Bits(difference), Bits(death))
            }
        }
    }
}

// What a call on a process gives.
#[derive(Clone, Copy)]
struct Changed(Scaled<Speciation>);

impl Display for Changed {
    fn fmt<W: fmt::Write>(&self, f: &mut fmt::Formatter<W>) -> fmt::Result {
        let scaled = self.0;
        let proposal = Said(scaled.proposal);
        let process = Process(scaled.value);
        let state = Words(scaled.random.state());
        write!(f, "{proposal} {process} state {state}")
    }
}

fn birth_differences(out: &mut impl Write) -> io::Result<()> {
    for (of, upper, tuning, from) in [
        (BirthDeath(1.0, 2.0), 10.0, 0.75, Seed(42)),
        (BirthDeath(1.0, 0.5), 1.0, 0.5, FULL),
        // A rate that is infinite.
        (BirthDeath(1.0, f64::INFINITY), 10.0, 0.5, START),
        (BirthDeath(f64::INFINITY, 0.5), 10.0, 0.5, START),
        // A Yule process.
        (Yule(1.0), 10.0, 0.5, START),
        (Yule(f64::NAN), 10.0, 0.5, START),
        (Yule(1.0), -1.0, 0.5, START),
    ] {
        let scaled = scales::birth_difference_scale(of, upper, tuning, from.random(), 9);
        writeln!(
            out,
            "birth difference {} to {} {}: {}",
            Process(of),
            Bits(upper),
            Limits(tuning, from, 9),
            Changed(scaled)
        )?;
    }
    Ok(())
}

fn birth_rates(out: &mut impl Write) -> io::Result<()> {
    for (of, upper, tuning, from) in [
        (Yule(3.0), 10.0, 0.75, Seed(7)),
        (Yule(1.0), 1.0, 0.5, FULL),
        (Yule(f64::INFINITY), 10.0, 0.5, START),
        // A birth-death process.
        (BirthDeath(1.0, 0.5), 10.0, 0.5, START),
        (BirthDeath(1.0, f64::NAN), 10.0, 0.5, START),
        (BirthDeath(f64::NAN, 0.5), 10.0, 0.5, START),
        (BirthDeath(1.0, 0.5), 10.0, 2.0, START),
    ] {
        let scaled = scales::birth_rate_scale(of, upper, tuning, from.random(), 9);
        writeln!(
            out,
            "birth rate {} to {} {}: {}",
            Process(of),
            Bits(upper),
            Limits(tuning, from, 9),
            Changed(scaled)
        )?;
    }
    Ok(())
}

fn relative_deaths(out: &mut impl Write) -> io::Result<()> {
    for (of, tuning, from) in [
        (BirthDeath(2.0, 0.5), 0.75, Seed(42)),
        // To 1, and over it.
        (BirthDeath(0.25, 2.0), 0.5, ZERO),
        (BirthDeath(0.25, 0.75), 0.5, FULL),
        (BirthDeath(2.0, 0.0), 0.5, START),
        // A difference that is infinite.
        (BirthDeath(f64::INFINITY, 0.5), 0.5, START),
        // A Yule process.
        (Yule(1.0), 0.5, START),
        (Yule(f64::INFINITY), 0.5, START),
    ] {
        let scaled = scales::relative_death_scale(of, tuning, from.random(), 9);
        let limits = Limits(tuning, from, 9);
        writeln!(
            out,
            "relative death {} {limits}: {}",
            Process(of),
            Changed(scaled)
        )?;
    }
    Ok(())
}

const CLOCK_SIGMAS: [(Option<f64>, &[f64], Limits); 10] = [
    (Some(0.5), &RATES, Limits(0.5, START, 9)),
    (Some(0.5), &RATES, Limits(0.75, Seed(7), 1)),
    // To the infinite, and to 0.
    (Some(f64::MAX), &RATES, Limits(0.5, FULL, 9)),
    (Some(SMALLEST), &RATES, Limits(0.5, ZERO, 9)),
    // Without a clock its rates are not looked at.
    (None, &[f64::NAN], Limits(0.5, START, 9)),
    (None, &[], Limits(OVER_ONE, START, 9)),
    (None, &RATES, Limits(0.5, START, 65536)),
    // Refused.
    (Some(0.0), &RATES, Limits(0.5, START, 9)),
    (Some(0.5), &[1.0], Limits(0.5, START, 9)),
    (Some(0.5), &RATES, Limits(UNDER_TUNING, START, 9)),
];

fn clock_sigmas(out: &mut impl Write) -> io::Result<()> {
    for (sigma, rates, limits) in CLOCK_SIGMAS {
        let Limits(tuning, from, allowance) = limits;
        let scaled = clocks::clock_sigma_scale(sigma, rates, tuning, from.random(), allowance);
        writeln!(
            out,
            "clock sigma {} rates{} {limits}: {}",
            optional(sigma),
            Floats(rates),
            Rescaled(scaled)
        )?;
    }
    Ok(())
}

const BRANCH_RATES: [(Option<f64>, &[f64], Limits); 16] = [
    (Some(0.5), &RATES, Limits(0.5, START, 9)),
    (Some(0.5), &RATES, Limits(0.75, Seed(7), 2)),
    (Some(0.5), &RATES, Limits(0.5, Seed(2024), 65535)),
    (Some(0.5), &RATES, Limits(0.5, UPPER, 9)),
    (Some(0.5), &RATES, Limits(0.5, ZEROS, 2)),
    (Some(1.0), &[3.0, 2.0, 0.5], Limits(0.5, Seed(7), 9)),
    // Declined: to the infinite, and to 0.
    (Some(1.0), &[f64::MAX, 2.0, 0.5], Limits(0.5, Seed(18), 9)),
    (Some(1.0), &[SMALLEST, 2.0, 0.5], Limits(0.5, THEN_ZERO, 9)),
    // Without a clock its rates are not looked at.
    (None, &[f64::NAN], Limits(0.5, START, 1)),
    (None, &[], Limits(0.5, START, 9)),
    (None, &[1.0, 2.0], Limits(2.0, START, 9)),
    // Refused.
    (Some(0.0), &[1.0, 2.0, 0.5], Limits(0.5, START, 9)),
    (Some(1.0), &[f64::INFINITY, 2.0, 0.5], Limits(0.5, START, 9)),
    (Some(0.5), &RATES, Limits(OVER_ONE, START, 9)),
    // Two draws are needed; no number below 3 is drawn.
    (Some(0.5), &RATES, Limits(0.5, START, 1)),
    (Some(1.0), &[3.0, 2.0, 0.5], Limits(0.5, ZEROS, 9)),
];

fn branch_scales(out: &mut impl Write) -> io::Result<()> {
    for (sigma, from, limits) in BRANCH_RATES {
        write!(
            out,
            "branch rate {} rates{} {limits}: ",
            optional(sigma),
            Floats(from)
        )?;
        // Room for the rates of any row.
        let mut places = [0.0; 4];
        for (place, rate) in places.iter_mut().zip(from) {
            *place = *rate;
        }
        let rates = &mut places[..from.len().min(4)];
        let Limits(tuning, random, allowance) = limits;
        let scaled = clocks::branch_rate_scale(sigma, rates, tuning, random.random(), allowance);
        writeln!(
            out,
            "{} rates{} state {}",
            Said(scaled.proposal),
            Floats(rates),
            Words(scaled.random.state())
        )?;
    }
    Ok(())
}

fn main(rt: HostRuntime) -> io::Result<()> {
    let mut out = BufWriter::new(rt.alloc(), io::writer(&rt))?;
    moves(&mut out)?;
    new_clocks(&mut out)?;
    branch_rates(&mut out)?;
    set_sigmas(&mut out)?;
    set_rates(&mut out)?;
    yules(&mut out)?;
    value_scales(&mut out)?;
    clock_rates(&mut out)?;
    birth_differences(&mut out)?;
    birth_rates(&mut out)?;
    relative_deaths(&mut out)?;
    clock_sigmas(&mut out)?;
    branch_scales(&mut out)?;
    out.flush()
}
