// Runs the calls of tip dating: the scales of a fossilized birth–death process, its priors, tables of ages, `initialize` and `propose_age`. A line
// has the call with what it is given and the answer, then what the call may change and the generator's words after it; floats are given by their
// bits, and a dash is a value that is missing. Assumes nothing.
#![tactic(auto)]

use fields::Field;
use kinds::Move;
use lines::{Bits, Floats, Or, Said, Verdict, Words};
use process::{FossilizedBirthDeath, ProcessPriors};
use samples::Generator::Seed;
use samples::{
    F_HEIGHTS, F_PAIRS, F_PARENTS, FULL, Generator, SMALLEST, START, THEN_ZERO, UNDER_TUNING,
    UPPER, ZERO, ZEROS,
};
use std::fmt::Display;
use std::io::{BufWriter, Write};
use std::{fmt, io};

const PROCESS: FossilizedBirthDeath = FossilizedBirthDeath {
    birth: 2.0,
    death: 1.0,
    fossil_sampling: 0.5,
    present_sampling: 0.25,
    origin: 8.0,
};

const PRIORS: ProcessPriors = ProcessPriors {
    birth_rate_mean: Some(1.0),
    death_rate_mean: Some(2.0),
    fossil_sampling_rate_mean: Some(3.0),
    present_sampling_beta: Some((1.0, 2.0)),
    origin_excess_mean: Some(4.0),
};

const NO_PRIORS: ProcessPriors = ProcessPriors {
    birth_rate_mean: None,
    death_rate_mean: None,
    fossil_sampling_rate_mean: None,
    present_sampling_beta: None,
    origin_excess_mean: None,
};

// The priors but for one, in the order of the parameters.
const ALL_BUT_ONE: [ProcessPriors; 5] = [
    ProcessPriors {
        birth_rate_mean: None,
        ..PRIORS
    },
    ProcessPriors {
        death_rate_mean: None,
        ..PRIORS
    },
    ProcessPriors {
        fossil_sampling_rate_mean: None,
        ..PRIORS
    },
    ProcessPriors {
        present_sampling_beta: None,
        ..PRIORS
    },
    ProcessPriors {
        origin_excess_mean: None,
        ..PRIORS
    },
];

// The floats just outside 0.001 and 1000.
const UNDER_SHAPE: f64 = f64::from_bits(0x3f50_624d_d2f1_a9fb);

const OVER_SHAPE: f64 = f64::from_bits(0x408f_4000_0000_0001);

fn with_birth(birth: f64) -> FossilizedBirthDeath {
    FossilizedBirthDeath { birth, ..PROCESS }
}

fn with_death(death: f64) -> FossilizedBirthDeath {
    FossilizedBirthDeath { death, ..PROCESS }
}

fn with_present(present_sampling: f64) -> FossilizedBirthDeath {
    FossilizedBirthDeath {
        present_sampling,
        ..PROCESS
    }
}

fn with_origin(origin: f64) -> FossilizedBirthDeath {
    FossilizedBirthDeath { origin, ..PROCESS }
}

fn shaped(a: f64, b: f64) -> ProcessPriors {
    ProcessPriors {
        present_sampling_beta: Some((a, b)),
        ..NO_PRIORS
    }
}

// One mean in each place.
fn means(mean: f64) -> [ProcessPriors; 4] {
    let mean = Some(mean);
    [
        ProcessPriors {
            birth_rate_mean: mean,
            ..NO_PRIORS
        },
        ProcessPriors {
            death_rate_mean: mean,
            ..NO_PRIORS
        },
        ProcessPriors {
            fossil_sampling_rate_mean: mean,
            ..NO_PRIORS
        },
        ProcessPriors {
            origin_excess_mean: mean,
            ..NO_PRIORS
        },
    ]
}

#[derive(Clone, Copy)]
struct Process(FossilizedBirthDeath);

impl Display for Process {
    fn fmt<W: fmt::Write>(&self, f: &mut fmt::Formatter<W>) -> fmt::Result {
        let of = self.0;
        let fields = [
            of.birth,
            of.death,
            of.fossil_sampling,
            of.present_sampling,
            of.origin,
        ];
        write!(f, "process{}", Floats(&fields))
    }
}

#[derive(Clone, Copy)]
struct Shapes(f64, f64);

impl Display for Shapes {
    fn fmt<W: fmt::Write>(&self, f: &mut fmt::Formatter<W>) -> fmt::Result {
        write!(f, "{},{}", Bits(self.0), Bits(self.1))
    }
}

#[derive(Clone, Copy)]
struct Priors(ProcessPriors);

impl Display for Priors {
    fn fmt<W: fmt::Write>(&self, f: &mut fmt::Formatter<W>) -> fmt::Result {
        let of = self.0;
        write!(
            f,
            "priors {} {} {} {} {}",
            Or(of.birth_rate_mean.map(Bits), "-"),
            Or(of.death_rate_mean.map(Bits), "-"),
            Or(of.fossil_sampling_rate_mean.map(Bits), "-"),
            Or(of.present_sampling_beta.map(|(a, b)| Shapes(a, b)), "-"),
            Or(of.origin_excess_mean.map(Bits), "-")
        )
    }
}

fn name(of: Field) -> &'static str {
    match of {
        Field::Birth => "birth",
        Field::Death => "death",
        Field::FossilSampling => "sampling",
        Field::Origin => "origin",
    }
}

// A scale of a field, over an offset.
#[derive(Clone, Copy)]
struct Scale {
    field: Field,
    priors: ProcessPriors,
    process: FossilizedBirthDeath,
    offset: f64,
    tuning: f64,
    from: Generator,
    allowance: u32,
}

const USUAL: Scale = Scale {
    field: Field::Birth,
    priors: PRIORS,
    process: PROCESS,
    offset: 3.0,
    tuning: 0.5,
    from: START,
    allowance: 9,
};

fn fbd(out: &mut impl Write, scale: Scale) -> io::Result<()> {
    let Scale {
        field,
        priors,
        process,
        offset,
        tuning,
        from,
        allowance,
    } = scale;
    write!(
        out,
        "{} {} {} over {} by {}, {from}, allowance {allowance}: ",
        name(field),
        Priors(priors),
        Process(process),
        Bits(offset),
        Bits(tuning)
    )?;
    let random = from.random();
    let scaled = fields::fbd_scale(field, priors, process, offset, tuning, random, allowance);
    writeln!(
        out,
        "{} {} state {}",
        Said(scaled.proposal),
        Process(scaled.value),
        Words(scaled.random.state())
    )
}

// Of the usual process with all its priors.
fn fbd_over(out: &mut impl Write, rows: &[(Field, f64, f64, Generator, u32)]) -> io::Result<()> {
    for &(field, offset, tuning, from, allowance) in rows {
        let scale = Scale {
            field,
            offset,
            tuning,
            from,
            allowance,
            ..USUAL
        };
        fbd(out, scale)?;
    }
    Ok(())
}

// Of other processes.
fn fbd_from(
    out: &mut impl Write,
    rows: &[(Field, FossilizedBirthDeath, Generator)],
) -> io::Result<()> {
    for &(field, process, from) in rows {
        let scale = Scale {
            field,
            process,
            from,
            ..USUAL
        };
        fbd(out, scale)?;
    }
    Ok(())
}

// With other priors.
fn fbd_by(out: &mut impl Write, rows: &[(Field, ProcessPriors, f64, Generator)]) -> io::Result<()> {
    for &(field, priors, tuning, from) in rows {
        let scale = Scale {
            field,
            priors,
            tuning,
            from,
            ..USUAL
        };
        fbd(out, scale)?;
    }
    Ok(())
}

fn fbd_moved(out: &mut impl Write) -> io::Result<()> {
    fbd_over(
        out,
        &[
            (Field::Birth, 3.0, 0.5, START, 1),
            (Field::Death, 3.0, 0.75, Seed(7), 9),
            (Field::FossilSampling, 3.0, 0.75, Seed(42), 9),
            (Field::Origin, 0.0, 0.5, START, 9),
            (Field::Origin, 3.0, 0.5, START, 9),
            (Field::Origin, 0.1, 0.3, Seed(42), 9),
        ],
    )?;
    // The origin may be the one parameter that is estimated.
    let origin = ProcessPriors {
        origin_excess_mean: Some(0.0),
        ..NO_PRIORS
    };
    fbd_by(out, &[(Field::Origin, origin, 0.5, FULL)])
}

fn fbd_declined(out: &mut impl Write) -> io::Result<()> {
    // The origin at its offset, and under it.
    fbd_over(
        out,
        &[
            (Field::Origin, 8.0, 0.5, START, 9),
            (Field::Origin, 9.0, 0.5, START, 9),
        ],
    )?;
    fbd_from(
        out,
        &[
            // A death rate of 0 is drawn for too.
            (Field::Death, with_death(0.0), START),
            // To the infinite, and to 0.
            (Field::Birth, with_birth(f64::MAX), FULL),
            (Field::Birth, with_birth(SMALLEST), ZERO),
        ],
    )
}

// Nothing is drawn for a field that is not estimated, within the limits.
fn fbd_undrawn(out: &mut impl Write) -> io::Result<()> {
    let [no_birth, _, _, _, no_origin] = ALL_BUT_ONE;
    fbd_by(
        out,
        &[
            (Field::Birth, no_birth, 0.5, START),
            (Field::Origin, no_origin, 0.5, START),
            (Field::Origin, no_origin, 2.0, START),
        ],
    )
}

fn fbd_refused(out: &mut impl Write) -> io::Result<()> {
    // A field infinite, also one that is not scaled.
    fbd_from(
        out,
        &[
            (Field::Birth, with_birth(f64::INFINITY), START),
            (Field::Birth, with_present(f64::NAN), START),
        ],
    )?;
    fbd_over(
        out,
        &[
            // The offset negative, infinite.
            (Field::Birth, -1.0, 0.5, START, 9),
            (Field::Origin, f64::INFINITY, 0.5, START, 9),
            // The tuning, and the allowance.
            (Field::Origin, 3.0, UNDER_TUNING, START, 9),
            (Field::Origin, 3.0, 0.5, START, 0),
        ],
    )?;
    // A prior infinite.
    fbd_by(
        out,
        &[(Field::Birth, shaped(f64::INFINITY, 1.0), 0.5, START)],
    )
}

// Which of the five parameters are estimated; no tip's age is.
fn estimates(out: &mut impl Write, priors: ProcessPriors) -> io::Result<()> {
    write!(out, "estimates {}:", Priors(priors))?;
    for of in [
        Move::FbdBirthScale,
        Move::FbdDeathScale,
        Move::FbdSamplingScale,
        Move::FbdRhoLogit,
        Move::FbdOriginScale,
        Move::TipAge,
    ] {
        write!(out, " {}", priors.estimates(of) as u8)?;
    }
    writeln!(out)
}

fn all_estimates(out: &mut impl Write) -> io::Result<()> {
    estimates(out, PRIORS)?;
    for priors in ALL_BUT_ONE {
        estimates(out, priors)?;
    }
    Ok(())
}

// The verdict on priors, and whether they are finite.
fn validate(out: &mut impl Write, priors: &[ProcessPriors]) -> io::Result<()> {
    for priors in priors {
        let verdict = Verdict(priors.validate());
        let finite = priors.is_finite() as u8;
        writeln!(out, "validate {}: {verdict} {finite}", Priors(*priors))?;
    }
    Ok(())
}

fn validated(out: &mut impl Write) -> io::Result<()> {
    validate(out, &[PRIORS, ALL_BUT_ONE[3], NO_PRIORS])?;
    validate(out, &means(0.0))?;
    let [infinite, _, _, _] = means(f64::INFINITY);
    let [_, _, _, largest] = means(f64::MAX);
    validate(out, &[largest, infinite])
}

fn validated_shapes(out: &mut impl Write) -> io::Result<()> {
    validate(
        out,
        &[
            shaped(0.001, 1000.0),
            shaped(UNDER_SHAPE, 1.0),
            shaped(1.0, UNDER_SHAPE),
            shaped(OVER_SHAPE, 1.0),
            shaped(1.0, OVER_SHAPE),
            shaped(1.0, f64::NAN),
        ],
    )
}

fn finite_processes(out: &mut impl Write) -> io::Result<()> {
    for process in [
        PROCESS,
        with_death(f64::NAN),
        with_origin(f64::NEG_INFINITY),
    ] {
        let finite = process.is_finite() as u8;
        writeln!(out, "finite {}: {finite}", Process(process))?;
    }
    Ok(())
}

// A table of ages.
#[derive(Clone, Copy)]
struct Ages<'a>(&'a [f64], &'a [f64]);

impl Display for Ages<'_> {
    fn fmt<W: fmt::Write>(&self, f: &mut fmt::Formatter<W>) -> fmt::Result {
        write!(f, "ages{} to{}", Floats(self.0), Floats(self.1))
    }
}

// A table by itself.
fn aged(
    out: &mut impl Write,
    minima: &[f64],
    maxima: &[f64],
    of: FossilizedBirthDeath,
    nodes: usize,
) -> io::Result<()> {
    let verdict = Verdict(ages::validate(minima, maxima, of, nodes));
    let table = Ages(minima, maxima);
    writeln!(out, "table of {nodes} {table} {}: {verdict}", Process(of))
}

// Tables of three tips.
fn tables_of_three(
    out: &mut impl Write,
    rows: &[([f64; 3], [f64; 3], FossilizedBirthDeath)],
) -> io::Result<()> {
    for (minima, maxima, of) in rows {
        aged(out, minima, maxima, *of, 5)?;
    }
    Ok(())
}

fn tables_fine(out: &mut impl Write) -> io::Result<()> {
    let unsampled = with_present(0.0);
    tables_of_three(
        out,
        &[
            ([0.0, 0.5, 0.0], [0.0, 1.0, 0.0], PROCESS),
            ([-0.0, 0.0, 0.0], [-0.0, 0.0, 0.0], PROCESS),
            ([0.0, 0.0, SMALLEST], [0.0, 0.0, 7.5], PROCESS),
            ([1.0, 2.0, 3.0], [1.0, 2.0, 3.0], unsampled),
        ],
    )?;
    aged(out, &[0.0, 1.0], &[0.0, 1.0], PROCESS, 3)
}

fn tables_faulty(out: &mut impl Write) -> io::Result<()> {
    let unsampled = with_present(0.0);
    let no_birth = with_birth(f64::NAN);
    tables_of_three(
        out,
        &[
            // Negative.
            ([0.0, -1.0, 0.0], [0.0, 1.0, 0.0], PROCESS),
            // Crossed.
            ([0.0, 0.0, 2.0], [0.0, 0.0, 1.0], PROCESS),
            // At the origin.
            ([0.0, 0.0, 1.0], [0.0, 0.0, 8.0], PROCESS),
            // From the present.
            ([0.0, 0.0, 0.0], [0.0, 1.0, 0.0], PROCESS),
            // Not finite.
            ([0.0, f64::NAN, 0.0], [0.0, 1.0, 0.0], PROCESS),
            ([0.0, 0.0, 1.0], [0.0, 0.0, f64::INFINITY], PROCESS),
            // A tip at the present, where nothing is sampled.
            ([1.0, 0.0, 2.0], [1.0, 0.0, 3.0], unsampled),
            ([1.0, 2.0, -0.0], [1.0, 3.0, 0.0], with_present(-0.0)),
            // A process that is not finite, after a faulty tip.
            ([1.0, -1.0, 2.0], [1.0, 2.0, 2.0], no_birth),
            ([1.0, 1.0, 2.0], [1.0, 2.0, 2.0], no_birth),
            ([1.0, 1.0, 2.0], [1.0, 2.0, 2.0], with_origin(f64::NAN)),
            // Two faulty tips, by different rules in either order: the lower is named.
            ([1.0, 2.0, 0.0], [1.0, 1.0, 0.0], unsampled),
            ([1.0, 0.0, 2.0], [1.0, 0.0, 1.0], unsampled),
            // All three.
            ([0.0, 2.0, 0.0], [0.0, 1.0, 0.0], unsampled),
        ],
    )
}

fn tables_sized(out: &mut impl Write) -> io::Result<()> {
    aged(out, &[0.0; 2], &[0.0; 3], PROCESS, 5)?;
    aged(out, &[0.0; 3], &[0.0; 2], PROCESS, 5)?;
    aged(out, &[-1.0, 0.0, 0.0, 0.0], &[0.0; 4], PROCESS, 5)?;
    aged(out, &[0.0; 2], &[0.0; 2], PROCESS, 4)?;
    aged(out, &[0.0], &[0.0], PROCESS, 1)
}

// `initialize` on F with these heights.
fn initialize(
    out: &mut impl Write,
    mut heights: [f64; 5],
    minima: &[f64],
    maxima: &[f64],
    of: FossilizedBirthDeath,
) -> io::Result<()> {
    let table = Ages(minima, maxima);
    write!(
        out,
        "initialize {table} {} on heights{}: ",
        Process(of),
        Floats(&heights)
    )?;
    let verdict = dating::initialize(&F_PAIRS, &F_PARENTS, &mut heights, 4, minima, maxima, of);
    writeln!(out, "{} heights{}", Verdict(verdict), Floats(&heights))
}

// F, with tips of the ages 0, 0.5 to 1 and 1 to 2, under an origin.
fn initialize_under(out: &mut impl Write, origin: f64, heights: [f64; 5]) -> io::Result<()> {
    let of = with_origin(origin);
    initialize(out, heights, &[0.0, 0.5, 1.0], &[0.0, 1.0, 2.0], of)
}

fn initialized(out: &mut impl Write) -> io::Result<()> {
    initialize_under(out, 10.0, F_HEIGHTS)?;
    initialize_under(out, 7.3, [0.5, 0.25, 0.0, 0.7, 1.1])?;
    for (minima, maxima) in [
        ([-0.0, 0.0, -0.0], [-0.0, 0.0, -0.0]),
        ([0.1, 3.0, 0.7], [0.3, 3.0, 1.9]),
    ] {
        initialize(out, F_HEIGHTS, &minima, &maxima, PROCESS)?;
    }
    Ok(())
}

fn initialize_refused(out: &mut impl Write) -> io::Result<()> {
    for (origin, heights) in [
        // A root height of 0.
        (10.0, [0.0; 5]),
        // The origin at the oldest tip.
        (2.0, F_HEIGHTS),
        // Node 3 too high, or no number: nothing is written.
        (f64::MAX, [0.0, 0.0, 0.0, SMALLEST, 0.5]),
        (10.0, [0.0, 0.0, 0.0, 0.0, SMALLEST]),
    ] {
        initialize_under(out, origin, heights)?;
    }
    // A process that is not finite.
    let infinite = with_birth(f64::INFINITY);
    initialize(out, F_HEIGHTS, &[0.0; 3], &[0.0; 3], infinite)
}

fn initialize_faulty(out: &mut impl Write) -> io::Result<()> {
    let high = [0.0, 0.0, 3.0, 1.0, 2.0];
    // Tip 2 above its parent, which comes before a table.
    initialize(out, high, &[0.0, -1.0, 0.0], &[0.0; 3], PROCESS)?;
    // A faulty tip, which comes before a root height.
    initialize(out, [0.0; 5], &[0.0, 0.0, 2.0], &[0.0, 0.0, 1.0], PROCESS)?;
    // A table of two, which comes first.
    initialize(out, high, &[0.0; 2], &[0.0; 2], PROCESS)
}

// `propose_age` on F with these heights.
fn propose_on(
    out: &mut impl Write,
    mut heights: [f64; 5],
    minima: &[f64],
    maxima: &[f64],
    of: FossilizedBirthDeath,
    from: Generator,
    allowance: u32,
) -> io::Result<()> {
    write!(
        out,
        "propose age {} {} on heights{}, {from}, allowance {allowance}: ",
        Ages(minima, maxima),
        Process(of),
        Floats(&heights)
    )?;
    let made = dating::propose_age(
        &F_PAIRS,
        &F_PARENTS,
        &mut heights,
        4,
        minima,
        maxima,
        of,
        from.random(),
        allowance,
    );
    writeln!(
        out,
        "{} heights{} state {}",
        Said(made.answer),
        Floats(&heights),
        Words(made.random.state())
    )
}

// F, with these ages of tip 0, and 0.5 to 1 and 1 to 2 of the others.
fn proposed(out: &mut impl Write) -> io::Result<()> {
    for (minimum, maximum, from, allowance) in [
        (0.25, 0.75, START, 2),
        (0.25, 0.75, Seed(7), 9),
        (0.1, 0.7, Seed(42), 9),
        (0.1, 0.7, UPPER, 65535),
        // The least age.
        (0.1, 0.7, THEN_ZERO, 9),
        // The parent below the greatest age.
        (0.25, 3.0, START, 9),
        // The first draw is taken again.
        (0.5, 3.0, ZERO, 9),
        // Declined: a fixed age.
        (0.5, 0.5, START, 1),
        // The parent at the least age, and under it.
        (1.0, 3.0, START, 9),
        (1.5, 3.0, START, 9),
        // Refused: two draws are needed; no number below 3 is drawn.
        (0.25, 0.75, START, 1),
        (0.25, 0.75, ZEROS, 9),
        // Allowance 0, 65536.
        (0.25, 0.75, START, 0),
        (0.25, 0.75, START, 65536),
    ] {
        let minima = [minimum, 0.5, 1.0];
        let maxima = [maximum, 1.0, 2.0];
        propose_on(out, F_HEIGHTS, &minima, &maxima, PROCESS, from, allowance)?;
    }
    Ok(())
}

// Tip 1 above its parent; the faulty tip 2; an allowance of 0, or of 65536: the first comes before the second, and that before the third.
fn proposed_faulty(out: &mut impl Write) -> io::Result<()> {
    let low = [0.25, 0.5, 2.0];
    let high = [0.5, 1.0, 1.5];
    for (heights, allowance) in [
        ([0.0, 3.0, 0.0, 1.0, 2.0], 0),
        (F_HEIGHTS, 0),
        (F_HEIGHTS, 65536),
    ] {
        propose_on(out, heights, &low, &high, PROCESS, START, allowance)?;
    }
    // A process that is not finite.
    let infinite = with_birth(f64::INFINITY);
    propose_on(out, F_HEIGHTS, &low, &low, infinite, START, 9)?;
    // A table of two.
    propose_on(out, F_HEIGHTS, &[0.0; 2], &[0.0; 2], PROCESS, START, 9)
}

fn main(rt: HostRuntime) -> io::Result<()> {
    let mut out = BufWriter::new(rt.alloc(), io::writer(&rt))?;
    fbd_moved(&mut out)?;
    fbd_declined(&mut out)?;
    fbd_undrawn(&mut out)?;
    fbd_refused(&mut out)?;
    all_estimates(&mut out)?;
    validated(&mut out)?;
    validated_shapes(&mut out)?;
    finite_processes(&mut out)?;
    tables_fine(&mut out)?;
    tables_faulty(&mut out)?;
    tables_sized(&mut out)?;
    initialized(&mut out)?;
    initialize_refused(&mut out)?;
    initialize_faulty(&mut out)?;
    proposed(&mut out)?;
    proposed_faulty(&mut out)?;
    out.flush()
}
