use super::comparisons::{compare, compare_row};
use super::edits::filled;
use crate::stitch;
use design_model::{
    Command, Design, MAX_COMMANDS, ModelFault, NEEDLE_LIMIT, Point, Points, counts,
};
use std::alloc::Global;
use std::process::Abort;
use std::test::Fail;
use step_splitter::{MAX_STEP, RefitFault, RefitMode, refit, split, steps};
use test_values::large;

macro_rules! points {
    ($(($x:expr, $y:expr)),*) => { [$(Point { x: $x, y: $y }),*] };
}

macro_rules! stitch {
    ($x:expr, $y:expr) => {
        Command::Stitch(Point { x: $x, y: $y })
    };
}

macro_rules! jump {
    ($x:expr, $y:expr) => {
        Command::Jump(Point { x: $x, y: $y })
    };
}

fn at(place: (i32, i32)) -> Point {
    Point {
        x: place.0,
        y: place.1,
    }
}

fn count(from: (i32, i32), to: (i32, i32), step: u32) -> u32 {
    let (p, q) = (at(from), at(to));
    if p == q || !p.is_within(NEEDLE_LIMIT) || !q.is_within(NEEDLE_LIMIT) {
        return 0;
    }
    if step < 1 || step > MAX_STEP {
        return 0;
    }
    steps(p, q, step)
}

fn ends(alloc: Global, from: (i32, i32), to: (i32, i32), step: u32) -> Option<Points> {
    let (p, q) = (at(from), at(to));
    if p == q || !p.is_within(NEEDLE_LIMIT) || !q.is_within(NEEDLE_LIMIT) {
        return None;
    }
    if step < 1 || step > MAX_STEP {
        return None;
    }
    split(alloc, p, q, step).ok()
}

/// The ends of segments, the longest step, and the number of steps.
const COUNTS: [((i32, i32), (i32, i32), u32, u32); 6] = [
    ((0, 0), (30, 0), 30, 1),
    ((0, 0), (31, 0), 30, 2),
    ((0, 0), (0, -31), 30, 2),
    ((5, 5), (5, 6), 2_047, 1),
    ((-30_000, 0), (30_000, 0), 1, 60_000),
    ((0, 0), (-7, 3), 3, 3),
];

#[test]
fn a_segment_has_as_few_steps_as_the_longest_one_allows(rt: HostRuntime) {
    for (from, to, step, wanted) in &COUNTS {
        compare_row(&rt, *step, count(*from, *to, *step), *wanted);
    }
}

/// The ends of segments, the longest step, and the ends of the steps.
const ENDS: [((i32, i32), (i32, i32), u32, [Point; 3]); 4] = [
    ((0, 0), (-7, 3), 3, points!((-3, 1), (-5, 2), (-7, 3))),
    ((0, 0), (7, -3), 3, points!((2, -1), (4, -2), (7, -3))),
    ((10, 10), (10, 0), 4, points!((10, 6), (10, 3), (10, 0))),
    (
        (30_000, -30_000),
        (25_000, -30_000),
        2_000,
        points!((28_333, -30_000), (26_666, -30_000), (25_000, -30_000)),
    ),
];

#[test]
fn the_ends_of_the_steps_are_rounded_towards_the_lesser_number(
    rt: HostRuntime,
) -> Result<(), Fail> {
    for (from, to, step, wanted) in &ENDS {
        let points = ends(rt.alloc(), *from, *to, *step).ok_or("no memory")?;
        compare_row(&rt, *step, points.as_slice(), wanted);
    }
    Ok(())
}

fn refitted(alloc: Global, mode: RefitMode, limit: u32, design: &Design) -> Result<Design, Fail> {
    if limit < 1 || limit > MAX_STEP {
        return Err("no limit".into());
    }
    Ok(refit(alloc, design, limit, mode).ok().ok_or("no memory")?)
}

const FAR_APART: [Command; 5] = [
    stitch!(0, 0),
    jump!(400, 0),
    stitch!(400, 0),
    Command::Stop,
    stitch!(0, 0),
];

const FLOAT: [Command; 6] = [
    stitch!(0, 0),
    jump!(100, 0),
    jump!(200, 0),
    jump!(300, 0),
    jump!(400, 0),
    stitch!(400, 0),
];

const FIFTHS: [Command; 6] = [
    stitch!(0, 0),
    stitch!(100, 0),
    stitch!(200, 0),
    stitch!(300, 0),
    stitch!(400, 0),
    stitch!(500, 0),
];

const FAR: [Command; 2] = [stitch!(0, 0), stitch!(400, 0)];

/// Refits by their mode and limit, commands, and what they are after it.
const REFITS: [(RefitMode, u32, &[Command], &[Command]); 6] = [
    (
        RefitMode::Split,
        121,
        &[stitch!(0, 0), stitch!(122, 0)],
        &[stitch!(0, 0), stitch!(61, 0), stitch!(122, 0)],
    ),
    (
        RefitMode::Split,
        127,
        &[stitch!(0, 0), stitch!(-5, 128)],
        &[stitch!(0, 0), stitch!(-3, 64), stitch!(-5, 128)],
    ),
    (
        RefitMode::Split,
        121,
        &[stitch!(0, 0), stitch!(500, 0)],
        &FIFTHS,
    ),
    (RefitMode::Split, 121, &FAR_APART, &FAR_APART),
    (
        RefitMode::Cut,
        121,
        &FLOAT,
        &[stitch!(0, 0), Command::Trim, stitch!(400, 0)],
    ),
    (RefitMode::Cut, 121, &FAR, &FAR),
];

/// Compares a refit of commands in thread 9 with the given commands, and its threads.
fn compare_refit(
    rt: &impl Abort,
    alloc: Global,
    (mode, limit): (RefitMode, u32),
    before: &[Command],
    after: &[Command],
) -> Result<(), Fail> {
    let design = filled(alloc, before)?;
    let refitted = refitted(alloc, mode, limit, &design)?;
    compare(rt, refitted.commands(), after);
    compare(rt, refitted.threads(), &[9]);
    Ok(())
}

#[test]
fn far_needles_are_split_and_floats_are_cut(rt: HostRuntime) -> Result<(), Fail> {
    for (mode, limit, before, after) in &REFITS {
        compare_refit(&rt, rt.alloc(), (*mode, *limit), before, after)?;
    }
    Ok(())
}

/// Returns a design of stitches at one place, and then a float, which with its needle has the last commands but one.
fn full(alloc: Global) -> Result<Design, ModelFault> {
    let mut design = Design::new(alloc);
    for _ in 0..MAX_COMMANDS - 3 {
        design.push(stitch(0, 0))?;
    }
    design.push(Command::Jump(Point { x: 0, y: 0 }))?;
    design.push(stitch(10, 0))?;
    Ok(design)
}

/// Compares the refusal of a refit that splits stitches longer than 10.
fn compare_refusal(rt: &impl Abort, alloc: Global, design: &Design, wanted: Option<RefitFault>) {
    let fault = refit(alloc, design, 10, RefitMode::Split).err();
    compare(rt, fault, wanted);
}

/// The refusal at the last act of a million.
const LAST: RefitFault = RefitFault::TooMany { number: 1_000_000 };

#[test]
fn a_refit_stops_at_the_act_with_a_command_too_many(rt: HostRuntime) -> Result<(), Fail> {
    let mut design = full(rt.alloc())?;
    compare_refusal(&rt, rt.alloc(), &design, None);
    design.push(stitch(31, 0))?;
    compare_refusal(&rt, rt.alloc(), &design, Some(LAST));
    Ok(())
}

/// Compares the needles, trims and stops of a design with the given numbers.
fn compare_counts(rt: &impl Abort, design: &Design, wanted: [u32; 3]) {
    let all = counts(design);
    compare(rt, [all.needles, all.trims, all.stops], wanted);
}

/// Compares what is cut of the large design with its counts, its label and its threads.
fn compare_cut(rt: &impl Abort, cut: &Design) {
    compare_counts(rt, cut, [14_993, 1_250, 3]);
    compare(rt, cut.label(), b"Rose of Damascus");
    compare(rt, cut.threads(), &[9]);
}

/// Returns a large design of long stitches, and of floats in every second round.
fn long(alloc: Global) -> Result<Design, ModelFault> {
    large(alloc, &[9], |x| {
        let third = if x % 2 == 0 {
            jump!(x, 5)
        } else {
            stitch!(x, 30)
        };
        [stitch(x, 0), stitch(x, 100), third, stitch(x, 60)]
    })
}

#[test]
fn a_large_design_is_split_and_cut(rt: HostRuntime) -> Result<(), Fail> {
    let design = long(rt.alloc())?;
    let split = refitted(rt.alloc(), RefitMode::Split, 50, &design)?;
    compare_counts(&rt, &split, [14_993, 0, 3]);
    let cut = refitted(rt.alloc(), RefitMode::Cut, 50, &split)?;
    compare_cut(&rt, &cut);
    Ok(())
}
