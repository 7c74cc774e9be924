use super::comparisons::{compare, compare_row};
use crate::stitch;
use design_edits::{Axis, EditFault, MAX_SHIFT, mirror, recolour, shift, turn};
use design_model::{Command, Design, ModelFault, Point};
use std::alloc::Global;
use std::process::Abort;
use std::test::Fail;
use test_values::{design_of, large};

const SAMPLE: [Command; 5] = [
    Command::Stitch(Point { x: 30, y: 0 }),
    Command::Jump(Point { x: 32_767, y: -1 }),
    Command::Trim,
    Command::Stop,
    Command::Stitch(Point { x: -2, y: 7 }),
];

/// Returns a design of the given commands in thread 9.
pub fn filled(alloc: Global, commands: &[Command]) -> Result<Design, ModelFault> {
    let mut design = design_of(alloc, commands)?;
    design.push_thread(9);
    Ok(design)
}

/// The sample after a quarter turn.
const TURNED: [Command; 5] = [
    Command::Stitch(Point { x: 0, y: 30 }),
    Command::Jump(Point { x: 1, y: 32_767 }),
    Command::Trim,
    Command::Stop,
    Command::Stitch(Point { x: -7, y: -2 }),
];

/// The first command of the sample after a half turn, and the last one after mirrorings of one axis and of both.
const HALF: Command = Command::Stitch(Point { x: -30, y: 0 });

const ACROSS: Command = Command::Stitch(Point { x: -2, y: -7 });

const BOTH: Command = Command::Stitch(Point { x: 2, y: -7 });

fn compare_turns(rt: &impl Abort, design: &mut Design) {
    turn(design, 1);
    compare(rt, design.commands(), TURNED.as_slice());
    turn(design, 3);
    compare(rt, design.commands(), SAMPLE.as_slice());
    turn(design, 2);
    compare(rt, design.commands().first(), Some(&HALF));
    turn(design, 0);
    compare(rt, design.commands().first(), Some(&HALF));
}

fn compare_mirrorings(rt: &impl Abort, design: &mut Design) {
    mirror(design, Axis::Y);
    compare(rt, design.commands().last(), Some(&ACROSS));
    mirror(design, Axis::X);
    compare(rt, design.commands().last(), Some(&BOTH));
}

#[test]
fn a_quarter_turn_takes_the_right_downwards_and_a_mirroring_changes_signs(
    rt: HostRuntime,
) -> Result<(), Fail> {
    let mut design = filled(rt.alloc(), &SAMPLE)?;
    compare_turns(&rt, &mut design);
    turn(&mut design, 2);
    compare_mirrorings(&rt, &mut design);
    Ok(())
}

const FIRST: Command = Command::Stitch(Point { x: 30, y: 0 });

const MOVED: Command = Command::Stitch(Point { x: 30, y: 29_993 });

/// A refusal at the command of that number.
macro_rules! range {
    ($number:expr) => {
        Err(EditFault::Range { number: $number })
    };
}

/// Shifts of the sample, their refusals, and its first stitch after them.
const SHIFTS: [(i32, i32, Result<(), EditFault>, Command); 5] = [
    (30_000, 0, range!(1), FIRST),
    (29_970, 0, range!(2), FIRST),
    (0, 29_994, range!(5), FIRST),
    (-60_000, 0, range!(1), FIRST),
    (0, 29_993, Ok(()), MOVED),
];

fn compare_shifts(rt: &impl Abort, design: &mut Design) {
    for (dx, dy, answer, first) in &SHIFTS {
        if dx.unsigned_abs() <= MAX_SHIFT && dy.unsigned_abs() <= MAX_SHIFT {
            compare_row(rt, (*dx, *dy), shift(design, *dx, *dy), *answer);
        }
        compare_row(rt, (*dx, *dy), design.commands().first(), Some(first));
    }
}

#[test]
fn a_shift_out_of_range_changes_nothing(rt: HostRuntime) -> Result<(), Fail> {
    let mut design = filled(rt.alloc(), &SAMPLE)?;
    compare_shifts(&rt, &mut design);
    Ok(())
}

fn compare_recoloured(rt: &impl Abort, design: &mut Design) {
    compare(rt, recolour(design, 3, 7), Ok(()));
    compare(rt, design.threads(), &[9, 2, 3, 7]);
    compare(rt, recolour(design, 1, 0), Ok(()));
    compare(rt, design.threads(), &[9, 0, 3, 7]);
    compare(rt, recolour(design, 4, 7), NO_FIFTH);
    compare(rt, design.threads(), &[9, 0, 3, 7]);
}

/// The refusals of a place after the last of four, and after the last of 255.
const NO_FIFTH: Result<(), EditFault> = Err(EditFault::NoPlace { count: 4 });

const NO_LATER: Result<(), EditFault> = Err(EditFault::NoPlace { count: 255 });

#[test]
fn a_block_gets_a_thread_and_the_others_keep_theirs(rt: HostRuntime) -> Result<(), Fail> {
    let mut design = filled(rt.alloc(), &[Command::Stop; 3])?;
    compare_recoloured(&rt, &mut design);
    Ok(())
}

fn compare_places(rt: &impl Abort, design: &mut Design) {
    compare(rt, recolour(design, 255, 7), NO_LATER);
    compare(rt, recolour(design, 254, 7), Ok(()));
    compare(rt, design.threads().len(), 255);
    compare(rt, design.thread(253), 62);
}

#[test]
fn there_are_at_most_255_places(rt: HostRuntime) -> Result<(), Fail> {
    let mut design = filled(rt.alloc(), &[Command::Stop; 300])?;
    compare_places(&rt, &mut design);
    Ok(())
}

/// Commands near the end of the large design after a shift, a turn and a mirroring, and a float after all of them.
const SHIFTED: Command = Command::Stitch(Point { x: -101, y: 1_050 });

const THEN_TURNED: Command = Command::Stitch(Point { x: -1_050, y: -101 });

const THEN_MIRRORED: Command = Command::Stitch(Point { x: -1_050, y: 101 });

const FLOAT: Command = Command::Jump(Point { x: -1_100, y: 101 });

fn compare_large(rt: &impl Abort, design: &mut Design) {
    compare(rt, shift(design, -200, 1_000), Ok(()));
    compare(rt, design.commands().get(9_998), Some(&SHIFTED));
    turn(design, 1);
    compare(rt, design.commands().get(9_998), Some(&THEN_TURNED));
    mirror(design, Axis::Y);
    compare(rt, design.commands().get(9_998), Some(&THEN_MIRRORED));
    compare(rt, design.commands().get(9_996), Some(&FLOAT));
    compare(rt, recolour(design, 3, 7), Ok(()));
}

/// Compares what edits keep of the large design, and its threads after one is changed.
fn compare_kept(rt: &impl Abort, design: &Design) {
    compare(rt, design.threads(), &[9, 2, 3, 7]);
    compare(rt, design.commands().len(), 10_000);
    compare(rt, design.label(), b"Rose of Damascus");
}

#[test]
fn a_large_design_is_edited_to_its_end(rt: HostRuntime) -> Result<(), Fail> {
    let mut design = large(rt.alloc(), &[9], |x| {
        [
            Command::Jump(Point { x, y: 100 }),
            stitch(x, 0),
            stitch(x, 50),
            Command::Trim,
        ]
    })?;
    compare_large(&rt, &mut design);
    compare_kept(&rt, &design);
    Ok(())
}
