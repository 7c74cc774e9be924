use super::comparisons::compare_row;
use crate::points_of;
use design_model::Point;
use line_graph::{DrawKind, Drawing, DrawingMaker, MAX_STEP, is_label_word, needles};
use std::alloc::Global;

/// A part of a drawing in the making: a block of the given thread, or a line through the given places.
#[derive(Clone, Copy)]
pub enum DrawingPart {
    Block(u8),
    Line(&'static [(i32, i32)]),
}

use DrawingPart::{Block, Line};

static SQUARES: &[DrawingPart] = &[
    Block(3),
    Line(&[(0, 0), (30, 0), (30, 30), (0, 30), (0, 0)]),
    Block(9),
    Line(&[(300, 0), (330, 0), (330, 30), (300, 30), (300, 0)]),
];

/// Returns the drawing of the given step that grows by these parts.
pub fn grown(alloc: Global, step: u32, parts: &[DrawingPart]) -> Result<Drawing, DrawKind> {
    if step == 0 || step > MAX_STEP {
        return Err(DrawKind::OutOfRange);
    }
    let mut maker = DrawingMaker::new(alloc, b"rose", step);
    for part in parts {
        match part {
            Block(thread) => maker.add_block(*thread)?,
            Line(places) => maker.add_line(points_of(alloc, places)?)?,
        }
    }
    maker.finish()
}

/// Returns whether a drawing has the two squares.
pub fn has_squares(d: &Drawing) -> bool {
    let at = Point { x: 300, y: 0 };
    d.step() == 30
        && d.threads() == [3, 9].as_slice()
        && d.block_count() == 2
        && d.line_count() == 2
        && d.block_thread(1) == 9
        && d.line_block(0) == 0
        && d.line_block(1) == 1
        && d.line_points(1).first() == Some(&at)
}

#[test]
fn a_drawing_has_the_blocks_and_lines_that_it_grew_by(rt: HostRuntime) {
    let found = match grown(rt.alloc(), 30, SQUARES) {
        Ok(d) => has_squares(&d) && d.label() == b"rose".as_slice(),
        Err(_) => false,
    };
    compare_row(&rt, "two squares", found, true);
}

/// Words, and whether they are labels.
static LABELS: &[(&str, bool)] = &[
    ("", true),
    ("rose~!", true),
    ("abcdefghijklmnop", true),
    ("abcdefghijklmnopq", false),
    ("a b", false),
    ("a\u{7f}", false),
];

#[test]
fn a_label_is_a_word_of_sixteen_signs_or_fewer(rt: HostRuntime) {
    for (word, wanted) in LABELS {
        compare_row(&rt, *word, is_label_word(word.as_bytes()), *wanted);
    }
}

/// Parts of a drawing, and why there is none.
static FAULTS: &[(&str, &[DrawingPart], Option<DrawKind>)] = &[
    ("nothing", &[], Some(DrawKind::NoBlock)),
    (
        "a line alone",
        &[Line(&[(30_001, 0)])],
        Some(DrawKind::NoBlock),
    ),
    ("a block", &[Block(1)], Some(DrawKind::EmptyBlock)),
    (
        "two blocks",
        &[Block(1), Block(2)],
        Some(DrawKind::EmptyBlock),
    ),
    (
        "a point too low",
        &[Block(1), Line(&[(0, -30_001)])],
        Some(DrawKind::OutOfRange),
    ),
    (
        "a point too far after one that is repeated",
        &[Block(1), Line(&[(0, 0), (0, 0), (30_001, 0)])],
        Some(DrawKind::OutOfRange),
    ),
    (
        "a point",
        &[Block(1), Line(&[(7, 7)])],
        Some(DrawKind::FewPoints),
    ),
    (
        "a repeated point",
        &[Block(1), Line(&[(0, 0), (7, 7), (7, 7)])],
        Some(DrawKind::RepeatedPoint),
    ),
    (
        "the longest line",
        &[Block(1), Line(&[(-30_000, 0), (30_000, 0)])],
        None,
    ),
];

#[test]
fn the_first_fault_is_told(rt: HostRuntime) {
    for (name, parts, wanted) in FAULTS {
        let found = grown(rt.alloc(), 2_047, *parts).err();
        compare_row(&rt, *name, found == *wanted, true);
    }
}

/// The longest step, the places of a line, the number of its needles, and the second of them.
type NeedleCase = (u32, &'static [(i32, i32)], usize, Point);

static NEEDLES: &[NeedleCase] = &[
    (
        30,
        &[(0, 0), (30, 0), (30, 30), (0, 30), (0, 0)],
        5,
        Point { x: 30, y: 0 },
    ),
    (10, &[(0, 0), (40, 0), (0, 0)], 9, Point { x: 10, y: 0 }),
    (3, &[(0, 0), (-7, 3), (0, 0)], 7, Point { x: -3, y: 1 }),
];

/// Returns whether the only line of a drawing has the needles of a row.
fn has_needles(alloc: Global, d: &Drawing, case: &NeedleCase) -> Result<bool, DrawKind> {
    if d.line_count() == 0 {
        return Err(DrawKind::EmptyBlock);
    }
    let points = needles(alloc, d, 0)?;
    Ok(points.len() == case.2 && points.as_slice().get(1) == Some(&case.3))
}

/// Returns whether the line of a row has its needles.
fn is_sewn(alloc: Global, case: &NeedleCase) -> Result<bool, DrawKind> {
    let d = grown(alloc, case.0, &[Block(255), Line(case.1)])?;
    has_needles(alloc, &d, case)
}

#[test]
fn the_needles_of_a_line_are_its_points_and_those_between(rt: HostRuntime) {
    for case in NEEDLES {
        let is = is_sewn(rt.alloc(), case);
        compare_row(&rt, case.0, is.ok(), Some(true));
    }
}

/// The places of lines, their number, whether each has a block of its own, and why there is no such drawing.
type ManyCase = (&'static [(i32, i32)], u32, bool, Option<DrawKind>);

static MOST: &[ManyCase] = &[
    (&[(0, 0), (1, 0)], 255, true, None),
    (&[(0, 0), (1, 0)], 256, true, Some(DrawKind::TooManyBlocks)),
    (&[(0, 0), (1, 0)], 1_024, false, None),
    (
        &[(0, 0), (1, 0)],
        1_025,
        false,
        Some(DrawKind::TooManyLines),
    ),
    (&[(0, 0), (20_000, 0)], 10, false, None),
    (
        &[(0, 0), (20_000, 0)],
        11,
        false,
        Some(DrawKind::TooMuchCost),
    ),
];

/// Adds the lines of a row to a drawing.
fn add_lines(alloc: Global, maker: &mut DrawingMaker, case: &ManyCase) -> Result<(), DrawKind> {
    for number in 0..case.1 {
        if case.2 || number == 0 {
            maker.add_block(1)?;
        }
        maker.add_line(points_of(alloc, case.0)?)?;
    }
    Ok(())
}

/// Returns why there is no drawing with the lines of a row.
fn fault_of_many(alloc: Global, case: &ManyCase) -> Option<DrawKind> {
    let mut maker = DrawingMaker::new(alloc, b"", 1);
    add_lines(alloc, &mut maker, case).err()
}

#[test]
fn a_drawing_has_so_many_blocks_and_lines_and_steps(rt: HostRuntime) {
    for case in MOST {
        let found = fault_of_many(rt.alloc(), case);
        compare_row(&rt, case.1, found == case.3, true);
    }
}
