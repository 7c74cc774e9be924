use super::comparisons::compare_row;
use crate::points_of;
use design_model::{Memory, Point, Points};
use line_graph::{DrawKind, Drawing, DrawingMaker, join};
use std::alloc::Global;

/// Ten points that are among those of the long line.
static FEW: &[(i32, i32)] = &[
    (0, 0),
    (2, 0),
    (4, 0),
    (6, 0),
    (8, 0),
    (10, 0),
    (12, 0),
    (14, 0),
    (16, 0),
    (18, 0),
];

/// Returns that many points: row after row, no two of which are equal, or to and fro between two places.
fn long_line(alloc: Global, count: i32, to_and_fro: bool) -> Result<Points, Memory> {
    let mut points = Points::new(alloc);
    for i in 0..count {
        let (x, y) = if to_and_fro {
            (i % 2, 0)
        } else {
            (i % 1_000, i / 1_000)
        };
        points.push(Point { x, y })?;
    }
    Ok(points)
}

/// Adds a line through ten points, and a long one.
fn add_lines(
    alloc: Global,
    maker: &mut DrawingMaker,
    count: i32,
    to_and_fro: bool,
) -> Result<(), DrawKind> {
    maker.add_block(1)?;
    maker.add_line(points_of(alloc, FEW)?)?;
    maker.add_line(long_line(alloc, count, to_and_fro)?)
}

/// Returns the drawing of a line through ten points and a long one.
fn long_drawing(alloc: Global, count: i32, to_and_fro: bool) -> Result<Drawing, DrawKind> {
    let mut maker = DrawingMaker::new(alloc, b"", 2_047);
    add_lines(alloc, &mut maker, count, to_and_fro)?;
    maker.finish()
}

/// Returns the number of sections of a drawing.
fn section_count(alloc: Global, drawing: Result<Drawing, DrawKind>) -> Result<u32, DrawKind> {
    let whole = join(alloc, &drawing?)?;
    Ok(whole.line_count())
}

/// The number of points of the long line, whether it goes to and fro, and the number of sections. The long line shares ten
/// points with the other, eight of which are inside that one; of the line to and fro each point inside is listed again.
static COUNTS: &[(i32, bool, Result<u32, DrawKind>)] = &[
    // 17 points end one section and begin the next.
    (65_536 - 10 - 17, false, Ok(19)),
    (65_536 - 10 - 16, false, Err(DrawKind::TooManyPoints)),
    (1_024, true, Ok(1_024)),
    (1_025, true, Err(DrawKind::TooManyLines)),
    // Too many lines come before too many points of the sections, and too many points of the lines before both.
    (65_536 - 10, true, Err(DrawKind::TooManyLines)),
    (65_536 - 9, true, Err(DrawKind::TooManyPoints)),
];

#[test]
fn sections_have_so_many_lines_and_points(rt: HostRuntime) {
    for (count, to_and_fro, wanted) in COUNTS {
        let drawing = long_drawing(rt.alloc(), *count, *to_and_fro);
        let found = section_count(rt.alloc(), drawing);
        compare_row(&rt, (*count, *to_and_fro), found == *wanted, true);
    }
}
