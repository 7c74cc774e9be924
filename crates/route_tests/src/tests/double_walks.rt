use super::comparisons::compare;
use double_run::double;
use drawing_tests::points_of;
use line_graph::{DrawKind, Drawing, DrawingMaker, Pass, pieces};
use std::alloc::{AllocError, Global};
use std::test::Fail;

/// The points of the lines of a block.
type Lines = &'static [&'static [(i32, i32)]];

/// The cases: the blocks of a drawing, and the passes of its double walks, piece by piece. A pass is a line,
/// and whether it is passed backwards.
const TABLE: [(&[Lines], &[(u32, bool)]); 5] = [
    (&[&[&[(0, 0), (40, 0)]]], &[(0, false), (0, true)]),
    // A triangle is passed around, and back.
    (
        &[&[&[(0, 0), (50, 0)], &[(50, 0), (0, 30)], &[(0, 30), (0, 0)]]],
        &[
            (0, false),
            (1, false),
            (2, false),
            (2, true),
            (1, true),
            (0, true),
        ],
    ),
    // Three lines at one point, the last one towards it.
    (
        &[&[&[(0, 0), (50, 0)], &[(0, 0), (0, 50)], &[(-50, 0), (0, 0)]]],
        &[
            (0, false),
            (0, true),
            (2, true),
            (2, false),
            (1, false),
            (1, true),
        ],
    ),
    // A closed line, and a line that leads to its end.
    (
        &[&[&[(20, 0), (40, 0), (40, 20), (20, 0)], &[(0, 0), (20, 0)]]],
        &[(0, false), (1, true), (1, false), (0, true)],
    ),
    // Two pieces in one block, of which the first has lines 0 and 2, and one in another.
    (
        &[
            &[&[(0, 0), (9, 0)], &[(0, 50), (9, 50)], &[(9, 0), (0, 0)]],
            &[&[(0, 0), (9, 0)]],
        ],
        &[
            (0, false),
            (2, false),
            (2, true),
            (0, true),
            (1, false),
            (1, true),
            (3, false),
            (3, true),
        ],
    ),
];

fn drawn(alloc: Global, blocks: &[Lines]) -> Result<Drawing, DrawKind> {
    let mut maker = DrawingMaker::new(alloc, b"", 10);
    for lines in blocks {
        maker.add_block(1)?;
        for points in *lines {
            maker.add_line(points_of(alloc, points)?)?;
        }
    }
    maker.finish()
}

/// Returns the passes of the double walks over the pieces of a drawing.
fn passes_of(alloc: Global, drawn: Result<Drawing, DrawKind>) -> Result<Vec<(u32, bool)>, Fail> {
    let drawing = drawn.ok().ok_or("not drawn")?;
    let pieces = pieces(alloc, &drawing)?;
    let mut told = Vec::new(alloc);
    for piece in pieces.as_slice() {
        append_passes(&mut told, double(alloc, piece)?.as_slice())?;
    }
    Ok(told)
}

fn append_passes(told: &mut Vec<(u32, bool)>, walk: &[Pass]) -> Result<(), AllocError> {
    for pass in walk {
        told.push((pass.line, pass.back))?;
    }
    Ok(())
}

#[test]
fn each_line_is_passed_forwards_and_backwards(rt: HostRuntime) -> Result<(), Fail> {
    for (blocks, wanted) in &TABLE {
        let told = passes_of(rt.alloc(), drawn(rt.alloc(), blocks))?;
        compare(&rt, told.as_slice(), *wanted);
    }
    Ok(())
}

/// Returns a drawing of 1,000 lines, one after the other and each 30 long.
fn long_row(alloc: Global) -> Result<Drawing, DrawKind> {
    let mut maker = DrawingMaker::new(alloc, b"", 10);
    maker.add_block(1)?;
    for k in -500i16..500 {
        let x = 30 * i32::from(k);
        maker.add_line(points_of(alloc, &[(x, 0), (x + 30, 0)])?)?;
    }
    maker.finish()
}

#[test]
fn a_thousand_lines_are_passed(rt: HostRuntime) -> Result<(), Fail> {
    let told = passes_of(rt.alloc(), long_row(rt.alloc()))?;
    compare(&rt, told.len(), 2_000);
    Ok(())
}
