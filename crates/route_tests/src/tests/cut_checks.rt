ghost use Rattle.odd_cuts.specs.CutFaults.{HaveNumberedMembers};
ghost use Rattle.std.specs.Prelude.{◌+◌, ◌≤◌, IfOk, OnOk, length};

use super::cert_parts::{members_of, pass_of};
use super::comparisons::compare_row;
use super::routes::{drawing_of, numbers_of};
use design_model::Memory;
use drawing_tests::points_of;
use line_graph::{DrawKind, Drawing, DrawingMaker, Pass, Piece, Pieces, pieces};
use odd_cuts::{Cut, CutFault, Cuts, WalkFault, check_cuts, check_walk};
use route_core::route;
use std::alloc::Global;
use std::process::Abort;
use std::test::Fail;

/// The lines 1, 3 and 6 from one junction to the others, the last of them towards it. The lines between them
/// are in another piece.
const STAR: &str = "redwork 3
step 10
color 1
line 0 0 20 0
line 100 0 110 0
line 0 0 30 30
line 110 0 120 0
line 120 0 130 0
line 0 10 0 0
";

/// Six lines between four junctions.
const COMPLETE: &str = "redwork 3
step 30
color 1
line 0 0 30 0
line 0 0 30 30
line 0 0 0 30
line 30 0 30 30
line 30 0 0 30
line 30 30 0 30
";

/// Two loops at the ends of a line.
const LOOPS: &str = "redwork 3
step 10
color 1
line 0 0 -10 10 -10 -10 0 0
line 0 0 30 0
line 30 0 40 10 40 -10 30 0
";

/// Returns the pieces of the drawing of a text and a few more lines.
fn pieces_of(alloc: Global, text: &str, more: &str) -> Result<Pieces, Fail> {
    let d = drawing_of(alloc, text, more)?;
    Ok(pieces(alloc, &d)?)
}

fn first_of(pieces: &Pieces) -> Result<&Piece, Fail> {
    Ok(pieces.as_slice().first().ok_or("no piece")?)
}

/// Returns the result of the check of a walk of at most `count` passes, given by line number, negative for
/// backwards.
fn told(p: &Piece, passes: [i8; 6], count: usize) -> Result<u64, WalkFault> {
    let mut walk = [Pass {
        line: 0,
        back: false,
    }; 6];
    for (k, pass) in passes.iter().enumerate() {
        if k < 6 {
            walk[k] = pass_of(*pass);
        }
    }
    if count < 6 {
        check_walk(p, &walk[..count])
    } else {
        check_walk(p, &walk)
    }
}

/// More lines of the star's drawing, passes and how many of them are taken, and the result of the check.
type WalkRow = (&'static str, [i8; 6], usize, Result<u64, WalkFault>);

const CLOSED: [WalkRow; 10] = [
    ("", [1, -1, 3, -3, -6, 6], 6, Ok(12)),
    ("", [-6, 6, 3, -3, 1, -1], 6, Ok(12)),
    ("", [1, -1, 3, -3, -6, 6], 5, Err(WalkFault::Open)),
    ("", [1, -1, 3, -3, -6, 6], 0, Err(WalkFault::Open)),
    (
        "",
        [1, -1, 3, -3, -6, 6],
        4,
        Err(WalkFault::Missing { line: 6 }),
    ),
    (
        "",
        [-6, 6, -6, 6, 1, -1],
        6,
        Err(WalkFault::Missing { line: 3 }),
    ),
    (
        "",
        [1, -1, 3, -3, 6, -6],
        6,
        Err(WalkFault::Broken { pass: 5 }),
    ),
    (
        "",
        [1, -1, 2, -2, -6, 6],
        6,
        Err(WalkFault::Stranger { pass: 3 }),
    ),
    (
        "",
        [4, -1, 3, -3, -6, 6],
        6,
        Err(WalkFault::Stranger { pass: 1 }),
    ),
    (
        "",
        [1, 3, 2, -3, -6, 6],
        6,
        Err(WalkFault::Broken { pass: 2 }),
    ),
];

/// Passes over the star, of which some are a walk from its first line's end.
const WAY: [i8; 6] = [-1, 3, -3, -6, 6, 1];

/// A start at the end of the first line, and an end at the beginning of the last.
const BETWEEN: &str = "start 20 0\nend 0 10\n";

const BACK: &str = "start 0 10\nend 20 0\n";

const RETURNING: &str = "end 20 0\n";

const HOME: &str = "start 20 0\nend 0 0\n";

const ENDED: [WalkRow; 7] = [
    (BETWEEN, WAY, 4, Ok(9)),
    (BETWEEN, WAY, 3, Err(WalkFault::WrongEnd)),
    (BACK, WAY, 4, Err(WalkFault::WrongStart)),
    (RETURNING, WAY, 4, Err(WalkFault::WrongEnd)),
    (RETURNING, WAY, 6, Ok(12)),
    (RETURNING, WAY, 0, Err(WalkFault::WrongStart)),
    (HOME, WAY, 3, Err(WalkFault::Missing { line: 6 })),
];

/// Compares the result of the check of a walk over the star with the expected one, for each row.
fn compare_walks(rt: &impl Abort, alloc: Global, rows: &[WalkRow]) -> Result<(), Fail> {
    for (more, passes, count, wanted) in rows {
        let star = pieces_of(alloc, STAR, more)?;
        let found = told(first_of(&star)?, *passes, *count);
        compare_row(rt, (*more, *passes, *count), found, *wanted);
    }
    Ok(())
}

#[test]
fn the_first_fault_of_a_closed_walk_is_told(rt: HostRuntime) -> Result<(), Fail> {
    compare_walks(&rt, rt.alloc(), &CLOSED)
}

#[test]
fn a_walk_is_to_begin_and_to_end_where_that_is_said(rt: HostRuntime) -> Result<(), Fail> {
    compare_walks(&rt, rt.alloc(), &ENDED)
}

/// Returns the result of the check of cuts, each given by its weight and its junctions by number; 0 is none.
fn said(
    alloc: Global,
    p: &Piece,
    retraced: u32,
    table: [(u32, [u8; 3]); 4],
) -> Result<Result<(), CutFault>, Memory> {
    let cuts = cuts_of(alloc, &table)?;
    Ok(check_cuts(p, retraced, &cuts))
}

fn cuts_of(alloc: Global, table: &[(u32, [u8; 3])]) -> Result<Cuts, Memory>
    ensures numbered { IfOk result HaveNumberedMembers }
    ensures few { IfOk result (λ cuts. length cuts ≤ length table.now) }
{
    let mut cuts = Cuts::new(alloc);
    for (weight, numbers) in table {
        add_cut(alloc, &mut cuts, *weight, numbers)?;
    }
    Ok(cuts)
}

fn add_cut(alloc: Global, cuts: &mut Cuts, weight: u32, numbers: &[u8]) -> Result<(), Memory>
    ensures numbered { OnOk result (HaveNumberedMembers cuts.old → HaveNumberedMembers cuts.new) }
    ensures few { OnOk result (length cuts.new ≤ length cuts.old + 1) }
{
    if weight > 0 {
        let members = members_of(alloc, numbers)?;
        cuts.push(Cut { weight, members })?;
    }
    Ok(())
}

/// No cut.
const NONE: (u32, [u8; 3]) = (0, [0, 0, 0]);

/// A cut around the second junction.
const SECOND: (u32, [u8; 3]) = (4, [2, 0, 0]);

/// A cut around the third junction.
const THIRD: (u32, [u8; 3]) = (6, [3, 0, 0]);

/// A cut around the last junction.
const LAST: (u32, [u8; 3]) = (2, [4, 0, 0]);

/// Cuts, and the result of their check.
type CutRow = ([(u32, [u8; 3]); 4], Result<(), CutFault>);

/// A fault of the sum of the weights.
macro_rules! total {
    ($sum:expr) => {
        Err(CutFault::Total {
            sum: $sum,
            needed: 12,
        })
    };
}

/// A cut, and the number of odd junctions that it holds.
macro_rules! even {
    ($cut:expr, $odd:expr) => {
        Err(CutFault::EvenCut {
            cut: $cut,
            odd: $odd,
        })
    };
}

/// A line, its load, and the load that it may have.
macro_rules! overload {
    ($line:expr, $load:expr, $allowed:expr) => {
        Err(CutFault::Overload {
            line: $line,
            load: $load,
            allowed: $allowed,
        })
    };
}

const TOTALS: [CutRow; 4] = [
    ([SECOND, THIRD, LAST, NONE], Ok(())),
    ([(1, [2, 2, 0]), (3, [2, 0, 0]), THIRD, LAST], Ok(())),
    ([THIRD, SECOND, (1, [4, 0, 0]), NONE], total!(11)),
    ([NONE, NONE, NONE, NONE], total!(0)),
];

const FAULTS: [CutRow; 5] = [
    (
        [SECOND, (6, [3, 5, 8]), NONE, NONE],
        Err(CutFault::Stranger {
            cut: 2,
            junction: 5,
        }),
    ),
    ([SECOND, (6, [3, 1, 0]), NONE, NONE], even!(2, 2)),
    ([(4, [2, 2, 4]), (6, [9, 0, 0]), NONE, NONE], even!(1, 2)),
    ([SECOND, LAST, (1, [1, 2, 3]), NONE], overload!(6, 3, 2)),
    (
        [(3, [4, 0, 0]), (9, [3, 0, 0]), NONE, NONE],
        overload!(3, 9, 6),
    ),
];

/// Cuts of the star between a start and an end.
const OPEN: [CutRow; 2] = [
    ([THIRD, NONE, NONE, NONE], Ok(())),
    ([(6, [4, 0, 0]), NONE, NONE, NONE], even!(1, 0)),
];

/// A cut around either end of the line between two loops.
const BRIDGE: [CutRow; 2] = [
    ([(6, [1, 0, 0]), NONE, NONE, NONE], Ok(())),
    ([(6, [2, 0, 0]), NONE, NONE, NONE], Ok(())),
];

/// Cuts around the junctions of the complete drawing.
const HALVES: [CutRow; 2] = [
    (
        [
            (1, [1, 0, 0]),
            (1, [2, 0, 0]),
            (1, [3, 0, 0]),
            (1, [4, 0, 0]),
        ],
        Ok(()),
    ),
    (
        [(2, [1, 0, 0]), (1, [2, 0, 0]), (1, [3, 0, 0]), NONE],
        overload!(1, 3, 2),
    ),
];

/// Compares the result of the check with the expected one, for each table of cuts of a drawing's piece that retraces
/// the given cost.
fn compare_cuts(
    rt: &impl Abort,
    alloc: Global,
    (text, more): (&str, &str),
    retraced: u32,
    rows: &[CutRow],
) -> Result<(), Fail> {
    let pieces = pieces_of(alloc, text, more)?;
    let p = first_of(&pieces)?;
    for (table, wanted) in rows {
        compare_row(rt, *table, said(alloc, p, retraced, *table)?, *wanted);
    }
    Ok(())
}

#[test]
fn the_first_fault_of_cuts_is_told(rt: HostRuntime) -> Result<(), Fail> {
    compare_cuts(&rt, rt.alloc(), (STAR, ""), 6, &TOTALS)?;
    compare_cuts(&rt, rt.alloc(), (STAR, ""), 6, &FAULTS)
}

#[test]
fn start_and_end_are_odd_no_more(rt: HostRuntime) -> Result<(), Fail> {
    compare_cuts(&rt, rt.alloc(), (STAR, BETWEEN), 3, &OPEN)
}

#[test]
fn halves_at_four_junctions_are_a_packing(rt: HostRuntime) -> Result<(), Fail> {
    compare_cuts(&rt, rt.alloc(), (COMPLETE, ""), 2, &HALVES)
}

#[test]
fn a_line_between_two_loops_has_a_cut(rt: HostRuntime) -> Result<(), Fail> {
    compare_cuts(&rt, rt.alloc(), (LOOPS, ""), 3, &BRIDGE)
}

/// The sets of junctions of the complete drawing with an odd number of them.
const ODD_SETS: [[u8; 3]; 8] = [
    [1, 0, 0],
    [2, 0, 0],
    [3, 0, 0],
    [4, 0, 0],
    [1, 2, 3],
    [1, 2, 4],
    [1, 3, 4],
    [2, 3, 4],
];

/// Compares whether two cuts of weight 2, or one of weight 4, overload a line of the complete drawing. Four halves are needed,
/// and no other even weights sum to four.
fn compare_even_cuts(rt: &impl Abort, alloc: Global, p: &Piece, one: [u8; 3]) -> Result<(), Fail> {
    for other in &ODD_SETS {
        let two = said(alloc, p, 2, [(2, one), (2, *other), NONE, NONE])?;
        let is = matches!(two, Err(CutFault::Overload { .. }));
        compare_row(rt, (one, *other), is, true);
    }
    let heavy = said(alloc, p, 2, [(4, one), NONE, NONE, NONE])?;
    compare_row(
        rt,
        one,
        matches!(heavy, Err(CutFault::Overload { .. })),
        true,
    );
    Ok(())
}

#[test]
fn no_packing_with_even_weights_reaches_four(rt: HostRuntime) -> Result<(), Fail> {
    let pieces = pieces_of(rt.alloc(), COMPLETE, "")?;
    for one in &ODD_SETS {
        compare_even_cuts(&rt, rt.alloc(), first_of(&pieces)?, *one)?;
    }
    Ok(())
}

/// The outer junctions of a star of forty strokes, by number.
const OUTER: [u8; 40] = [
    2, 3, 4, 5, 6, 7, 8, 9, 10, 11, 12, 13, 14, 15, 16, 17, 18, 19, 20, 21, 22, 23, 24, 25, 26, 27,
    28, 29, 30, 31, 32, 33, 34, 35, 36, 37, 38, 39, 40, 41,
];

/// Returns a cut of that weight around each of the junctions.
fn single_cuts(alloc: Global, weight: u32, numbers: &[u8]) -> Result<Cuts, Memory>
    ensures numbered { IfOk result HaveNumberedMembers }
    ensures few { IfOk result (λ cuts. length cuts ≤ length numbers.now) }
{
    let mut cuts = Cuts::new(alloc);
    for number in numbers {
        add_cut(alloc, &mut cuts, weight, &[*number])?;
    }
    Ok(cuts)
}

/// Returns the drawing of forty strokes of one step, from one junction to places that are a tenth of a millimetre apart.
fn star(alloc: Global) -> Result<Drawing, DrawKind> {
    let mut maker = DrawingMaker::new(alloc, b"", 25);
    maker.add_block(1)?;
    for y in -20..20 {
        maker.add_line(points_of(alloc, &[(0, 0), (25, y)])?)?;
    }
    maker.finish()
}

/// Weights of the cuts around the forty outer junctions, and the result of their check.
const FORTY: [(u32, Result<(), CutFault>); 3] = [
    (2, Ok(())),
    (3, overload!(1, 3, 2)),
    (
        1,
        Err(CutFault::Total {
            sum: 40,
            needed: 80,
        }),
    ),
];

/// Compares the result of the check of forty cuts of a star with the expected one, for each weight.
fn compare_star(rt: &impl Abort, alloc: Global, p: &Piece) -> Result<(), Fail> {
    for (weight, wanted) in &FORTY {
        let cuts = single_cuts(alloc, *weight, &OUTER)?;
        compare_row(rt, *weight, check_cuts(p, 40, &cuts), *wanted);
    }
    Ok(())
}

#[test]
fn forty_cuts_of_a_star_are_a_packing(rt: HostRuntime) -> Result<(), Fail> {
    let star = star(rt.alloc()).ok().ok_or("no drawing")?;
    compare_star(&rt, rt.alloc(), first_of(&pieces(rt.alloc(), &star)?)?)?;
    let routed = route(rt.alloc(), &star)?;
    let cert = routed.cert.pieces.as_slice().first().ok_or("no piece")?;
    compare_row(&rt, "forty strokes", numbers_of(cert), (80, 40, 80));
    Ok(())
}
