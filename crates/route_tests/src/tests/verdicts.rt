ghost use Rattle.route_verdict.specs.Verdicts.{HasShortLists};
ghost use Rattle.std.specs.Prelude.{◌≤◌, All, IfOk, length};

use super::cert_parts::{members_of, pass_of};
use super::comparisons::{compare, compare_row};
use design_model::{Command, Memory, Point};
use drawing_tests::points_of;
use line_graph::{DrawKind, Drawing, DrawingMaker, Walk};
use odd_cuts::{Cert, Cut, CutFault, Cuts, PieceCert, PieceCerts, WalkFault};
use route_verdict::{Reason, Verdict, judge};
use std::alloc::Global;
use std::process::Abort;
use std::test::Fail;
use test_values::design_of;

/// Strokes at step 10, each in a block of its own, from one x to another.
fn strokes(alloc: Global, ends: &[(i32, i32)]) -> Result<Drawing, DrawKind> {
    let mut maker = DrawingMaker::new(alloc, b"", 10);
    for (from, to) in ends {
        maker.add_block(1)?;
        maker.add_line(points_of(alloc, &[(*from, 0), (*to, 0)])?)?;
    }
    maker.finish()
}

/// The certificate of a piece: the retraced cost, two passes by line number (negative for backwards), and
/// the weight and the junctions of one cut, by number. The number 0 stands for none.
type PieceClaim = (u32, [i8; 2], u32, [u8; 2]);

fn cert_of(alloc: Global, said: &PieceClaim) -> Result<PieceCert, Memory>
    ensures { IfOk result HasShortLists }
{
    let (retraced, passes, weight, numbers) = *said;
    let walk = walk_of(alloc, passes)?;
    let mut cuts = Cuts::new(alloc);
    cuts.push(Cut {
        weight,
        members: members_of(alloc, &numbers)?,
    })?;
    Ok(PieceCert {
        retraced,
        walk,
        cuts,
    })
}

fn walk_of(alloc: Global, passes: [i8; 2]) -> Result<Walk, Memory>
    ensures { IfOk result (λ walk. length walk ≤ 2) }
{
    let mut walk = Walk::new(alloc);
    if passes[0] != 0 {
        walk.push(pass_of(passes[0]))?;
    }
    if passes[1] != 0 {
        walk.push(pass_of(passes[1]))?;
    }
    Ok(walk)
}

fn certs_of(alloc: Global, table: &[PieceClaim]) -> Result<PieceCerts, Memory>
    ensures short { IfOk result (All HasShortLists) }
    ensures few { IfOk result (λ certs. length certs ≤ length table.now) }
{
    let mut certs = PieceCerts::new(alloc);
    for said in table {
        certs.push(cert_of(alloc, said)?)?;
    }
    Ok(certs)
}

/// Returns the verdict on commands and the claims of pieces.
fn verdict_on(
    alloc: Global,
    d: &Drawing,
    commands: &[Command],
    table: &[PieceClaim],
) -> Result<Verdict, Fail>
    requires { length table.now ≤ 2 }
{
    let design = design_of(alloc, commands)?;
    let pieces = certs_of(alloc, table)?;
    Ok(judge(alloc, d, &design, &Cert { pieces })?)
}

macro_rules! stitch {
    ($x:expr) => {
        Command::Stitch(Point { x: $x, y: 0 })
    };
}

/// Stitches forth and back along a stroke from 0 to 40, and a trim.
const SEWN: [Command; 10] = [
    stitch!(0),
    stitch!(10),
    stitch!(20),
    stitch!(30),
    stitch!(40),
    stitch!(30),
    stitch!(20),
    stitch!(10),
    stitch!(0),
    Command::Trim,
];

macro_rules! walk {
    ($piece:expr, $fault:expr) => {
        Verdict::No(Reason::Walk {
            piece: $piece,
            fault: $fault,
        })
    };
}

macro_rules! cuts {
    ($piece:expr, $fault:expr) => {
        Verdict::No(Reason::Cuts {
            piece: $piece,
            fault: $fault,
        })
    };
}

macro_rules! retraces {
    ($piece:expr, $said:expr, $found:expr) => {
        Verdict::No(Reason::Retraced {
            piece: $piece,
            said: $said,
            found: $found,
        })
    };
}

macro_rules! overloads {
    ($piece:expr, $line:expr, $load:expr, $allowed:expr) => {
        cuts!(
            $piece,
            CutFault::Overload {
                line: $line,
                load: $load,
                allowed: $allowed,
            }
        )
    };
}

macro_rules! acts {
    ($number:expr) => {
        Verdict::No(Reason::Acts { number: $number })
    };
}

/// Certificates of the piece of one stroke, and the verdicts on them.
const CLAIMS: [(PieceClaim, Verdict); 9] = [
    ((4, [1, -1], 8, [1, 0]), Verdict::Yes),
    ((4, [1, 0], 8, [1, 0]), walk!(1, WalkFault::Open)),
    ((3, [1, -1], 8, [1, 0]), retraces!(1, 3, 4)),
    (
        (4, [1, -1], 8, [3, 0]),
        cuts!(
            1,
            CutFault::Stranger {
                cut: 1,
                junction: 3,
            }
        ),
    ),
    (
        (4, [1, -1], 8, [1, 2]),
        cuts!(1, CutFault::EvenCut { cut: 1, odd: 2 }),
    ),
    ((4, [1, -1], 9, [1, 0]), overloads!(1, 1, 9, 8)),
    (
        (4, [1, -1], 7, [1, 0]),
        cuts!(1, CutFault::Total { sum: 7, needed: 8 }),
    ),
    (
        (4, [1, 1], 8, [1, 0]),
        walk!(1, WalkFault::Broken { pass: 2 }),
    ),
    ((4, [-1, 1], 8, [2, 0]), acts!(1)),
];

/// The verdict on a certificate without pieces.
const NO_PIECES: Verdict = Verdict::No(Reason::Pieces { found: 0, drawn: 1 });

/// Compares the verdicts on certificates of one stroke.
fn compare_claims(rt: &impl Abort, alloc: Global, d: &Drawing) -> Result<(), Fail> {
    for (said, wanted) in &CLAIMS {
        let found = verdict_on(alloc, d, &SEWN, &[*said])?;
        compare_row(rt, *said, found == *wanted, true);
    }
    let none = verdict_on(alloc, d, &SEWN, &[])?;
    compare(rt, none == NO_PIECES, true);
    Ok(())
}

#[test]
fn the_first_thing_that_is_wrong_is_told(rt: HostRuntime) -> Result<(), Fail> {
    let d = strokes(rt.alloc(), &[(0, 40)]).ok().ok_or("no drawing")?;
    compare_claims(&rt, rt.alloc(), &d)
}

/// A jump that leads nowhere.
const JUMP: Command = Command::Jump(Point { x: 15, y: 0 });

/// Commands that sew one stroke, or don't, and the verdicts on them.
const SEWINGS: [([Command; 5], Verdict); 6] = [
    (
        [stitch!(0), stitch!(10), stitch!(0), Command::Trim, JUMP],
        Verdict::Yes,
    ),
    (
        [JUMP, stitch!(0), stitch!(10), stitch!(0), Command::Trim],
        Verdict::Yes,
    ),
    (
        [
            stitch!(0),
            stitch!(10),
            stitch!(0),
            Command::Trim,
            Command::Stop,
        ],
        acts!(5),
    ),
    (
        [stitch!(0), JUMP, stitch!(10), stitch!(0), Command::Trim],
        acts!(2),
    ),
    ([stitch!(0), stitch!(10), stitch!(0), JUMP, JUMP], acts!(4)),
    (
        [stitch!(0), stitch!(9), stitch!(0), Command::Trim, JUMP],
        acts!(2),
    ),
];

/// Compares the verdicts on commands that sew one stroke, or don't.
fn compare_sewings(rt: &impl Abort, alloc: Global, d: &Drawing) -> Result<(), Fail> {
    for (commands, wanted) in &SEWINGS {
        let found = verdict_on(alloc, d, commands, &[FIRST])?;
        compare_row(rt, *commands, found == *wanted, true);
    }
    Ok(())
}

/// The certificate of a stroke of one step.
const FIRST: PieceClaim = (1, [1, -1], 2, [2, 0]);

#[test]
fn the_first_act_that_differs_is_told(rt: HostRuntime) -> Result<(), Fail> {
    let d = strokes(rt.alloc(), &[(0, 10)]).ok().ok_or("no drawing")?;
    compare_sewings(&rt, rt.alloc(), &d)
}

/// Commands that sew two strokes.
const BOTH: [Command; 11] = [
    stitch!(0),
    stitch!(10),
    stitch!(0),
    Command::Trim,
    Command::Stop,
    stitch!(70),
    stitch!(60),
    stitch!(50),
    stitch!(60),
    stitch!(70),
    Command::Trim,
];

/// Certificates of the second piece, and the verdicts on them.
const SECONDS: [(PieceClaim, Verdict); 6] = [
    ((2, [-2, 2], 4, [1, 0]), Verdict::Yes),
    (
        (2, [-1, 1], 4, [1, 0]),
        walk!(2, WalkFault::Stranger { pass: 1 }),
    ),
    ((1, [-2, 2], 2, [1, 0]), retraces!(2, 1, 2)),
    ((2, [-2, 2], 5, [1, 0]), overloads!(2, 2, 5, 4)),
    (
        (2, [-2, 2], 2, [1, 0]),
        cuts!(2, CutFault::Total { sum: 2, needed: 4 }),
    ),
    ((2, [2, -2], 4, [1, 0]), acts!(6)),
];

/// Compares the verdicts on certificates of the second of two strokes.
fn compare_seconds(rt: &impl Abort, alloc: Global, d: &Drawing) -> Result<(), Fail> {
    for (second, wanted) in &SECONDS {
        let found = verdict_on(alloc, d, &BOTH, &[FIRST, *second])?;
        compare_row(rt, *second, found == *wanted, true);
    }
    Ok(())
}

#[test]
fn the_second_piece_is_judged_by_its_own_lines(rt: HostRuntime) -> Result<(), Fail> {
    let strokes = strokes(rt.alloc(), &[(0, 10), (50, 70)]);
    let d = strokes.ok().ok_or("no drawing")?;
    compare_seconds(&rt, rt.alloc(), &d)
}
