use super::comparisons::compare_row;
use design_model::{MAX_FILE, counts};
use drawing_text::read_drawing;
use line_graph::Drawing;
use odd_cuts::PieceCert;
use route_core::route;
use std::alloc::Global;
use std::process::Abort;
use std::test::Fail;
use test_values::repeated;

/// A piece of a route: the number of its passes, the cost that they retrace, and the total weight of its cuts
/// in half steps.
pub type RoutedPiece = (usize, u32, u32);

/// The lines of a drawing, the needle penetrations of its route, and the pieces of the route.
macro_rules! routed {
    ($lines:expr => $penetrations:expr, $pieces:expr) => {
        ($lines, $penetrations, $pieces)
    };
}

const TABLE: [(&str, u32, &[RoutedPiece]); 8] = [
    routed!("step 30\ncolor 5\nline 0 0 30 0 30 30 0 30 0 0\n" => 5, &[(1, 0, 0)]),
    routed!("step 10\ncolor 1\nline 0 0 40 0\n" => 9, &[(2, 4, 8)]),
    routed!("step 10\ncolor 1\nline 0 0 10 0\nline 0 0 5 10 10 0\nline 0 0 0 -20 10 -20 10 0\n" =>
        10, &[(4, 1, 2)]),
    routed!("step 10\ncolor 1\nline 0 0 10 0 10 10 0 10 0 0\nline 0 0 -10 0 -10 -10 0 -10 0 0\n" =>
        9, &[(2, 0, 0)]),
    routed!("step 30\ncolor 1\nline 0 0 30 0\nline 0 0 30 30\nline 0 0 0 30\nline 30 0 30 30\nline 30 0 0 30\nline 30 30 0 30\n" =>
        9, &[(8, 2, 4)]),
    routed!("step 10\ncolor 1\nline 0 0 -10 10 -10 -10 0 0\nline 0 0 30 0\nline 30 0 40 10 40 -10 30 0\n" =>
        15, &[(4, 3, 6)]),
    routed!("step 10\ncolor 1\nline 0 0 20 0\nline 20 0 30 10 30 -10 20 0\n" => 9, &[(3, 2, 4)]),
    routed!("step 30\ncolor 3\nline 0 0 30 0 30 30 0 30 0 0\ncolor 9\nline 300 0 330 0 330 30 300 30 300 0\n" =>
        10, &[(1, 0, 0), (1, 0, 0)]),
];

/// Returns the drawing of a text of two parts.
pub fn drawing_of(alloc: Global, first: &str, last: &str) -> Result<Drawing, Fail> {
    let text = repeated(alloc, first.as_bytes(), b"", 0, last.as_bytes())?;
    if text.len() as u64 > MAX_FILE {
        return Err("a long text".into());
    }
    let drawing = read_drawing(alloc, text.as_slice()).ok();
    Ok(drawing.ok_or("no drawing")?)
}

/// Returns what the table has of a piece.
pub fn numbers_of(cert: &PieceCert) -> RoutedPiece {
    let mut total: u32 = 0;
    for cut in cert.cuts.as_slice() {
        total = total.saturating_add(cut.weight);
    }
    (cert.walk.len(), cert.retraced, total)
}

/// Compares the pieces of a route with the given ones. Each walk begins forwards.
fn compare_pieces(rt: &impl Abort, lines: &str, pieces: &[PieceCert], wanted: &[RoutedPiece]) {
    compare_row(rt, lines, pieces.len(), wanted.len());
    for (cert, one) in pieces.iter().zip(wanted.iter()) {
        compare_row(rt, lines, numbers_of(cert), *one);
        let begins = cert.walk.as_slice().first().map(|pass| pass.back);
        compare_row(rt, lines, begins, Some(false));
    }
}

/// Compares the route of a drawing with the given number of needle penetrations and the given pieces.
fn compare_route(
    rt: &impl Abort,
    alloc: Global,
    lines: &str,
    penetrations: u32,
    wanted: &[RoutedPiece],
) -> Result<(), Fail> {
    let routed = route(alloc, &drawing_of(alloc, "redwork 1\n", lines)?)?;
    compare_row(rt, lines, counts(&routed.design).needles, penetrations);
    compare_pieces(rt, lines, routed.cert.pieces.as_slice(), wanted);
    Ok(())
}

#[test]
fn a_route_has_as_few_penetrations_as_its_cuts_allow(rt: HostRuntime) -> Result<(), Fail> {
    for (lines, penetrations, wanted) in &TABLE {
        compare_route(&rt, rt.alloc(), lines, *penetrations, wanted)?;
    }
    Ok(())
}
