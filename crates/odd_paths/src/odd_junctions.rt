ghost use Rattle.line_graph.specs.PieceGraphs.{is_odd, odd_junctions};
ghost use Rattle.line_graph.specs.PiecesOfDrawings.{graph_of};
ghost use Rattle.line_graph.specs.declared.limits.TheConstants.{MAX_LINES};
ghost use Rattle.odd_paths.specs.OddDegrees.{odds_from, singleton_if};
ghost use Rattle.odd_paths.specs.OddJunctions.{OddsAreEven};
ghost use Rattle.std.specs.Prelude.{◌≡◌, ◌+◌, ◌++◌, ◌%◌, ◌≤◌, IfOk, OnOk, length};

use design_model::{Memory, Numbers};
use line_graph::{Piece, is_odd_at};
use std::alloc::Global;

/// Returns the indexes of the odd junctions of a piece, in rising order. Their number is even. The only error is
/// out of memory.
pub fn odd(alloc: Global, p: &Piece) -> Result<Numbers, Memory>
    ensures value { IfOk result (λ odds. odds ≡ odd_junctions (graph_of p.now)) }
    ensures even { IfOk result (λ odds. length odds % 2 ≡ 0) }
{
    let odds = odds_in(alloc, p.degrees.as_slice(), p.from(), p.to())?;
    Ok(odds)
}

/// The number of odd junctions of a piece is even.
pub fn odds_are_even()
    ensures { OddsAreEven }
{}

/// Returns the odd junctions by their degrees, where a closing line leads from `to` to `from`.
fn odds_in(
    alloc: Global,
    degrees: &[u32],
    from: Option<u32>,
    to: Option<u32>,
) -> Result<Numbers, Memory>
    requires { length degrees.now ≤ MAX_LINES + 1 }
    ensures { IfOk result (λ odds. odds ≡ odds_from from to 0 degrees.now) }
{
    let mut odds = Numbers::new(alloc);
    let mut at = 0;
    let mut rest = degrees;
    while let [degree, after @ ..] = rest {
        push_odd(&mut odds, at, is_odd_at(at, *degree, from, to))?;
        at += 1;
        rest = after;
    }
    Ok(odds)
}

/// Appends a junction where it is odd.
fn push_odd(odds: &mut Numbers, at: u32, is_odd: bool) -> Result<(), Memory>
    ensures { OnOk result (odds.new ≡ odds.old ++ singleton_if is_odd at) }
{
    if is_odd {
        odds.push(at)?;
    }
    Ok(())
}
