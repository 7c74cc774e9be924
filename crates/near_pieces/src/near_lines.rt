ghost use Rattle.near_pieces.specs.NearLines.{AreNearLines, if_there, lines_numbered};
ghost use Rattle.near_pieces.specs.NearSteps.{IsRunPut, if_put, piece_put, run_put};
ghost use Rattle.near_pieces.specs.PiecePlaces.{starts_between};
ghost use Rattle.std.specs.Prelude.{◌≡◌, ◌≤◌, ◌++◌, ◌∷◌, [], IfOk, None, OnOk, length, slice_get};

use crate::ordering::order_visits;
use crate::piece_places::{junction_at, place_of_piece, places_of};
use crate::piece_runs::first_run;
use crate::travelling::{entry, exit};
use design_model::{Items, Memory, Point, Points};
use line_graph::{Line, Piece, Spot};
use std::alloc::Global;

/// The lines and the starts of pieces in an order, and where the needle is after them, in tenths of a millimetre.
#[derive(Drop)]
pub(crate) struct NearLines {
    pub lines: Items<Line>,
    pub starts: Items<Spot>,
    pub from: Option<Point>,
}

/// Returns the lines and the starts of pieces, those of each block in an order with little travel.
pub(crate) fn near_lines(
    alloc: Global,
    lines: &[Line],
    pieces: &[Piece],
) -> Result<NearLines, Memory>
    requires { length pieces.now ≤ 1024 }
    ensures { IfOk result (λ near. AreNearLines lines.now None pieces.now near.lines near.starts) }
{
    let mut near = NearLines {
        lines: Items::new(alloc),
        starts: Items::new(alloc),
        from: None,
    };
    let mut rest = pieces;
    while !rest.is_empty() {
        let (run, after) = first_run(rest);
        put_run(alloc, lines, run, &mut near)?;
        rest = after;
    }
    Ok(near)
}

/// Adds the pieces of a run in an order with little travel.
fn put_run(alloc: Global, lines: &[Line], run: &[Piece], near: &mut NearLines) -> Result<(), Memory>
    requires { length run.now ≤ 1024 }
    ensures { OnOk result (IsRunPut lines.now run.now near.old near.new) }
{
    let places = places_of(alloc, run)?;
    let found = order_visits(alloc, places.as_slice(), near.from)?;
    put_in_order(alloc, lines, run, found.order.as_slice(), near)
}

/// Adds the pieces of a run in an order of their indexes.
#[tactic(auto, using(crate::proofs::NearLemmas::put_next))]
fn put_in_order(
    alloc: Global,
    lines: &[Line],
    run: &[Piece],
    order: &[usize],
    near: &mut NearLines,
) -> Result<(), Memory>
    ensures { OnOk result (near.new ≡ run_put lines.now run.now order.now near.old) }
{
    let mut rest = order;
    while let [index, after @ ..] = rest {
        put_numbered(alloc, lines, run, *index, near)?;
        rest = after;
    }
    Ok(())
}

/// Adds the piece of a run with an index, if there is one.
fn put_numbered(
    alloc: Global,
    lines: &[Line],
    run: &[Piece],
    index: usize,
    near: &mut NearLines,
) -> Result<(), Memory>
    ensures { OnOk result (near.new ≡ if_put lines.now (slice_get run.now index) near.old) }
{
    match run.get(index) {
        Some(piece) => put_piece(alloc, lines, piece, near),
        None => Ok(()),
    }
}

/// Adds a piece: its lines, and where it starts.
fn put_piece(
    alloc: Global,
    lines: &[Line],
    piece: &Piece,
    near: &mut NearLines,
) -> Result<(), Memory>
    ensures { OnOk result (near.new ≡ piece_put lines.now piece.now near.old) }
{
    let place = place_of_piece(alloc, piece)?;
    put_lines(alloc, lines, piece.lines.as_slice(), &mut near.lines)?;
    put_start(piece, entry(near.from, &place), &mut near.starts)?;
    near.from = Some(exit(near.from, &place));
    Ok(())
}

/// Adds the lines with the given indexes.
#[tactic(auto, using(crate::proofs::NearLemmas::numbered_next))]
fn put_lines(
    alloc: Global,
    lines: &[Line],
    indexes: &[u32],
    all: &mut Items<Line>,
) -> Result<(), Memory>
    ensures { OnOk result (all.new ≡ all.old ++ lines_numbered lines.now indexes.now) }
{
    let mut rest = indexes;
    while let [index, after @ ..] = rest {
        put_line_numbered(alloc, lines, *index as usize, all)?;
        rest = after;
    }
    Ok(())
}

/// Adds the line with an index, if there is one.
fn put_line_numbered(
    alloc: Global,
    lines: &[Line],
    index: usize,
    all: &mut Items<Line>,
) -> Result<(), Memory>
    ensures { OnOk result (all.new ≡ all.old ++ if_there (slice_get lines.now index)) }
{
    match lines.get(index) {
        Some(line) => put_line(alloc, line, all),
        None => Ok(()),
    }
}

fn put_line(alloc: Global, line: &Line, all: &mut Items<Line>) -> Result<(), Memory>
    ensures { OnOk result (all.new ≡ all.old ++ line.now ∷ []) }
{
    let mut points = Points::new(alloc);
    points.append(line.points())?;
    all.push(Line::new(line.block(), points))?;
    Ok(())
}

/// Adds the start of a piece that is entered at a point.
fn put_start(piece: &Piece, at: Point, starts: &mut Items<Spot>) -> Result<(), Memory>
    ensures { OnOk result (starts.new ≡ starts.old
        ++ starts_between piece.now.block piece.now.junctions piece.now.start piece.now.end at) }
{
    let block = piece.block;
    match (piece.start, piece.end) {
        (Some(start), _) => {
            let at = junction_at(piece.junctions.as_slice(), start);
            starts.push(Spot { block, at })?;
        }
        (None, None) => starts.push(Spot { block, at })?,
        (None, Some(_)) => {}
    }
    Ok(())
}
