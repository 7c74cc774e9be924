ghost use Rattle.line_graph.specs.PiecesOfDrawings.{graph_of};
ghost use Rattle.near_pieces.specs.PiecePlaces.{place_between, place_of, point_numbered};
ghost use Rattle.std.specs.Prelude.{◌≡◌, IfOk, drop, map, option_map};

use crate::visit::Visit;
use design_model::{Items, Memory, Point, Points};
use line_graph::Piece;
use std::alloc::Global;

/// Returns pieces as places to be visited.
pub(crate) fn places_of(alloc: Global, pieces: &[Piece]) -> Result<Items<Visit>, Memory>
    ensures { IfOk result (λ places. places ≡ map place_of pieces.now) }
{
    let mut places = Items::new(alloc);
    for piece in pieces {
        let place = place_of_piece(alloc, piece)?;
        places.push(place)?;
    }
    Ok(places)
}

/// Returns a piece as a place to be visited.
pub(crate) fn place_of_piece(alloc: Global, piece: &Piece) -> Result<Visit, Memory>
    ensures { IfOk result (λ place. place ≡ place_of piece.now) }
{
    place_at(alloc, piece.junctions.as_slice(), piece.from(), piece.to())
}

fn place_at(
    alloc: Global,
    junctions: &[Point],
    start: Option<u32>,
    end: Option<u32>,
) -> Result<Visit, Memory>
    ensures { IfOk result (λ place. place ≡ place_between junctions.now start end) }
{
    let mut others = Points::new(alloc);
    match start {
        Some(start) => Ok(Visit {
            first: junction_at(junctions, start),
            others,
            leaves: optional_junction(junctions, end),
        }),
        None => {
            others.append(but_first(junctions))?;
            Ok(Visit {
                first: junction_at(junctions, 0),
                others,
                leaves: None,
            })
        }
    }
}

fn optional_junction(junctions: &[Point], index: Option<u32>) -> Option<Point>
    ensures { result ≡ option_map (point_numbered junctions.now) index }
{
    match index {
        Some(index) => Some(junction_at(junctions, index)),
        None => None,
    }
}

/// Returns the point of a junction.
pub(crate) fn junction_at(junctions: &[Point], index: u32) -> Point
    ensures { result ≡ point_numbered junctions.now index }
{
    junctions
        .get(index as usize)
        .copied()
        .unwrap_or(Point { x: 0, y: 0 })
}

fn but_first(points: &[Point]) -> &[Point]
    ensures { result.now ≡ drop 1 points.now }
{
    match points {
        [_, rest @ ..] => rest,
        none => none,
    }
}
