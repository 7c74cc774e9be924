ghost use Rattle.line_graph.specs.PieceGraphs.{first_junction_among, junction_at_spot, piece_graph};
ghost use Rattle.line_graph.specs.PieceLabels.{IsPiece};
ghost use Rattle.line_graph.specs.Pieces.{first_line};
ghost use Rattle.line_graph.specs.PiecesOfDrawings.{graph_of};
ghost use Rattle.line_graph.specs.ValidPieces.{IsValidPiece};
ghost use Rattle.std.specs.Prelude.{◌≡◌, ◌<◌, ◌≤◌, IfOk, length};

use crate::degrees::degrees;
use crate::drawing::Drawing;
use crate::junctions::edges;
use crate::piece::Piece;
use design_model::{Memory, Numbers, Point, Points};
use indexmap::IndexSet;
use line_sections::Spot;
use std::alloc::Global;
use step_splitter::split_points_lead;

/// Returns the piece that consists of the given lines.
pub fn piece_of(alloc: Global, d: &Drawing, lines: Numbers) -> Result<Piece, Memory>
    requires { IsPiece d.now lines }
    ensures { IfOk result (λ piece. graph_of piece ≡ piece_graph d.now lines) }
{
    are_kept(d, lines.as_slice());
    let mut seen = IndexSet::new(alloc);
    let edges = edges(alloc, d, lines.as_slice(), &mut seen)?;
    let mut junctions = Points::new(alloc);
    junctions.append(seen.as_slice())?;
    let degrees = degrees(alloc, edges.as_slice(), junctions.len())?;
    let block = d.line_block(first(lines.as_slice()));
    let start = number_among(block, &seen, d.starts());
    let end = number_among(block, &seen, d.ends());
    Ok(Piece {
        block,
        lines,
        junctions,
        edges,
        degrees: Numbers::from_vec(degrees),
        start,
        end,
    })
}

/// Returns the number of the first spot that is a junction of the block, if there is one.
fn number_among(block: u32, junctions: &IndexSet<Point>, spots: &[Spot]) -> Option<u32>
    requires { length junctions.now.keys ≤ 4294967295 }
    ensures { result ≡ first_junction_among block junctions.now.keys spots.now }
{
    let mut rest = spots;
    while let [spot, after @ ..] = rest {
        if let Some(number) = number_at(block, junctions, *spot) {
            return Some(number);
        }
        rest = after;
    }
    None
}

/// Returns the number of the junction at a spot, if the block has one there.
fn number_at(block: u32, junctions: &IndexSet<Point>, spot: Spot) -> Option<u32>
    requires { length junctions.now.keys ≤ 4294967295 }
    ensures { result ≡ junction_at_spot block junctions.now.keys spot }
{
    if spot.block != block {
        return None;
    }
    let number = junctions.get_index_of(&spot.at)?;
    Some(number as u32)
}

/// Lemma: the graph of the given lines is a valid piece.
fn are_kept(d: &Drawing, lines: &[u32])
    requires { IsPiece d.now lines.now }
    ensures { IsValidPiece (piece_graph d.now lines.now) }
{
    d.keeps_limits();
    split_points_lead();
}

fn first(lines: &[u32]) -> u32
    requires { 1 ≤ length lines.now }
    ensures { result ≡ first_line lines.now }
{
    lines[0]
}
