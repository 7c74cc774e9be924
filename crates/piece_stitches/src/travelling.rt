ghost use Rattle.line_graph.specs.PiecesOfDrawings.{graph_of};
ghost use Rattle.piece_stitches.specs.Travels.{point_of_end, travel_between, way_between};
ghost use Rattle.std.specs.Prelude.{◌≡◌, ◌<◌, ◌^◌, unwrap_or};

use design_model::{Point, length_between};
use line_graph::Piece;

/// Returns the length of the straight way from the end of a piece to the start of the next, in thousandths of
/// a millimetre.
pub fn travel(piece: &Piece, next: &Piece) -> u128
    ensures value { result ≡ travel_between (graph_of piece.now) (graph_of next.now) }
    ensures most { result < 2 ^ 64 }
{
    way(point_of(piece, piece.to()), point_of(next, next.from()))
}

fn way(from: Option<Point>, to: Option<Point>) -> u128
    ensures value { result ≡ way_between from to }
    ensures most { result < 2 ^ 64 }
{
    match (from, to) {
        (Some(from), Some(to)) => length_between(from, to),
        _ => 0,
    }
}

/// Returns the point of a junction of a piece, or of its first one where none is given.
fn point_of(piece: &Piece, junction: Option<u32>) -> Option<Point>
    ensures { result ≡ point_of_end (graph_of piece.now) junction }
{
    let index = junction.unwrap_or(0) as usize;
    piece.junctions.as_slice().get(index).copied()
}
