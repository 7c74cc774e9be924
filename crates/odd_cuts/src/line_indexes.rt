ghost use Rattle.line_graph.specs.PieceWalks.{edge_of};
ghost use Rattle.odd_cuts.specs.CheckTables.{AreEdgeIndexes};
ghost use Rattle.std.specs.Prelude.{◌≡◌, get_or, slice_get};

use line_graph::{Edge, MAX_LINES, Piece};

/// Returns, for each line of the drawing, the index of its edge in the piece, or `MAX_LINES` where there is
/// none.
pub(crate) fn edge_indexes(p: &Piece) -> [usize; MAX_LINES]
    ensures { AreEdgeIndexes p.now.lines p.now.edges result }
{
    let lines = p.lines.as_slice();
    let mut places = [MAX_LINES; MAX_LINES];
    for at in 0..lines.len() {
        places[lines[at] as usize] = at;
    }
    places
}

/// Returns the edge of a line, if the piece has the line.
pub(crate) fn find_edge(p: &Piece, places: &[usize; MAX_LINES], line: u32) -> Option<Edge>
    requires { AreEdgeIndexes p.now.lines p.now.edges places.now }
    ensures { result ≡ edge_of p.now.lines p.now.edges line }
{
    edge_at(p.edges.as_slice(), edge_index(places, line))
}

/// Returns the index of a line's edge in the piece.
fn edge_index(places: &[usize; MAX_LINES], line: u32) -> usize
    ensures { result ≡ get_or places.now line MAX_LINES }
{
    let line = line as usize;
    if line < MAX_LINES {
        places[line]
    } else {
        MAX_LINES
    }
}

/// Returns the edge at an index, if there is one.
fn edge_at(edges: &[Edge], place: usize) -> Option<Edge>
    ensures { result ≡ slice_get edges.now place }
{
    if place < edges.len() {
        Some(edges[place])
    } else {
        None
    }
}
