ghost use Rattle.line_graph.specs.ValidPieces.{IsValidPiece};

use crate::edge::Edges;
use design_model::{Items, Numbers, Points};

/// A piece as a graph: the lines of a connected component, which are of one block and connected by shared
/// ends.
///
/// `lines` are indexes of the drawing's lines, in increasing order. `junctions` (the vertices) are the ends
/// of these lines, each once, in the order of the lines, a line's first point before its last. `edges` has
/// an entry for each line in the same order, and `degrees` the number of line ends at each junction.
/// `start` and `end` are indexes of junctions: where a walk over the piece must start and end, if the
/// drawing names them.
#[derive(Drop)]
pub struct Piece {
    pub block: u32,
    pub lines: Numbers,
    pub junctions: Points,
    pub edges: Edges,
    pub degrees: Numbers,
    pub start: Option<u32>,
    pub end: Option<u32>,
    pub ghost kept: { IsValidPiece (record {
      block = block;
      lines = lines;
      junctions = junctions;
      edges = edges;
      degrees = degrees;
      start = start;
      end = end;
    }) },
}

/// Pieces, one after another.
pub type Pieces = Items<Piece>;
