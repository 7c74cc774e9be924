ghost use Rattle.double_run.specs.DoubleWalks.{IsDouble, without_ends};
ghost use Rattle.line_graph.specs.PieceWalks.{is_fitting_walk, piece_cost, walk_cost};
ghost use Rattle.line_graph.specs.PiecesOfDrawings.{graph_of};
ghost use Rattle.std.specs.Prelude.{◌≡◌, ◌*◌, IfOk, true};

use crate::traversal::{begin_traversal, step};
use design_model::Memory;
use line_graph::{Piece, Walk};
use std::alloc::Global;

/// Returns a closed walk over a piece that passes each line once forwards and once backwards, and begins with
/// the piece's first line, forwards. A required start or end of the piece is ignored. The walk is a
/// depth-first search as in J. Hopcroft and R. Tarjan, "Algorithm 447: Efficient algorithms for graph
/// manipulation", Communications of the ACM 16 (1973). The time is linear in the lines and junctions. The
/// only error is out of memory.
pub fn double(alloc: Global, p: &Piece) -> Result<Walk, Memory>
    ensures double { IfOk result (IsDouble (graph_of p.now)) }
    ensures fits { IfOk result (λ walk. is_fitting_walk (without_ends (graph_of p.now)) walk ≡ true) }
    ensures cost { IfOk result (λ walk. walk_cost (graph_of p.now) walk ≡ 2 * piece_cost (graph_of p.now)) }
{
    let mut o = begin_traversal(alloc, p)?;
    while step(&mut o, p)? {}
    Ok(o.walk)
}
