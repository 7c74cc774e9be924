ghost use Rattle.euler_tour.specs.Tours.{CanPass, IsTour};
ghost use Rattle.line_graph.specs.PiecesOfDrawings.{graph_of};
ghost use Rattle.std.specs.Prelude.{IfOk};

use crate::partial_tour::{begin, step};
use design_model::Memory;
use line_graph::{Piece, Walk};
use std::alloc::Global;

/// Returns a walk over a piece that passes the line at each index once, and once more for each of its
/// `copies`. The walk leads from the piece's start to its end. Where neither is required it is closed, and
/// its first pass is the piece's first line, forwards. The only error is out of memory.
pub fn tour(alloc: Global, p: &Piece, copies: &[u32]) -> Result<Walk, Memory>
    requires { CanPass (graph_of p.now) copies.now }
    ensures { IfOk result (IsTour (graph_of p.now) copies.now) }
{
    let mut t = begin(alloc, p, copies)?;
    while step(&mut t, p)? {}
    Ok(t.home)
}
