ghost use Rattle.line_graph.specs.PiecesOfDrawings.{graph_of};
ghost use Rattle.route_core.specs.Doubles.{IsDoubleCert};
ghost use Rattle.std.specs.Prelude.{IfOk};

use design_model::Memory;
use double_run::double;
use line_graph::Piece;
use odd_cuts::{Cuts, PieceCert};
use std::alloc::Global;

/// Returns a certificate with a double walk over a piece. The retraced cost is the cost of its lines.
pub(crate) fn double_cert(alloc: Global, p: &Piece) -> Result<PieceCert, Memory>
    ensures { IfOk result (IsDoubleCert (graph_of p.now)) }
{
    Ok(PieceCert {
        retraced: p.cost(),
        walk: double(alloc, p)?,
        cuts: Cuts::new(alloc),
    })
}
