ghost use Rattle.route_core.specs.SewnDrawings.{IsRoute};
ghost use Rattle.std.specs.Prelude.{IfOk};

use crate::routed::Routed;
use crate::sewn_pieces::sew_pieces;
use design_model::Memory;
use line_graph::{Drawing, pieces};
use route_verdict::Sewing;
use std::alloc::Global;

/// Returns the route of a drawing. A route has for each piece a least walk over all its lines, with cuts
/// that prove it least, and the design that sews these walks. The only error is `Memory`.
pub fn route(alloc: Global, d: &Drawing) -> Result<Routed, Memory>
    ensures { IfOk result (IsRoute d.now) }
{
    let pieces = pieces(alloc, d)?;
    let routed = sew_pieces(alloc, Sewing::Route, d, pieces.as_slice())?;
    Ok(routed)
}
