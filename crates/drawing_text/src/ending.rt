ghost use Rattle.drawing_text.specs.DrawingText.{ReadsDrawing, drawing_with_ends};
ghost use Rattle.line_graph.specs.GrowingDrawings.{ChangesAsSpecified};
ghost use Rattle.line_graph.specs.JoinedDrawings.{is_joined};
ghost use Rattle.line_graph.specs.WalkEnds.{HasNoEnds, walk_end_added};
ghost use Rattle.std.specs.Prelude.{◌≡◌, true};

use crate::draw_fault::{DrawFault, fault_with_line};
use crate::walk_end::WalkEnd;
use line_graph::{DrawKind, Drawing, EndsMaker};
use std::alloc::Global;

/// Returns the drawing with the given starts and ends, or the first fault of one of them, at the text line
/// that names it.
pub fn with_ends(alloc: Global, drawing: Drawing, ends: &[WalkEnd]) -> Result<Drawing, DrawFault>
    requires joined { is_joined drawing ≡ true }
    requires no_ends { HasNoEnds drawing }
    ensures { ReadsDrawing (drawing_with_ends drawing ends.now) result }
{
    let mut maker = match EndsMaker::new(alloc, drawing) {
        Ok(maker) => maker,
        Err(_) => return Err(fault_with_line(0, 0, DrawKind::Memory)),
    };
    for end in ends {
        if let Err(kind) = add(&mut maker, *end) {
            return Err(fault_with_line(end.number, 0, kind));
        }
    }
    Ok(maker.finish())
}

fn add(maker: &mut EndsMaker, end: WalkEnd) -> Result<(), DrawKind>
    ensures { ChangesAsSpecified (walk_end_added end.is_start maker.old end.spot) maker.old result
        maker.new }
{
    if end.is_start {
        maker.add_start(end.spot)
    } else {
        maker.add_end(end.spot)
    }
}
