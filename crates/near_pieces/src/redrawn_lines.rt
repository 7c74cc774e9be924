ghost use Rattle.design_model.specs.OutOfMemory.{IsSpecified};
ghost use Rattle.line_graph.specs.GrowingDrawings.{draw_is_out_of_memory};
ghost use Rattle.line_graph.specs.JoinedDrawings.{is_joined};
ghost use Rattle.near_pieces.specs.NearDrawings.{drawn_with};
ghost use Rattle.std.specs.Prelude.{◌≡◌, IfOk, true};

use drawing_edits::{draw_lines, joined_with_ends};
use line_graph::{DrawKind, Drawing, Line, Spot};
use std::alloc::Global;

/// Returns the joined drawing with the given lines and starts in place of those of a drawing; or the first fault of
/// these; or `Memory`.
pub(crate) fn draw_with(
    alloc: Global,
    d: &Drawing,
    lines: &[Line],
    starts: &[Spot],
) -> Result<Drawing, DrawKind>
    ensures answer { IsSpecified draw_is_out_of_memory (drawn_with d.now lines.now starts.now) result }
    ensures joined { IfOk result (λ new. is_joined new ≡ true) }
    ensures starts { IfOk result (λ new. new.starts ≡ starts.now) }
    ensures ends { IfOk result (λ new. new.ends ≡ d.now.ends) }
{
    d.keeps_limits();
    let drawn = draw_lines(alloc, d, d.step(), lines)?;
    joined_with_ends(alloc, &drawn, starts, d.ends())
}
