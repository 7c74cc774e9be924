ghost use Rattle.design_model.specs.OutOfMemory.{IsSpecified};
ghost use Rattle.drawing_edits.specs.RedrawnDrawings.{drawn_lines};
ghost use Rattle.free_ends.specs.FreedDrawings.{IsWholeOf, lines_joined};
ghost use Rattle.line_graph.specs.GrowingDrawings.{draw_is_out_of_memory};
ghost use Rattle.line_graph.specs.WalkEnds.{HasNoEnds};
ghost use Rattle.std.specs.Prelude.{◌≡◌, IfOk};

use drawing_edits::{draw_lines, joined_with_ends};
use line_graph::{DrawKind, Drawing, Spot};
use std::alloc::Global;

/// Lines as they are drawn, without starts and ends, and the drawing that they are joined to.
#[derive(Drop)]
pub struct JoinedLines {
    pub drawn: Drawing,
    pub joined: Drawing,
}

/// Returns the lines of a drawing as they are drawn, and joined with starts and ends. Errors: the first fault
/// of the lines, as for any drawing; then the first fault of a start or an end; or `Memory`.
pub fn join_lines(
    alloc: Global,
    d: &Drawing,
    starts: &[Spot],
    ends: &[Spot],
) -> Result<JoinedLines, DrawKind>
    ensures answer { IsSpecified draw_is_out_of_memory (lines_joined d.now starts.now ends.now) result }
    ensures no_ends { IfOk result (λ lines. HasNoEnds lines.drawn) }
    ensures whole { IfOk result (λ lines. IsWholeOf lines.drawn lines.joined) }
    ensures starts { IfOk result (λ lines. lines.joined.starts ≡ starts.now) }
    ensures ends { IfOk result (λ lines. lines.joined.ends ≡ ends.now) }
{
    let drawn = drawn_again(alloc, d)?;
    let joined = joined_with_ends(alloc, &drawn, starts, ends)?;
    Ok(JoinedLines { drawn, joined })
}

/// Returns a drawing of the same lines, without starts and ends.
fn drawn_again(alloc: Global, d: &Drawing) -> Result<Drawing, DrawKind>
    ensures answer { IsSpecified draw_is_out_of_memory (drawn_lines d.now) result }
    ensures no_ends { IfOk result HasNoEnds }
{
    d.keeps_limits();
    draw_lines(alloc, d, d.step(), d.lines())
}
