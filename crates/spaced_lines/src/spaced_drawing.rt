ghost use Rattle.design_model.specs.OutOfMemory.{IsSpecified};
ghost use Rattle.line_graph.specs.GrowingDrawings.{draw_is_out_of_memory, point_count};
ghost use Rattle.line_graph.specs.JoinedDrawings.{joined_drawing};
ghost use Rattle.line_graph.specs.WalkEnds.{HasNoEnds};
ghost use Rattle.line_graph.specs.declared.limits.TheConstants.{MAX_POINTS};
ghost use Rattle.spaced_lines.specs.SpacedDrawings.{space_of, with_spaced_lines};
ghost use Rattle.spaced_lines.specs.SpacedLines.{spaced_lines};
ghost use Rattle.std.specs.Prelude.{◌≡◌, ◌≤◌, IfOk, Ok};

use crate::junction_spots::junctions;
use crate::spacing::spaced;
use crate::spacing_rule::{SpacingLimits, SpacingRule};
use design_model::Memory;
use drawing_edits::{draw_lines, joined_with_ends};
use line_graph::{DrawKind, Drawing, Line, Spot};
use line_sections::sections;
use std::alloc::Global;

/// A spaced drawing: its lines as they are drawn, and the joined drawing with the starts and ends.
#[derive(Drop)]
pub struct SpacedDrawing {
    pub drawn: Drawing,
    pub joined: Drawing,
}

/// Returns the spaced drawing of lines as they are drawn and of starts and ends, within the given limits. Errors: the first fault of
/// the spaced lines, as for any drawing; then the first fault of a start or an end; or `Memory`.
pub fn space(
    alloc: Global,
    limits: SpacingLimits,
    drawn: &Drawing,
    starts: &[Spot],
    ends: &[Spot],
) -> Result<SpacedDrawing, DrawKind>
    ensures answer { IsSpecified draw_is_out_of_memory
        (space_of limits drawn.now starts.now ends.now) result }
    ensures no_ends { IfOk result (λ spaced. HasNoEnds spaced.drawn) }
    ensures whole { IfOk result (λ spaced. joined_drawing
        (record spaced.drawn { starts = spaced.joined.starts; ends = spaced.joined.ends })
        ≡ Ok spaced.joined) }
    ensures starts { IfOk result (λ spaced. spaced.joined.starts ≡ starts.now) }
    ensures ends { IfOk result (λ spaced. spaced.joined.ends ≡ ends.now) }
{
    let drawn = spaced_drawing(alloc, limits, drawn)?;
    let joined = joined_with_ends(alloc, &drawn, starts, ends)?;
    Ok(SpacedDrawing { drawn, joined })
}

/// Returns the drawing of the spaced lines of a drawing.
fn spaced_drawing(alloc: Global, limits: SpacingLimits, d: &Drawing) -> Result<Drawing, DrawKind>
    ensures answer { IsSpecified draw_is_out_of_memory (with_spaced_lines limits d.now) result }
    ensures no_ends { IfOk result HasNoEnds }
{
    d.keeps_limits();
    let lines = lines_spaced(alloc, limits.rule(step_of(d)), d.lines())?;
    draw_lines(alloc, d, d.step(), lines.as_slice())
}

/// Returns the longest step of a drawing, in tenths of a millimetre.
fn step_of(d: &Drawing) -> u16
    ensures { result ≡ d.now.step }
{
    d.keeps_limits();
    d.step() as u16
}

/// Returns the lines of a drawing without the points that are left out.
fn lines_spaced(alloc: Global, rule: SpacingRule, lines: &[Line]) -> Result<Vec<Line>, Memory>
    requires { point_count lines.now ≤ MAX_POINTS }
    ensures { IfOk result (λ spaced. spaced.items ≡ spaced_lines rule lines.now) }
{
    let sections = sections(alloc, lines)?;
    let junctions = junctions(alloc, sections.as_slice())?;
    let spaced = spaced(alloc, rule, &junctions, lines)?;
    Ok(spaced)
}
