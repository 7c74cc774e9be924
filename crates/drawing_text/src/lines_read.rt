ghost use Rattle.design_model.specs.declared.limits.TheConstants.{MAX_FILE};
ghost use Rattle.drawing_text.specs.DrawingLines.{drawing_of_lines};
ghost use Rattle.drawing_text.specs.DrawingText.{IsDrawingOfVersion, IsJoinedWithoutEnds, ReadsDrawing, at_line, drawing_after_lines, drawing_of_draft};
ghost use Rattle.drawing_text.specs.DrawnTexts.{lines_after, lines_of_draft};
ghost use Rattle.drawing_text.specs.TextLines.{empty_draft};
ghost use Rattle.drawing_text.specs.Words.{words_by_line};
ghost use Rattle.line_graph.specs.GrowingDrawings.{and_then};
ghost use Rattle.line_graph.specs.JoinedDrawings.{joined_drawing};
ghost use Rattle.line_graph.specs.WalkEnds.{HasNoEnds};
ghost use Rattle.std.specs.Prelude.{◌≡◌, ◌+◌, ◌≤◌, IfOk, Ok, length};

use crate::draft::DrawingDraft;
use crate::draft_reading::draft_of_lines;
use crate::draw_fault::{DrawFault, fault_with_line};
use crate::drawn_lines::{DrawnLines, drawn_in};
use crate::ending::with_ends;
use crate::version::Version;
use line_graph::{DrawKind, Drawing, join};
use std::alloc::Global;

/// A drawing, and its lines as they are drawn.
#[derive(Drop)]
pub struct LinesRead {
    pub drawing: Drawing,
    pub drawn: DrawnLines,
}

/// Returns the drawing of all lines of a text after its header, and the lines as they are drawn; or the first
/// fault.
pub fn read_body(
    alloc: Global,
    version: Version,
    first: u32,
    text: &[u8],
) -> Result<LinesRead, DrawFault>
    requires { first + length text.now ≤ MAX_FILE + 1 }
    ensures drawing { ReadsDrawing (drawing_after_lines version first empty_draft
        (words_by_line text.now)) (and_then result (λ read. Ok read.drawing)) }
    ensures lines { IfOk result (λ read.
        lines_after version first empty_draft (words_by_line text.now) ≡ Ok read.drawn) }
    ensures meant { IfOk result (λ read. IsDrawingOfVersion version read.drawing) }
{
    let (draft, number) = draft_of_lines(alloc, version, first, text)?;
    finished(alloc, version, number, draft)
}

/// Returns the drawing of all lines of a text after its header, or the first fault.
pub fn drawing_after(
    alloc: Global,
    version: Version,
    first: u32,
    text: &[u8],
) -> Result<Drawing, DrawFault>
    requires { first + length text.now ≤ MAX_FILE + 1 }
    ensures answer { ReadsDrawing (drawing_after_lines version first empty_draft
        (words_by_line text.now)) result }
    ensures meant { IfOk result (IsDrawingOfVersion version) }
{
    let (draft, number) = draft_of_lines(alloc, version, first, text)?;
    finished_drawing(alloc, version, number, draft)
}

/// Returns the drawing of a draft, where the text ends before the line of the given number. In version 1 the
/// drawing is the lines as they are drawn, and they are not copied.
#[tactic(auto, using(crate::proofs::DrawnDraftLemmas::drawing_from_lines))]
fn finished_drawing(
    alloc: Global,
    version: Version,
    number: u32,
    draft: DrawingDraft,
) -> Result<Drawing, DrawFault>
    ensures answer { ReadsDrawing (drawing_of_draft version number draft) result }
    ensures meant { IfOk result (IsDrawingOfVersion version) }
{
    let opened = draft.opened;
    let drawn = drawn_in(version, number, draft)?;
    match version {
        Version::One => Ok(drawn.drawing),
        Version::Two | Version::Three => drawing_of(alloc, version, number, opened, &drawn),
    }
}

/// Returns the drawing of a draft and its lines, where the text ends before the line of the given number.
#[tactic(auto, using(crate::proofs::DrawnDraftLemmas::drawing_from_lines))]
fn finished(
    alloc: Global,
    version: Version,
    number: u32,
    draft: DrawingDraft,
) -> Result<LinesRead, DrawFault>
    ensures drawing { ReadsDrawing (drawing_of_draft version number draft)
        (and_then result (λ read. Ok read.drawing)) }
    ensures lines { IfOk result (λ read. lines_of_draft version number draft ≡ Ok read.drawn) }
    ensures meant { IfOk result (λ read. IsDrawingOfVersion version read.drawing) }
{
    let opened = draft.opened;
    let drawn = drawn_in(version, number, draft)?;
    let drawing = drawing_of(alloc, version, number, opened, &drawn)?;
    Ok(LinesRead { drawing, drawn })
}

/// Returns the drawing of lines as they are drawn. Its fault is reported as at the end of a text.
fn drawing_of(
    alloc: Global,
    version: Version,
    number: u32,
    opened: u32,
    drawn: &DrawnLines,
) -> Result<Drawing, DrawFault>
    requires { HasNoEnds drawn.now.drawing }
    ensures answer { ReadsDrawing (drawing_of_lines version number opened drawn.now) result }
    ensures meant { IfOk result (IsDrawingOfVersion version) }
{
    match version {
        Version::One => copied(alloc, &drawn.drawing),
        Version::Two => joined(alloc, number, opened, &drawn.drawing),
        Version::Three => {
            let joined = joined(alloc, number, opened, &drawn.drawing)?;
            with_ends(alloc, joined, drawn.ends.as_slice())
        }
    }
}

fn copied(alloc: Global, drawn: &Drawing) -> Result<Drawing, DrawFault>
    ensures { ReadsDrawing (Ok drawn.now) result }
{
    match drawn.copied(alloc) {
        Ok(copy) => Ok(copy),
        Err(_) => Err(fault_with_line(0, 0, DrawKind::Memory)),
    }
}

/// Returns the drawing of the sections of the lines.
fn joined(alloc: Global, number: u32, opened: u32, drawn: &Drawing) -> Result<Drawing, DrawFault>
    requires { HasNoEnds drawn.now }
    ensures answer { ReadsDrawing (at_line number opened (joined_drawing drawn.now)) result }
    ensures whole { IfOk result IsJoinedWithoutEnds }
{
    match join(alloc, drawn) {
        Ok(drawing) => Ok(drawing),
        Err(kind) => Err(fault_with_line(number, opened, kind)),
    }
}
