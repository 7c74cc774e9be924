ghost use Rattle.design_model.specs.declared.limits.TheConstants.{MAX_FILE};
ghost use Rattle.drawing_text.specs.DrawnTexts.{ReadsLines, lines_after, lines_of, lines_of_draft};
ghost use Rattle.drawing_text.specs.TextLines.{empty_draft};
ghost use Rattle.drawing_text.specs.Words.{words_by_line};
ghost use Rattle.line_graph.specs.WalkEnds.{HasNoEnds};
ghost use Rattle.std.specs.Prelude.{◌≡◌, ◌+◌, ◌≤◌, IfOk, length};

use crate::draft::DrawingDraft;
use crate::draft_reading::draft_of_lines;
use crate::draw_fault::{DrawFault, fault_with_line};
use crate::reading::find_body;
use crate::version::Version;
use crate::walk_end::WalkEnds;
use line_graph::Drawing;
use std::alloc::Global;

/// The lines of a text as they are drawn: none is cut where lines meet. Starts and ends are the spots that
/// the text names, which may be no junctions.
#[derive(Drop)]
pub struct DrawnLines {
    pub version: Version,
    pub drawing: Drawing,
    pub ends: WalkEnds,
}

/// Returns the lines that a text describes as they are drawn, or the first fault of its lines.
pub fn read_lines(alloc: Global, bytes: &[u8]) -> Result<DrawnLines, DrawFault>
    requires { length bytes.now ≤ MAX_FILE }
    ensures { ReadsLines (lines_of bytes.now) result }
{
    let (version, header, text) = find_body(bytes)?;
    lines_in(alloc, version, header + 1, text)
}

fn lines_in(
    alloc: Global,
    version: Version,
    first: u32,
    text: &[u8],
) -> Result<DrawnLines, DrawFault>
    requires { first + length text.now ≤ MAX_FILE + 1 }
    ensures { ReadsLines (lines_after version first empty_draft (words_by_line text.now)) result }
{
    let (draft, number) = draft_of_lines(alloc, version, first, text)?;
    drawn_in(version, number, draft)
}

/// Returns the lines of a draft, where the text ends before the line of the given number.
pub fn drawn_in(version: Version, number: u32, draft: DrawingDraft) -> Result<DrawnLines, DrawFault>
    ensures value { result ≡ lines_of_draft version number draft }
    ensures no_ends { IfOk result (λ drawn. HasNoEnds drawn.drawing) }
{
    let DrawingDraft {
        drawing,
        opened,
        ends,
        ..
    } = draft;
    match drawing.finish() {
        Ok(drawing) => Ok(DrawnLines {
            version,
            drawing,
            ends,
        }),
        Err(kind) => Err(fault_with_line(number, opened, kind)),
    }
}
