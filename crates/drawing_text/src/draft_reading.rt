ghost use Rattle.design_model.specs.declared.limits.TheConstants.{MAX_FILE};
ghost use Rattle.drawing_text.specs.DrawingText.{ReadsDrawing, drawing_after_lines, drawing_of_draft};
ghost use Rattle.drawing_text.specs.DrawnTexts.{ReadsLines, lines_after, lines_of_draft};
ghost use Rattle.drawing_text.specs.TextLines.{empty_draft};
ghost use Rattle.drawing_text.specs.Words.{words_by_line};
ghost use Rattle.std.specs.Prelude.{◌≡◌, ◌+◌, ◌≤◌, Err, IfErr, IfOk, length};

use crate::draft::DrawingDraft;
use crate::draw_fault::{DrawFault, fault_with_line};
use crate::text_words::{next_line, without_return};
use crate::version::Version;
use std::alloc::Global;

/// Returns the draft of all lines of a text after its header, and the number of the line before which the
/// text ends; or the first fault of a line.
pub fn draft_of_lines(
    alloc: Global,
    version: Version,
    first: u32,
    text: &[u8],
) -> Result<(DrawingDraft, u32), DrawFault>
    requires { first + length text.now ≤ MAX_FILE + 1 }
    ensures drawing { IfOk result (λ r.
        drawing_after_lines version first empty_draft (words_by_line text.now)
        ≡ drawing_of_draft version r.1 r.0) }
    ensures lines { IfOk result (λ r.
        lines_after version first empty_draft (words_by_line text.now)
        ≡ lines_of_draft version r.1 r.0) }
    ensures no_drawing { IfErr result (λ fault. ReadsDrawing
        (drawing_after_lines version first empty_draft (words_by_line text.now)) (Err fault)) }
    ensures no_lines { IfErr result (λ fault. ReadsLines
        (lines_after version first empty_draft (words_by_line text.now)) (Err fault)) }
{
    let mut draft = DrawingDraft::new(alloc);
    let mut number = first;
    let mut rest = text;
    while let Some((line, after)) = next_line(rest) {
        match draft.take_line(alloc, version, number, without_return(line)) {
            Ok(()) => {}
            Err(kind) => return Err(fault_with_line(number, draft.opened, kind)),
        }
        number += 1;
        rest = after;
    }
    Ok((draft, number))
}
