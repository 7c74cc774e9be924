ghost use Rattle.design_model.specs.OutOfMemory.{IsSpecified};
ghost use Rattle.design_model.specs.declared.limits.TheConstants.{MAX_FILE};
ghost use Rattle.drawing_comments.specs.CommentLaws.{AreTextComments};
ghost use Rattle.drawing_commands.specs.TextsRead.{text_read};
ghost use Rattle.drawing_text.specs.DrawingText.{draw_fault_is_out_of_memory};
ghost use Rattle.line_graph.specs.EndOrders.{HasOrderedEnds};
ghost use Rattle.line_graph.specs.GrowingDrawings.{draw_is_out_of_memory};
ghost use Rattle.outside_io.specs.Files.{IsFileName};
ghost use Rattle.program_shell.specs.StepOutcomes.{IsFaultFailure, IsRefusalWith, ParsesInput};
ghost use Rattle.program_texts.specs.DrawingTexts.{draw_fault_text};
ghost use Rattle.std.specs.Prelude.{◌≡◌, ◌≤◌, IfOk, length, true};

use drawing_comments::{TextComments, find_comments};
use drawing_text::{DrawFault, read_with_lines};
use line_graph::DrawKind;
use outside_io::Store;
use program_inputs::{LinesRead, read_input};
use program_shell::{Failure, Step, refused};
use program_texts::describe_draw_fault;
use std::alloc::Global;

/// What is read of the text of a drawing: the drawing, its lines as they are drawn, and its comments.
#[derive(Drop)]
pub struct TextRead {
    pub lines: LinesRead,
    pub comments: TextComments,
}

/// Reads and parses the drawing of an input file, with its comments. Errors: as for a drawing.
pub(crate) fn text_in<'a, S: Store>(
    alloc: Global,
    store: &mut S,
    name: &'a str,
) -> Step<'a, TextRead>
    requires { IsFileName name.now }
    ensures takes { ParsesInput text_read (draw_fault_text name.now) name.now (S.view store.old)
        (S.view store.new) result }
    ensures ordered { IfOk result (λ text. HasOrderedEnds text.lines.drawing) }
    ensures comments { IfOk result (λ text. AreTextComments text.comments) }
{
    let bytes = read_input(alloc, store, name)?;
    match read_text(alloc, bytes.as_slice()) {
        Ok(text) => Ok(text),
        Err(fault) => Err(text_failure(alloc, name, fault)),
    }
}

/// Returns what is read of a text, or its first fault.
fn read_text(alloc: Global, bytes: &[u8]) -> Result<TextRead, DrawFault>
    requires { length bytes.now ≤ MAX_FILE }
    ensures answer { IsSpecified draw_fault_is_out_of_memory (text_read bytes.now) result }
    ensures ordered { IfOk result (λ text. HasOrderedEnds text.lines.drawing) }
    ensures comments { IfOk result (λ text. AreTextComments text.comments) }
{
    let lines = read_with_lines(alloc, bytes)?;
    match find_comments(alloc, bytes) {
        Ok(comments) => Ok(TextRead { lines, comments }),
        Err(_) => Err(out_of_memory()),
    }
}

fn out_of_memory() -> DrawFault
    ensures { draw_fault_is_out_of_memory result ≡ true }
{
    DrawFault {
        number: 0,
        kind: DrawKind::Memory,
    }
}

/// Returns the failure for a file that is no drawing.
fn text_failure<'a>(alloc: Global, name: &str, fault: DrawFault) -> Failure<'a>
    ensures { IsFaultFailure (draw_is_out_of_memory fault.kind) (draw_fault_text name.now fault) result }
{
    match fault.kind {
        DrawKind::Memory => Failure::Memory,
        _ => not_a_drawing(alloc, name, fault),
    }
}

/// Returns the refusal of a file that is no drawing, or out of memory.
fn not_a_drawing<'a>(alloc: Global, name: &str, fault: DrawFault) -> Failure<'a>
    ensures { IsRefusalWith (draw_fault_text name.now fault) result }
{
    refused(describe_draw_fault(alloc, name, fault))
}
