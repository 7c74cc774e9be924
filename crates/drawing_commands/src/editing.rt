ghost use Rattle.command_words.specs.ValidNames.{AreFileNames};
ghost use Rattle.drawing_commands.specs.DrawingEditWords.{drawing_edits_of, parsed_drawing_edits};
ghost use Rattle.drawing_commands.specs.DrawingEditing.{drawing_edit_order, edit_kept};
ghost use Rattle.drawing_comments.specs.CommentLaws.{AreTextComments};
ghost use Rattle.line_graph.specs.EndOrders.{HasOrderedEnds};
ghost use Rattle.program_shell.specs.StepOutcomes.{RunsPurePlan};
ghost use Rattle.std.specs.Prelude.{◌≤◌, IsSome, length, map, string_bytes};

use crate::applied_edits::edited;
use crate::edit_failures::edit_failure;
use crate::edited_files::written;
use crate::text_reading::TextRead;
use command_words::FileNames;
use program_shell::Made;
use std::alloc::Global;

/// Edits a drawing that was read, and reports on it.
pub(crate) fn edit_read<'a>(
    alloc: Global,
    names: FileNames<'a>,
    edits: &[String],
    text: &TextRead,
) -> Made<'a>
    requires names { AreFileNames names }
    requires edits { IsSome (parsed_drawing_edits (map (λ word. string_bytes word) edits.now)) }
    requires some { 1 ≤ length edits.now }
    requires ordered { HasOrderedEnds text.now.lines.drawing }
    requires comments { AreTextComments text.now.comments }
    ensures { RunsPurePlan (edit_kept (drawing_edit_order names.entry.input.now names.entry.output.now
        (drawing_edits_of (map (λ word. string_bytes word) edits.now))) text.now) result }
{
    match edited(alloc, &text.lines.drawing, edits) {
        Ok(drawing) => written(alloc, names.output, edits, text, &drawing),
        Err(bad) => Err(edit_failure(alloc, names.input, bad)),
    }
}
