ghost use Rattle.command_words.specs.ValidNames.{AreFileNames};
ghost use Rattle.drawing_commands.specs.TextCommands.{HasSoundParts, kept_plan};
ghost use Rattle.drawing_commands.specs.TextPlans.{text_plan};
ghost use Rattle.drawing_commands.specs.VersionOne.{plan_if_kept};
ghost use Rattle.drawing_comments.specs.CommentLaws.{AreTextComments};
ghost use Rattle.line_graph.specs.EndOrders.{HasOrderedEnds};
ghost use Rattle.line_graph.specs.JoinedDrawings.{is_joined};
ghost use Rattle.program_shell.specs.StepOutcomes.{RunsPlan, RunsPurePlan};
ghost use Rattle.std.specs.Prelude.{◌≡◌, true};

use crate::editing::edit_read;
use crate::freeing::free_lines_of;
use crate::meeting::{cross_lines, snap_lines};
use crate::near_files::near_text;
use crate::spacing::space_lines_of;
use crate::text_reading::{TextRead, text_in};
use crate::version_one::{is_kept, not_kept};
use command_words::FileNames;
use outside_io::Store;
use program_shell::Made;
use spaced_lines::SpacingLimits;
use std::alloc::Global;

/// What a command that reads the text of a drawing writes.
#[derive(Clone, Copy)]
pub enum TextCommand<'a> {
    /// A snapped drawing, with a gap in tenths of a millimetre.
    Snap { gap: u16, keeps_copies: bool },
    /// A drawing whose lines list where they cross.
    Cross { keeps_copies: bool },
    /// A spaced drawing, with what is given of the rule.
    Space(SpacingLimits),
    /// A drawing whose pieces have the best starts and ends.
    Free,
    /// A drawing with little travel between its pieces.
    Near,
    /// An edited drawing. The edits are arguments.
    Edit(&'a [String]),
}

/// Reads the text of a drawing, and writes what the command makes of it.
pub(crate) fn write_text<'a, S: Store>(
    alloc: Global,
    command: TextCommand<'_>,
    names: FileNames<'a>,
    store: &mut S,
) -> Made<'a>
    requires names { AreFileNames names }
    requires sound { HasSoundParts command }
    ensures { RunsPlan (text_plan names.entry.input.now
        (kept_plan command.entry names.entry.input.now names.entry.output.now))
        (S.view store.old) (S.view store.new) result }
{
    let text = text_in(alloc, store, names.input)?;
    write_if_kept(alloc, command, names, &text)
}

/// Writes what a command makes of a text, if none of its lines would be cut before.
fn write_if_kept<'a>(
    alloc: Global,
    command: TextCommand<'_>,
    names: FileNames<'a>,
    text: &TextRead,
) -> Made<'a>
    requires names { AreFileNames names }
    requires sound { HasSoundParts command }
    requires ordered { HasOrderedEnds text.now.lines.drawing }
    requires comments { AreTextComments text.now.comments }
    ensures { RunsPurePlan (plan_if_kept names.entry.input.now text.now.lines.drawing
        (kept_plan command.entry names.entry.input.now names.entry.output.now text.now)) result }
{
    if !is_kept(alloc, &text.lines.drawing)? {
        return Err(not_kept(alloc, names.input));
    }
    write_kept(alloc, command, names, text)
}

fn write_kept<'a>(
    alloc: Global,
    command: TextCommand<'_>,
    names: FileNames<'a>,
    text: &TextRead,
) -> Made<'a>
    requires names { AreFileNames names }
    requires sound { HasSoundParts command }
    requires ordered { HasOrderedEnds text.now.lines.drawing }
    requires comments { AreTextComments text.now.comments }
    requires joined { is_joined text.now.lines.drawing ≡ true }
    ensures { RunsPurePlan (kept_plan command.entry names.entry.input.now names.entry.output.now text.now)
        result }
{
    match command {
        TextCommand::Snap { gap, keeps_copies } => {
            snap_lines(alloc, gap, keeps_copies, names, text)
        }
        TextCommand::Cross { keeps_copies } => cross_lines(alloc, keeps_copies, names, text),
        TextCommand::Space(limits) => space_lines_of(alloc, limits, names, text),
        TextCommand::Free => free_lines_of(alloc, names, text),
        TextCommand::Near => near_text(alloc, names, text),
        TextCommand::Edit(edits) => edit_read(alloc, names, edits, text),
    }
}
