ghost use Rattle.drawing_text.specs.DrawingText.{IsJoinedWithoutEnds, drawing_as2, drawing_of};
ghost use Rattle.outside_io.specs.Files.{IsFileName};
ghost use Rattle.program_shell.specs.StepOutcomes.{ParsesInput};
ghost use Rattle.program_texts.specs.DrawingTexts.{draw_fault_text};
ghost use Rattle.std.specs.Prelude.{IfOk};

use crate::fault_failures::drawing_failure;
use crate::reading::read_input;
use drawing_text::{read_as2, read_drawing};
use line_graph::Drawing;
use outside_io::Store;
use program_shell::Step;
use std::alloc::Global;

/// Reads and parses the drawing of an input file. Errors: the file is missing, can't be read or is too long; or
/// the first fault of its text, with its line.
pub fn drawing_in<'a, S: Store>(alloc: Global, store: &mut S, name: &'a str) -> Step<'a, Drawing>
    requires { IsFileName name.now }
    ensures { ParsesInput drawing_of (draw_fault_text name.now) name.now (S.view store.old)
        (S.view store.new) result }
{
    let bytes = read_input(alloc, store, name)?;
    match read_drawing(alloc, bytes.as_slice()) {
        Ok(drawing) => Ok(drawing),
        Err(fault) => Err(drawing_failure(alloc, name, fault)),
    }
}

/// Reads and parses the drawing of an input file as version 2.
pub fn drawing_as2_in<'a, S: Store>(
    alloc: Global,
    store: &mut S,
    name: &'a str,
) -> Step<'a, Drawing>
    requires { IsFileName name.now }
    ensures takes { ParsesInput drawing_as2 (draw_fault_text name.now) name.now (S.view store.old)
        (S.view store.new) result }
    ensures whole { IfOk result IsJoinedWithoutEnds }
{
    let bytes = read_input(alloc, store, name)?;
    match read_as2(alloc, bytes.as_slice()) {
        Ok(drawing) => Ok(drawing),
        Err(fault) => Err(drawing_failure(alloc, name, fault)),
    }
}
