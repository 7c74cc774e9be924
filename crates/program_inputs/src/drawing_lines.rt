ghost use Rattle.drawing_text.specs.DrawingLines.{lines_read};
ghost use Rattle.line_graph.specs.EndOrders.{HasOrderedEnds};
ghost use Rattle.outside_io.specs.Files.{IsFileName};
ghost use Rattle.program_shell.specs.StepOutcomes.{ParsesInput};
ghost use Rattle.program_texts.specs.DrawingTexts.{draw_fault_text};
ghost use Rattle.std.specs.Prelude.{IfOk};

use crate::fault_failures::drawing_failure;
use crate::reading::read_input;
use drawing_text::{LinesRead, read_with_lines};
use outside_io::Store;
use program_shell::Step;
use std::alloc::Global;

/// Reads and parses the drawing of an input file, and its lines as they are drawn. Errors: as for a drawing.
pub fn lines_in<'a, S: Store>(alloc: Global, store: &mut S, name: &'a str) -> Step<'a, LinesRead>
    requires { IsFileName name.now }
    ensures takes { ParsesInput lines_read (draw_fault_text name.now) name.now (S.view store.old)
        (S.view store.new) result }
    ensures ordered { IfOk result (λ read. HasOrderedEnds read.drawing) }
{
    let bytes = read_input(alloc, store, name)?;
    match read_with_lines(alloc, bytes.as_slice()) {
        Ok(read) => Ok(read),
        Err(fault) => Err(drawing_failure(alloc, name, fault)),
    }
}
