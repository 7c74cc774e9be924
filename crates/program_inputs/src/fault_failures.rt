ghost use Rattle.line_graph.specs.GrowingDrawings.{draw_is_out_of_memory};
ghost use Rattle.program_shell.specs.StepOutcomes.{IsFaultFailure, IsRefusalWith};
ghost use Rattle.program_texts.specs.DrawingTexts.{draw_fault_text};

use drawing_text::DrawFault;
use line_graph::DrawKind;
use program_shell::{Failure, refused};
use program_texts::describe_draw_fault;
use std::alloc::Global;

/// Returns the failure for a file that is no drawing.
pub fn drawing_failure<'a>(alloc: Global, name: &str, fault: DrawFault) -> Failure<'a>
    ensures { IsFaultFailure (draw_is_out_of_memory fault.kind) (draw_fault_text name.now fault) result }
{
    match fault.kind {
        DrawKind::Memory => Failure::Memory,
        _ => bad_drawing(alloc, name, fault),
    }
}

/// Returns the refusal of a file that is no drawing, or out of memory.
fn bad_drawing<'a>(alloc: Global, name: &str, fault: DrawFault) -> Failure<'a>
    ensures { IsRefusalWith (draw_fault_text name.now fault) result }
{
    refused(describe_draw_fault(alloc, name, fault))
}
