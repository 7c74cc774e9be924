ghost use Rattle.line_graph.specs.GrowingDrawings.{draw_is_out_of_memory};
ghost use Rattle.program_shell.specs.FileTexts.{text_about};
ghost use Rattle.program_shell.specs.StepOutcomes.{IsFaultFailure, IsRefusalWith};
ghost use Rattle.program_texts.specs.DrawingTexts.{draw_kind_text};
ghost use Rattle.std.specs.Prelude.{◌≡◌};

use line_graph::DrawKind;
use program_shell::{Failure, describe_file, refused};
use program_texts::kind_text;
use std::alloc::Global;

/// Returns the failure for a spaced drawing with a fault.
pub(crate) fn space_failure<'a>(alloc: Global, name: &str, why: DrawKind) -> Failure<'a>
    ensures { IsFaultFailure (draw_is_out_of_memory why) (text_about name.now (draw_kind_text why)) result }
{
    match why {
        DrawKind::Memory => Failure::Memory,
        other => not_spaced(alloc, name, other),
    }
}

/// Returns the refusal of a spaced drawing with a fault, or out of memory.
fn not_spaced<'a>(alloc: Global, name: &str, why: DrawKind) -> Failure<'a>
    ensures { IsRefusalWith (text_about name.now (draw_kind_text why)) result }
{
    refused(describe_file(alloc, name, kind_text(why)))
}
