ghost use Rattle.drawing_commands.specs.VersionOne.{version_one_text};
ghost use Rattle.line_graph.specs.JoinedDrawings.{is_joined};
ghost use Rattle.program_shell.specs.FileTexts.{text_about};
ghost use Rattle.program_shell.specs.StepOutcomes.{IsRefusalWith};
ghost use Rattle.std.specs.Prelude.{◌≡◌, IfOk};

use design_model::Memory;
use line_graph::Drawing;
use line_sections::{sections, sections_are_whole, whole_lines_stay};
use program_shell::{Failure, describe_file, refused};
use std::alloc::Global;

/// Returns whether no line of a drawing as it was read would be cut. Only one of version 1 has such lines.
pub(crate) fn is_kept(alloc: Global, drawing: &Drawing) -> Result<bool, Memory>
    ensures { IfOk result (λ is. is ≡ is_joined drawing.now) }
{
    drawing.keeps_limits();
    sections_are_whole();
    whole_lines_stay();
    let lines = drawing.lines();
    let sections = sections(alloc, lines)?;
    let is = sections.as_slice().len() == lines.len();
    Ok(is)
}

/// Returns the refusal of a drawing of version 1 whose lines would be cut, or out of memory.
pub(crate) fn not_kept<'a>(alloc: Global, name: &str) -> Failure<'a>
    ensures { IsRefusalWith (text_about name.now version_one_text) result }
{
    refused(describe_file(alloc, name, version_one()))
}

/// Returns what is wrong with a drawing of version 1 whose lines would be cut.
fn version_one() -> &'static str
    ensures { result.now ≡ version_one_text }
{
    "redwork 1 can't be kept: migrate it first"
}
