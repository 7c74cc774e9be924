ghost use Rattle.program_shell.specs.FileTexts.{text_at};
ghost use Rattle.program_texts.specs.DrawingTexts.{draw_fault_text, draw_kind_text, step_limit_text, trace_fault_text};
ghost use Rattle.std.specs.Prelude.{◌≡◌, IfOk, string_bytes};

use crate::design_texts::describe_command;
use design_model::Memory;
use drawing_text::DrawFault;
use line_graph::DrawKind;
use program_shell::{describe_file, describe_part};
use std::alloc::Global;
use stitch_trace::TraceFault;

/// Returns the text about a fault in the text of a drawing.
pub fn describe_draw_fault(alloc: Global, name: &str, fault: DrawFault) -> Result<String, Memory>
    ensures { IfOk result (λ text. string_bytes text ≡ draw_fault_text name.now fault) }
{
    describe_kind(alloc, name, "line", u64::from(fault.number), fault.kind)
}

/// Returns the text about what is wrong with a drawing at a numbered part, such as a line of its text.
pub fn describe_kind(
    alloc: Global,
    name: &str,
    part: &str,
    number: u64,
    kind: DrawKind,
) -> Result<String, Memory>
    ensures { IfOk result (λ text.
        string_bytes text ≡ text_at name.now part.now number (draw_kind_text kind)) }
{
    describe_part(alloc, name, part, number, kind_text(kind))
}

/// Returns the text about a step that exceeds the limit of the format with that ending, both in tenths of a
/// millimetre.
pub fn describe_step(
    alloc: Global,
    name: &str,
    step: u32,
    limit: u32,
    ending: &str,
) -> Result<String, Memory>
    ensures { IfOk result (λ text. string_bytes text ≡ step_limit_text name.now step limit ending.now) }
{
    Ok(format!(in alloc; "{name}: step {step} is above {limit}, the limit of {ending}")?)
}

/// Returns the text about a design that has no traced drawing.
pub fn describe_trace_fault(alloc: Global, name: &str, fault: TraceFault) -> Result<String, Memory>
    ensures { IfOk result (λ text. string_bytes text ≡ trace_fault_text name.now fault) }
{
    match fault {
        TraceFault::NoLinks => describe_file(alloc, name, "nothing is sewn"),
        TraceFault::LinkTooLong { number } => {
            describe_command(alloc, name, number, "link longer than 2047")
        }
        TraceFault::Limit { kind } => describe_file(alloc, name, kind_text(kind)),
        TraceFault::Memory => describe_file(alloc, name, "out of memory"),
    }
}

/// Returns the name of a fault in a drawing.
pub fn kind_text(kind: DrawKind) -> &'static str
    ensures { result.now ≡ draw_kind_text kind }
{
    match kind {
        DrawKind::BadHeader => "not a redwork drawing",
        DrawKind::BadWord => "word not understood",
        DrawKind::BadNumber => "not a number",
        DrawKind::OutOfRange => "number out of range",
        DrawKind::FewPoints => "too few points",
        DrawKind::RepeatedPoint => "point repeated",
        DrawKind::EmptyBlock => "block without a line",
        DrawKind::NoBlock => "no block",
        DrawKind::TooManyLines => "more than 1024 lines",
        DrawKind::TooManyPoints => "more than 65536 points",
        DrawKind::TooManyBlocks => "more than 255 blocks",
        DrawKind::TooMuchCost => "more than 200000 steps",
        DrawKind::NoJunction => "not a junction",
        DrawKind::EndRepeated => "start or end repeated",
        DrawKind::Memory => "out of memory",
    }
}
