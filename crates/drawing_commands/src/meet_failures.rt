ghost use Rattle.drawing_commands.specs.MeetFaults.{meet_fault_text, meet_kind_text, vanished_text};
ghost use Rattle.met_drawings.specs.MetDrawings.{meet_is_out_of_memory};
ghost use Rattle.program_shell.specs.StepOutcomes.{IsFaultFailure, IsRefusalWith};
ghost use Rattle.std.specs.Prelude.{◌≡◌, IfOk, string_bytes};

use design_model::Memory;
use line_graph::DrawKind;
use met_drawings::{MeetFault, VanishedLine};
use program_shell::{Failure, describe_file, refused};
use program_texts::kind_text;
use std::alloc::Global;

/// Returns the failure for a drawing whose lines can't be made to meet.
pub(crate) fn meet_failure<'a>(alloc: Global, name: &str, fault: MeetFault) -> Failure<'a>
    ensures { IsFaultFailure (meet_is_out_of_memory fault) (meet_fault_text name.now fault) result }
{
    match fault {
        MeetFault::Limit(DrawKind::Memory) => Failure::Memory,
        other => not_met(alloc, name, other),
    }
}

/// Returns the refusal of a drawing whose lines can't be made to meet, or out of memory.
fn not_met<'a>(alloc: Global, name: &str, fault: MeetFault) -> Failure<'a>
    ensures { IsRefusalWith (meet_fault_text name.now fault) result }
{
    refused(describe_meet_fault(alloc, name, fault))
}

fn describe_meet_fault(alloc: Global, name: &str, fault: MeetFault) -> Result<String, Memory>
    ensures { IfOk result (λ text. string_bytes text ≡ meet_fault_text name.now fault) }
{
    match fault {
        MeetFault::Vanished(line) => describe_vanished(alloc, name, line),
        MeetFault::Limit(kind) => describe_file(alloc, name, limit_text(kind)),
    }
}

/// Returns the name of a fault in a drawing whose lines meet.
fn limit_text(kind: DrawKind) -> &'static str
    ensures { result.now ≡ meet_kind_text kind }
{
    match kind {
        DrawKind::TooManyLines => "more than 1024 lines after cutting: split the drawing",
        other => kind_text(other),
    }
}

fn describe_vanished(alloc: Global, name: &str, vanished: VanishedLine) -> Result<String, Memory>
    ensures { IfOk result (λ text.
        string_bytes text ≡ vanished_text name.now vanished.block vanished.line) }
{
    let block = vanished.block as u128 + 1;
    let line = vanished.line as u128 + 1;
    Ok(format!(in alloc; "{name}: block {block} line {line}: would vanish")?)
}
