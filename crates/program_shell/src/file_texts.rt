ghost use Rattle.program_shell.specs.FileTexts.{read_fault_text, text_about, text_at};
ghost use Rattle.program_shell.specs.StepOutcomes.{IsRefusalWith};
ghost use Rattle.std.specs.Prelude.{◌≡◌, IfOk, codes, string_bytes};

use crate::failure::{Failure, refused};
use design_model::Memory;
use format_traits::ReadFault;
use std::alloc::Global;

/// Returns a text about a file.
pub fn describe_file(alloc: Global, name: &str, what: &str) -> Result<String, Memory>
    ensures { IfOk result (λ text. string_bytes text ≡ text_about name.now what.now) }
{
    Ok(format!(in alloc; "{name}: {what}")?)
}

/// Returns a text about a numbered part of a file.
pub fn describe_part(
    alloc: Global,
    name: &str,
    part: &str,
    number: u64,
    what: &str,
) -> Result<String, Memory>
    ensures { IfOk result (λ text. string_bytes text ≡ text_at name.now part.now number what.now) }
{
    Ok(format!(in alloc; "{name}: {part} {number}: {what}")?)
}

/// Returns the refusal of a file at a numbered part, or out of memory.
pub fn refused_part<'a>(
    alloc: Global,
    name: &str,
    part: &str,
    number: u64,
    what: &str,
) -> Failure<'a>
    ensures { IsRefusalWith (text_at name.now part.now number what.now) result }
{
    refused(describe_part(alloc, name, part, number, what))
}

/// Returns the text about a file that does not conform to its format.
pub fn describe_read_fault(alloc: Global, name: &str, fault: ReadFault) -> Result<String, Memory>
    ensures { IfOk result (λ text. string_bytes text ≡ read_fault_text name.now fault) }
{
    match fault {
        ReadFault::Short { at } => describe_byte(alloc, name, at, "file too short"),
        ReadFault::Signature { at } => describe_byte(alloc, name, at, "signature not known"),
        ReadFault::Sequin { at } => describe_byte(alloc, name, at, "sequin"),
        ReadFault::Control { at } => describe_byte(alloc, name, at, "control code not known"),
        ReadFault::Range { at } => describe_byte(alloc, name, at, "point out of range"),
        ReadFault::TooMany { at } => describe_byte(alloc, name, at, "more than 1000000 commands"),
        ReadFault::Memory => describe_file(alloc, name, "out of memory"),
    }
}

/// Returns a text about a byte of a file, at an offset from 0.
fn describe_byte(alloc: Global, name: &str, offset: u64, what: &str) -> Result<String, Memory>
    ensures { IfOk result (λ text. string_bytes text ≡ text_at name.now (codes "byte") offset what.now) }
{
    describe_part(alloc, name, "byte", offset, what)
}
