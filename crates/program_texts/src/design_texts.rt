ghost use Rattle.program_texts.specs.DesignTexts.{command_text, long_stitch_text, no_colour_place_text, too_large_text, write_fault_text};
ghost use Rattle.std.specs.Prelude.{◌≡◌, IfOk, string_bytes};

use design_model::Memory;
use format_traits::WriteFault;
use program_shell::{describe_file, describe_part};
use std::alloc::Global;

/// Returns a text about a command of a design, numbered from 1.
pub fn describe_command(
    alloc: Global,
    name: &str,
    number: u32,
    what: &str,
) -> Result<String, Memory>
    ensures { IfOk result (λ text. string_bytes text ≡ command_text name.now number what.now) }
{
    describe_part(alloc, name, "command", u64::from(number), what)
}

/// Returns the text about a design that a format with that limit cannot encode.
pub fn describe_write_fault(
    alloc: Global,
    name: &str,
    limit: u32,
    fault: WriteFault,
) -> Result<String, Memory>
    ensures { IfOk result (λ text. string_bytes text ≡ write_fault_text name.now limit fault) }
{
    match fault {
        WriteFault::StitchTooLong { number } => long_stitch(alloc, name, number, limit),
        WriteFault::FloatTooLong { number } => {
            describe_command(alloc, name, number, "float too long")
        }
        WriteFault::TooManyStops { number } => {
            describe_command(alloc, name, number, "too many stops")
        }
        WriteFault::TooLong { number } => {
            describe_command(alloc, name, number, "more than 1000000 commands written")
        }
        WriteFault::Memory => describe_file(alloc, name, "out of memory"),
    }
}

fn long_stitch(alloc: Global, name: &str, number: u32, limit: u32) -> Result<String, Memory>
    ensures { IfOk result (λ text. string_bytes text ≡ long_stitch_text name.now number limit) }
{
    Ok(format!(in alloc; "{name}: command {number}: stitch longer than {limit}")?)
}

/// Returns the text about a colour place, numbered from 1, that a design does not have, with the number of
/// its places.
pub fn describe_no_place(
    alloc: Global,
    name: &str,
    place: u32,
    count: u32,
) -> Result<String, Memory>
    ensures { IfOk result (λ text. string_bytes text ≡ no_colour_place_text name.now place count) }
{
    Ok(format!(in alloc; "{name}: no colour place {place}, there are {count}")?)
}

/// Returns the text about a design that exceeds a hoop, by these tenths of a millimetre on each axis.
pub fn describe_too_large(alloc: Global, x: u32, y: u32) -> Result<String, Memory>
    ensures { IfOk result (λ text. string_bytes text ≡ too_large_text x y) }
{
    Ok(format!(in alloc; "too large by {x} {y}")?)
}
