ghost use Rattle.design_commands.specs.EditOrders.{bad_design_edit_text};
ghost use Rattle.edited_designs.specs.EditedInOrder.{bad_design_edit_is_out_of_memory};
ghost use Rattle.program_shell.specs.FileTexts.{text_at};
ghost use Rattle.program_shell.specs.StepOutcomes.{IsFaultFailure, IsRefusalWith};
ghost use Rattle.std.specs.Prelude.{◌≡◌, ◌++◌, IfOk, codes, decimal, string_bytes};

use design_model::Memory;
use edited_designs::{BadDesignEdit, DesignFault};
use program_shell::{Failure, describe_part, refused};
use std::alloc::Global;

/// Returns the failure for an edit that is refused.
pub(crate) fn edit_refusal<'a>(alloc: Global, name: &str, bad: BadDesignEdit) -> Failure<'a>
    ensures { IsFaultFailure (bad_design_edit_is_out_of_memory bad)
        (bad_design_edit_text name.now bad) result }
{
    match bad.fault {
        DesignFault::Memory => Failure::Memory,
        _ => bad_edit(alloc, name, bad),
    }
}

/// Returns the refusal of an edit, or out of memory.
fn bad_edit<'a>(alloc: Global, name: &str, bad: BadDesignEdit) -> Failure<'a>
    ensures { IsRefusalWith (bad_design_edit_text name.now bad) result }
{
    refused(describe_bad_edit(alloc, name, bad))
}

fn describe_bad_edit(alloc: Global, name: &str, bad: BadDesignEdit) -> Result<String, Memory>
    ensures { IfOk result (λ text. string_bytes text ≡ bad_design_edit_text name.now bad) }
{
    match bad.fault {
        DesignFault::Range { number } => describe_moved(alloc, name, bad.number, number),
        DesignFault::NoPlace { place, count } => {
            describe_no_block(alloc, name, bad.number, place, count)
        }
        DesignFault::TooMany => {
            describe_part(
                alloc,
                name,
                "edit",
                bad.number,
                "more than 1000000 commands",
            )
        }
        DesignFault::Memory => describe_part(alloc, name, "edit", bad.number, "out of memory"),
    }
}

/// Returns the text about a command whose point an edit would move out of its range.
fn describe_moved(alloc: Global, name: &str, edit: u64, number: u32) -> Result<String, Memory>
    ensures { IfOk result (λ text. string_bytes text ≡ text_at name.now (codes "edit") edit
        (codes "command " ++ (decimal number ++ codes " moved out of range"))) }
{
    let text = format!(in alloc; "{name}: edit {edit}: command {number} moved out of range")?;
    Ok(text)
}

/// Returns the text about a block that the design doesn't have.
fn describe_no_block(
    alloc: Global,
    name: &str,
    edit: u64,
    place: u32,
    count: u32,
) -> Result<String, Memory>
    ensures { IfOk result (λ text. string_bytes text ≡ text_at name.now (codes "edit") edit
        (codes "no block " ++ (decimal place ++ (codes ", there are " ++ decimal count)))) }
{
    let text = format!(in alloc; "{name}: edit {edit}: no block {place}, there are {count}")?;
    Ok(text)
}
