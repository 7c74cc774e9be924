ghost use Rattle.design_model.specs.OutOfMemory.{IsSpecified};
ghost use Rattle.edited_designs.specs.DesignChanges.{IsDesignEdit, design_change};
ghost use Rattle.edited_designs.specs.EditArguments.{changes_of, parsed_changes};
ghost use Rattle.edited_designs.specs.EditedInOrder.{bad_design_edit_is_out_of_memory, edited_in_order};
ghost use Rattle.std.specs.Prelude.{All, IsSome, map, string_bytes};

use crate::applied::edit_design;
use crate::design_edit::DesignEdit;
use crate::design_fault::{BadDesignEdit, DesignFault};
use crate::edit_arguments::parse_design_edits;
use design_model::{Design, Memory};
use std::alloc::Global;

/// Returns the design after the edits that arguments represent, in order.
pub fn edit_by_arguments(
    alloc: Global,
    design: Design,
    words: &[String],
) -> Result<Design, BadDesignEdit>
    requires { IsSome (parsed_changes (map (λ word. string_bytes word) words.now)) }
    ensures { IsSpecified bad_design_edit_is_out_of_memory (edited_in_order 1
        (changes_of (map (λ word. string_bytes word) words.now)) design) result }
{
    match parse_design_edits(alloc, words) {
        Ok(edits) => edit_in_order(alloc, design, edits.as_slice()),
        Err(Memory) => Err(BadDesignEdit {
            number: 1,
            fault: DesignFault::Memory,
        }),
    }
}

/// Returns the design after edits in order. The first refused edit determines the error.
pub fn edit_in_order(
    alloc: Global,
    design: Design,
    edits: &[DesignEdit<'_>],
) -> Result<Design, BadDesignEdit>
    requires { All IsDesignEdit edits.now }
    ensures { IsSpecified bad_design_edit_is_out_of_memory
        (edited_in_order 1 (map design_change edits.now) design) result }
{
    let mut edited = design;
    let mut number: u64 = 1;
    for edit in edits {
        match edit_design(alloc, edited, *edit) {
            Ok(next) => edited = next,
            Err(fault) => return Err(BadDesignEdit { number, fault }),
        }
        number += 1;
    }
    Ok(edited)
}
