ghost use Rattle.drawing_commands.specs.DrawingEditing.{bad_edit_is_out_of_memory, bad_edit_text};
ghost use Rattle.program_shell.specs.FileTexts.{text_at};
ghost use Rattle.program_shell.specs.StepOutcomes.{IsFaultFailure, IsRefusalWith};
ghost use Rattle.std.specs.Prelude.{◌≡◌, ◌++◌, IfOk, codes, decimal, string_bytes};

use crate::bad_edit::BadEdit;
use design_model::Memory;
use drawing_edits::EditFault;
use line_graph::DrawKind;
use program_shell::{Failure, describe_part, refused};
use program_texts::describe_kind;
use std::alloc::Global;

/// Returns the failure for an edit that is refused.
pub(crate) fn edit_failure<'a>(alloc: Global, name: &str, bad: BadEdit) -> Failure<'a>
    ensures { IsFaultFailure (bad_edit_is_out_of_memory bad) (bad_edit_text name.now bad) result }
{
    match bad.fault {
        EditFault::Draw(DrawKind::Memory) => Failure::Memory,
        _ => bad_edit(alloc, name, bad),
    }
}

/// Returns the refusal of an edit, or out of memory.
fn bad_edit<'a>(alloc: Global, name: &str, bad: BadEdit) -> Failure<'a>
    ensures { IsRefusalWith (bad_edit_text name.now bad) result }
{
    refused(describe_edit(alloc, name, bad))
}

fn describe_edit(alloc: Global, name: &str, bad: BadEdit) -> Result<String, Memory>
    ensures { IfOk result (λ text. string_bytes text ≡ bad_edit_text name.now bad) }
{
    match bad.fault {
        EditFault::Draw(kind) => describe_kind(alloc, name, "edit", bad.number, kind),
        EditFault::TwoBlocks => {
            describe_part(alloc, name, "edit", bad.number, "two blocks list the point")
        }
        EditFault::NoPiece(number) => describe_no_piece(alloc, name, bad.number, number),
        EditFault::SamePiece => describe_part(
            alloc,
            name,
            "edit",
            bad.number,
            "both pieces are one",
        ),
        EditFault::OtherBlock => {
            describe_part(
                alloc,
                name,
                "edit",
                bad.number,
                "pieces in different blocks",
            )
        }
    }
}

/// Returns the text about an edit that names a piece that there isn't.
fn describe_no_piece(alloc: Global, name: &str, edit: u64, piece: u32) -> Result<String, Memory>
    ensures { IfOk result (λ text.
        string_bytes text ≡ text_at name.now (codes "edit") edit (codes "no piece " ++ decimal piece)) }
{
    Ok(format!(in alloc; "{name}: edit {edit}: no piece {piece}")?)
}
