ghost use Rattle.command_words.specs.Edits.{IsMotionInBounds};
ghost use Rattle.design_edits.specs.Moves.{shifted, with_mapped_points};
ghost use Rattle.design_edits.specs.declared.motion.TheConstants.{MAX_SHIFT};
ghost use Rattle.design_model.specs.Designs.{DesignValue, with_label};
ghost use Rattle.design_model.specs.OutOfMemory.{IsSpecified};
ghost use Rattle.design_model.specs.declared.act.Act.{Act as ActValue};
ghost use Rattle.design_model.specs.declared.design.TheConstants.{MAX_LABEL};
ghost use Rattle.design_rewrites.specs.Rewrites.{IsRewritten};
ghost use Rattle.edited_designs.specs.DesignChanges.{IsDesignEdit, centred, design_change};
ghost use Rattle.edited_designs.specs.EditedDesigns.{design_fault_is_out_of_memory, edited_design, given_acts, mapped, moved_by, threaded_at};
ghost use Rattle.sewing_edits.specs.Scales.{IsScaleResult, scale_point};
ghost use Rattle.format_traits.specs.LabelFields.{label_in};
ghost use Rattle.std.specs.Prelude.{◌≡◌, ◌≤◌, ℕ, List, length, unsigned_abs};

use crate::design_edit::DesignEdit;
use crate::design_fault::DesignFault;
use design_edits::{EditFault, Motion, mirror, recolour, shift, turn};
use design_model::Design;
use design_rewrites::RewriteFault;
use format_traits::read_label;
use sewing_edits::{ScaleFault, bare, bean, carry, centre, cut, drop_empty, merge, scale, tie};
use std::alloc::Global;

/// The result of an edit.
type Edited = Result<Design, DesignFault>;

/// Returns the design after an edit. Errors: `Range` with the first command whose point would be out of its range,
/// `NoPlace` where the design doesn't have the block, `TooMany` where it would have too many commands, or `Memory`.
pub fn edit_design(alloc: Global, design: Design, edit: DesignEdit<'_>) -> Edited
    requires { IsDesignEdit edit }
    ensures { IsSpecified design_fault_is_out_of_memory
        (edited_design (design_change edit.entry) design) result }
{
    match edit {
        DesignEdit::Move(by) => moved(design, by),
        DesignEdit::Thread { place, thread } => threaded(design, place, thread),
        DesignEdit::Tie(length) => of_rewrite(tie(alloc, &design, length)),
        DesignEdit::Bare => of_rewrite(bare(alloc, &design)),
        DesignEdit::Centre => centred(design),
        DesignEdit::Cut(limit) => of_rewrite(cut(alloc, &design, limit)),
        DesignEdit::Carry(limit) => of_rewrite(carry(alloc, &design, limit)),
        DesignEdit::Merge(limit) => of_rewrite(merge(alloc, &design, limit)),
        DesignEdit::Bean(times) => of_rewrite(bean(alloc, &design, times)),
        DesignEdit::Scale(percent) => of_scale(scale(alloc, &design, percent)),
        DesignEdit::DropEmpty => of_rewrite(drop_empty(alloc, &design)),
        DesignEdit::Thumbnails => Ok(design),
        DesignEdit::Name(label) => Ok(named(design, label)),
    }
}

fn moved(design: Design, by: Motion) -> Edited
    requires { IsMotionInBounds by }
    ensures { IsSpecified design_fault_is_out_of_memory (moved_by by design) result }
{
    match by {
        Motion::Shift { dx, dy } => moved_far(design, dx, dy),
        Motion::Turn { quarters } => {
            let mut moved = design;
            turn(&mut moved, quarters);
            Ok(moved)
        }
        Motion::Mirror(axis) => {
            let mut moved = design;
            mirror(&mut moved, axis);
            Ok(moved)
        }
    }
}

fn moved_far(design: Design, dx: i32, dy: i32) -> Edited
    requires dx { unsigned_abs dx ≤ MAX_SHIFT }
    requires dy { unsigned_abs dy ≤ MAX_SHIFT }
    ensures { IsSpecified design_fault_is_out_of_memory (mapped (shifted dx dy design)) result }
{
    let mut moved = design;
    match shift(&mut moved, dx, dy) {
        Ok(()) => Ok(moved),
        Err(EditFault::Range { number }) => Err(DesignFault::Range { number }),
        Err(EditFault::NoPlace { count: _ }) => unreachable!(),
    }
}

fn centred(design: Design) -> Edited
    ensures { IsSpecified design_fault_is_out_of_memory (edited_design centred design) result }
{
    let mut centred = design;
    match centre(&mut centred) {
        Ok(()) => Ok(centred),
        Err(EditFault::Range { number }) => Err(DesignFault::Range { number }),
        Err(EditFault::NoPlace { count: _ }) => unreachable!(),
    }
}

fn threaded(design: Design, place: u32, thread: u8) -> Edited
    requires some { 1 ≤ place }
    requires most { place ≤ 255 }
    ensures { IsSpecified design_fault_is_out_of_memory (threaded_at place thread design) result }
{
    let mut threaded = design;
    match recolour(&mut threaded, place - 1, thread) {
        Ok(()) => Ok(threaded),
        Err(EditFault::NoPlace { count }) => Err(DesignFault::NoPlace { place, count }),
        Err(EditFault::Range { number: _ }) => unreachable!(),
    }
}

fn named(design: Design, label: &[u8]) -> Design
    requires { length label.now ≤ MAX_LABEL }
    ensures { result ≡ with_label design (label_in label.now) }
{
    let mut named = design;
    read_label(&mut named, label);
    named
}

fn of_rewrite(rewritten: Result<Design, RewriteFault>) -> Edited
    ensures { (d : DesignValue) (acts : List ActValue) → IsRewritten d acts rewritten
        → IsSpecified design_fault_is_out_of_memory (given_acts d acts) result }
{
    match rewritten {
        Ok(design) => Ok(design),
        Err(RewriteFault::TooMany) => Err(DesignFault::TooMany),
        Err(RewriteFault::Memory) => Err(DesignFault::Memory),
    }
}

fn of_scale(scaled: Result<Design, ScaleFault>) -> Edited
    ensures { (percent : ℕ) (d : DesignValue) → IsScaleResult percent d scaled
        → IsSpecified design_fault_is_out_of_memory (mapped (with_mapped_points (scale_point percent) d)) result }
{
    match scaled {
        Ok(design) => Ok(design),
        Err(ScaleFault::Range { number }) => Err(DesignFault::Range { number }),
        Err(ScaleFault::Memory) => Err(DesignFault::Memory),
    }
}
