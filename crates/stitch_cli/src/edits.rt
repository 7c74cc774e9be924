ghost use Rattle.command_words.specs.Arguments.{parsed_edit, parsed_edits};
ghost use Rattle.command_words.specs.Changes.{move as move_by, thread as thread_at};
ghost use Rattle.command_words.specs.Edits.{IsEditInBounds, IsMotionInBounds, change_of_edit};
ghost use Rattle.command_words.specs.ValidRequests.{AreEdits};
ghost use Rattle.design_edits.specs.declared.motion.Motion.TheVariants as motion;
ghost use Rattle.design_edits.specs.declared.motion.TheConstants.{MAX_SHIFT};
ghost use Rattle.std.specs.Prelude.{◌≤◌, ℕ, [], IfSome, IsSome, map, string_bytes, unsigned_abs, unwrap_or};
ghost use Rattle.stitch_cli.specs.AppliedChanges.{IsChangesResult};
ghost use Rattle.stitch_cli.specs.ChangeSteps.{IsEditResult};

use crate::change_faults::{ChangeFailure, ChangeFault};
use command_words::{Edit, parse_edit};
use design_edits::{EditFault, Motion, mirror, recolour, shift, turn};
use design_model::Design;

/// Returns the design after the edits that the arguments represent, in order.
pub(crate) fn edited(design: Design, words: &[String]) -> Result<Design, ChangeFailure>
    requires { AreEdits (map (λ word. string_bytes word) words.now) }
    ensures { (limit : ℕ) → IsChangesResult limit
        (unwrap_or (parsed_edits (map (λ word. string_bytes word) words.now)) []) design result }
{
    let mut edited = design;
    for word in words {
        match apply_word(&mut edited, word.as_bytes()) {
            Ok(()) => {}
            Err(why) => return Err(ChangeFailure::Refused(why)),
        }
    }
    Ok(edited)
}

/// Applies the edit that an argument represents.
fn apply_word(design: &mut Design, word: &[u8]) -> Result<(), ChangeFault>
    requires { IsSome (parsed_edit word.now) }
    ensures { (limit : ℕ) → IfSome (parsed_edit word.now)
        (λ change. IsEditResult limit change design.old result design.new) }
{
    match parse_edit(word) {
        Some(edit) => apply(design, edit),
        None => unreachable!(),
    }
}

fn apply(design: &mut Design, edit: Edit) -> Result<(), ChangeFault>
    requires { IsEditInBounds edit }
    ensures { (limit : ℕ) → IsEditResult limit (change_of_edit edit) design.old result design.new }
{
    match edit {
        Edit::Move(by) => apply_motion(design, by),
        Edit::Thread { place, thread } => apply_thread(design, place, thread),
    }
}

fn apply_motion(design: &mut Design, by: Motion) -> Result<(), ChangeFault>
    requires { IsMotionInBounds by }
    ensures { (limit : ℕ) → IsEditResult limit (move_by by) design.old result design.new }
{
    match by {
        Motion::Shift { dx, dy } => apply_shift(design, dx, dy),
        Motion::Turn { quarters } => {
            turn(design, quarters);
            Ok(())
        }
        Motion::Mirror(axis) => {
            mirror(design, axis);
            Ok(())
        }
    }
}

fn apply_shift(design: &mut Design, dx: i32, dy: i32) -> Result<(), ChangeFault>
    requires x { unsigned_abs dx ≤ MAX_SHIFT }
    requires y { unsigned_abs dy ≤ MAX_SHIFT }
    ensures { (limit : ℕ) → IsEditResult limit (move_by (motion.Shift dx dy)) design.old result design.new }
{
    match shift(design, dx, dy) {
        Ok(()) => Ok(()),
        Err(EditFault::Range { number }) => Err(ChangeFault::MovedOut { number }),
        Err(EditFault::NoPlace { count: _ }) => unreachable!(),
    }
}

fn apply_thread(design: &mut Design, place: u32, thread: u8) -> Result<(), ChangeFault>
    requires some { 1 ≤ place }
    requires most { place ≤ 255 }
    ensures { (limit : ℕ) → IsEditResult limit (thread_at place thread) design.old result design.new }
{
    match recolour(design, place - 1, thread) {
        Ok(()) => Ok(()),
        Err(EditFault::NoPlace { count }) => Err(ChangeFault::NoPlace { place, count }),
        Err(EditFault::Range { number: _ }) => unreachable!(),
    }
}
