ghost use Rattle.design_edits.specs.Motions.{is_small_motion, motion_map};
ghost use Rattle.design_edits.specs.Moves.{first_out_of_range, mirrored, turned, with_mapped_point, with_mapped_points};
ghost use Rattle.design_edits.specs.Shifts.{IsShiftResult};
ghost use Rattle.design_model.specs.Commands.{is_command_in_range};
ghost use Rattle.design_model.specs.Designs.{KeepsLimits, with_command_at};
ghost use Rattle.design_model.specs.declared.design.TheConstants.{MAX_COMMANDS};
ghost use Rattle.std.specs.List.{list_all};
ghost use Rattle.std.specs.Prelude.{◌≡◌, ◌≤◌, ◌<◌, length, map, unsigned_abs, slice_get, IfSome, IsTrue, Some, None};

use crate::axis::Axis;
use crate::edit_fault::EditFault;
use crate::motion::{MAX_SHIFT, Motion};
use design_model::{Command, Design};

/// Moves each point by (`dx`, `dy`), in tenths of a millimetre. If a point would be out of its range, the
/// design is unchanged, and `Range` has the number of the first such command.
pub fn shift(design: &mut Design, dx: i32, dy: i32) -> Result<(), EditFault>
    requires dx { unsigned_abs dx ≤ MAX_SHIFT }
    requires dy { unsigned_abs dy ≤ MAX_SHIFT }
    ensures { IsShiftResult dx dy design.old result design.new }
{
    let motion = Motion::Shift { dx, dy };
    if let Some(number) = first_outside(design.commands(), motion) {
        return Err(EditFault::Range { number });
    }
    move_points(design, motion);
    Ok(())
}

/// Turns the design about the origin by `quarters` quarter turns, clockwise as seen. No point leaves its
/// range.
pub fn turn(design: &mut Design, quarters: u32)
    requires { quarters ≤ 3 }
    ensures { design.new ≡ turned quarters design.old }
{
    move_points(design, Motion::Turn { quarters });
}

/// Negates the coordinate of each point on an axis. No point leaves its range.
pub fn mirror(design: &mut Design, axis: Axis)
    ensures { design.new ≡ mirrored axis design.old }
{
    move_points(design, Motion::Mirror(axis));
}

/// Returns the number of the first command whose moved point would be out of its range.
fn first_outside(commands: &[Command], motion: Motion) -> Option<u32>
    requires small { IsTrue (is_small_motion motion) }
    requires count { length commands.now ≤ MAX_COMMANDS }
    requires in_range { IsTrue (list_all is_command_in_range commands.now) }
    ensures { result ≡ first_out_of_range (map (with_mapped_point (motion_map motion)) commands.now) }
{
    let mut number: u32 = 0;
    for command in commands {
        number += 1;
        if !moved_command(*command, motion).is_in_range() {
            return Some(number);
        }
    }
    None
}

fn moved_command(command: Command, motion: Motion) -> Command
    requires small { IsTrue (is_small_motion motion) }
    requires in_range { IsTrue (is_command_in_range command) }
    ensures { result ≡ with_mapped_point (motion_map motion) command }
{
    match command {
        Command::Stitch(at) => Command::Stitch(motion.of(at)),
        Command::Jump(at) => Command::Jump(motion.of(at)),
        Command::Trim | Command::Stop => command,
    }
}

/// Moves each point. All moved points are in their ranges.
fn move_points(design: &mut Design, motion: Motion)
    requires small { IsTrue (is_small_motion motion) }
    requires in_range { KeepsLimits design.old
        → first_out_of_range (with_mapped_points (motion_map motion) design.old).commands ≡ None }
    ensures { design.new ≡ with_mapped_points (motion_map motion) design.old }
{
    for index in 0..design.commands().len() {
        move_point(design, index, motion);
    }
}

/// Moves the point of one command, if it has one.
fn move_point(design: &mut Design, index: usize, motion: Motion)
    requires small { IsTrue (is_small_motion motion) }
    requires there { index < length design.old.commands }
    requires in_range { IfSome (slice_get design.old.commands index)
        (λ c. IsTrue (is_command_in_range (with_mapped_point (motion_map motion) c))) }
    ensures { IfSome (slice_get design.old.commands index)
        (λ c. design.new ≡ with_command_at design.old index (with_mapped_point (motion_map motion) c)) }
{
    let command = design.commands()[index];
    if let Some(at) = command.target() {
        design.put_point(index, motion.of(at));
    }
}
