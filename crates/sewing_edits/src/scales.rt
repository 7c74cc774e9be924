ghost use Rattle.design_edits.specs.Moves.{first_out_of_range, with_mapped_point};
ghost use Rattle.design_model.specs.Commands.{is_command_in_range};
ghost use Rattle.design_model.specs.Points.{is_point_within};
ghost use Rattle.design_model.specs.declared.design.TheConstants.{MAX_COMMANDS};
ghost use Rattle.design_model.specs.declared.point.TheConstants.{JUMP_LIMIT};
ghost use Rattle.sewing_edits.specs.ScaleSteps.{ScalesCommands};
ghost use Rattle.sewing_edits.specs.Scales.{IsScaleResult, scale_point, scaled_coordinate};
ghost use Rattle.sewing_edits.specs.declared.scales.ScaleFault.TheVariants as fault;
ghost use Rattle.std.specs.List.{list_all};
ghost use Rattle.std.specs.Prelude.{◌≡◌, ◌≤◌, [], length, unsigned_abs, IsTrue};

use design_model::{Command, Design, Memory, Point, signed};
use std::alloc::Global;

/// The greatest scale, in hundredths.
pub const MAX_SCALE: u32 = 1_000;

/// Why a design was not scaled.
#[derive(Clone, Copy, Debug, PartialEq)]
pub enum ScaleFault {
    /// The point of the command of that number, counted from 1, would be out of its range.
    Range { number: u32 },
    /// Out of memory.
    Memory,
}

/// Returns the design with all points by `percent` hundredths, about the origin.
pub fn scale(alloc: Global, design: &Design, percent: u32) -> Result<Design, ScaleFault>
    requires { percent ≤ MAX_SCALE }
    ensures { IsScaleResult percent design.now result }
{
    let mut scaled = design.without_commands(alloc);
    scale_commands(&mut scaled, design.commands(), percent)?;
    Ok(scaled)
}

/// Adds the scaled commands, and reports the number of the first that would be out of its range.
fn scale_commands(out: &mut Design, commands: &[Command], percent: u32) -> Result<(), ScaleFault>
    requires percent { percent ≤ MAX_SCALE }
    requires count { length commands.now ≤ MAX_COMMANDS }
    requires in_range { IsTrue (list_all is_command_in_range commands.now) }
    requires empty { out.old.commands ≡ [] }
    ensures { ScalesCommands percent commands.now out.old result out.new }
{
    let mut number: u32 = 0;
    for command in commands {
        number += 1;
        let scaled = scaled_command(*command, percent);
        if !scaled.is_in_range() {
            return Err(ScaleFault::Range { number });
        }
        out.add(scaled)?;
    }
    Ok(())
}

fn scaled_command(command: Command, percent: u32) -> Command
    requires percent { percent ≤ MAX_SCALE }
    requires in_range { IsTrue (is_command_in_range command) }
    ensures { result ≡ with_mapped_point (scale_point percent) command }
{
    match command {
        Command::Stitch(at) => Command::Stitch(scaled_point(at, percent)),
        Command::Jump(at) => Command::Jump(scaled_point(at, percent)),
        Command::Trim | Command::Stop => command,
    }
}

fn scaled_point(point: Point, percent: u32) -> Point
    requires percent { percent ≤ MAX_SCALE }
    requires point { IsTrue (is_point_within JUMP_LIMIT point) }
    ensures { result ≡ scale_point percent point }
{
    Point {
        x: scaled_coordinate(point.x, percent),
        y: scaled_coordinate(point.y, percent),
    }
}

fn scaled_coordinate(number: i32, percent: u32) -> i32
    requires percent { percent ≤ MAX_SCALE }
    requires number { unsigned_abs number ≤ JUMP_LIMIT }
    ensures { result ≡ scaled_coordinate percent number }
{
    let size = number.unsigned_abs() * percent + 50;
    signed(number < 0, size / 100)
}

impl From<Memory> for ScaleFault {
    ghost from_gives = { λ _ e. e ≡ fault.Memory };

    fn from(_error: Memory) -> ScaleFault {
        ScaleFault::Memory
    }
}
