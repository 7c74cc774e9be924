ghost use Rattle.design_model.specs.declared.command.Command.TheVariants.{Jump, Stitch};
ghost use Rattle.std.specs.Prelude.{◌≡◌, pos};

use design_model::{Command, Point};

/// Returns a stitch to a point on the axis that points to the right, in tenths of a millimetre.
pub fn sewn(x: i32) -> Command
    ensures { result ≡ Stitch (record { x = x; y = pos 0 }) }
{
    Command::Stitch(Point { x, y: 0 })
}

/// Returns a jump to a point on the axis that points to the right, in tenths of a millimetre.
pub fn carried(x: i32) -> Command
    ensures { result ≡ Jump (record { x = x; y = pos 0 }) }
{
    Command::Jump(Point { x, y: 0 })
}
