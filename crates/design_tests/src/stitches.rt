ghost use Rattle.design_model.specs.declared.command.Command.TheVariants.{Stitch};
ghost use Rattle.std.specs.Prelude.{◌≡◌};

use design_model::{Command, Point};

/// Returns a stitch to a point, in tenths of a millimetre.
pub fn stitch(x: i32, y: i32) -> Command
    ensures { result ≡ Stitch (record { x = x; y = y }) }
{
    Command::Stitch(Point { x, y })
}
