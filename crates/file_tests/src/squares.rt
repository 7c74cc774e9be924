ghost use Rattle.dst_codec.specs.Samples.{square_design};
ghost use Rattle.std.specs.Prelude.{◌≡◌, IfOk};

use design_model::{Command, Design, ModelFault, Point};
use std::alloc::Global;
use test_values::design_of;

/// Returns a closed square of 30 from the origin to the right and downwards, and a trim. The only error is
/// `Memory`.
pub fn square(alloc: Global) -> Result<Design, ModelFault>
    ensures { IfOk result (λ design. design ≡ square_design) }
{
    let commands = [
        Command::Stitch(Point { x: 0, y: 0 }),
        Command::Stitch(Point { x: 30, y: 0 }),
        Command::Stitch(Point { x: 30, y: 30 }),
        Command::Stitch(Point { x: 0, y: 30 }),
        Command::Stitch(Point { x: 0, y: 0 }),
        Command::Trim,
    ];
    design_of(alloc, &commands)
}
