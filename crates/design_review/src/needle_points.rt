ghost use Rattle.design_model.specs.Acts.{acts_along};
ghost use Rattle.design_model.specs.Extents.{needle_points_of_acts, needle_points_of_design};
ghost use Rattle.std.specs.Prelude.{◌≡◌, IfOk};

use design_model::{Act, Command, Design, Memory, Points, ThreadState};
use std::alloc::Global;

/// Returns the points of the needles of a design, in order.
pub fn needle_points(alloc: Global, design: &Design) -> Result<Points, Memory>
    ensures { IfOk result (λ points. points ≡ needle_points_of_design design.now) }
{
    needle_points_in(alloc, design.commands())
}

fn needle_points_in(alloc: Global, commands: &[Command]) -> Result<Points, Memory>
    ensures { IfOk result (λ points. points ≡ needle_points_of_acts (acts_along commands.now)) }
{
    let mut points = Points::new(alloc);
    let mut thread = ThreadState::new();
    for command in commands {
        if let Some(Act::Needle { at, .. }) = thread.step(*command) {
            points.push(at)?;
        }
    }
    Ok(points)
}
