ghost use Rattle.design_model.specs.Designs.{empty_design};
ghost use Rattle.std.specs.Prelude.{◌≡◌, IfOk};

use design_model::{Command, Design, ModelFault};
use std::alloc::Global;

/// Returns a design of the given commands, without a label and without threads. The errors are those of
/// `Design::push`.
pub fn design_of(alloc: Global, commands: &[Command]) -> Result<Design, ModelFault>
    ensures { IfOk result (λ design. design
        ≡ record empty_design { commands = commands.now }) }
{
    let mut design = Design::new(alloc);
    for command in commands {
        design.push(*command)?;
    }
    Ok(design)
}
