ghost use Rattle.design_model.specs.Acts.{acts_of, acts_along};
ghost use Rattle.design_model.specs.declared.design.TheConstants.{MAX_COMMANDS};
ghost use Rattle.std.specs.Prelude.{◌≡◌, ◌≤◌, length, IfOk};

use crate::act::NumberedAct;
use crate::command::Command;
use crate::design::Design;
use crate::lists::Acts;
use crate::memory::Memory;
use crate::thread_state::ThreadState;
use std::alloc::Global;

/// Returns the acts of a design, each with the number of its command.
pub fn acts(alloc: Global, design: &Design) -> Result<Acts, Memory>
    ensures value { IfOk result (λ acts. acts ≡ acts_of design.now) }
    ensures few { IfOk result (λ acts. length acts ≤ MAX_COMMANDS) }
{
    acts_in(alloc, design.commands())
}

fn acts_in(alloc: Global, commands: &[Command]) -> Result<Acts, Memory>
    requires { length commands.now ≤ MAX_COMMANDS }
    ensures value { IfOk result (λ acts. acts ≡ acts_along commands.now) }
    ensures few { IfOk result (λ acts. length acts ≤ MAX_COMMANDS) }
{
    let mut acts = Acts::new(alloc);
    let mut number: u32 = 0;
    let mut thread = ThreadState::new();
    for command in commands {
        number += 1;
        if let Some(act) = thread.step(*command) {
            acts.push(NumberedAct { number, act })?;
        }
    }
    Ok(acts)
}
