ghost use Rattle.design_model.specs.Acts.{acts_along, acts_of, acts_without_numbers};
ghost use Rattle.design_model.specs.Commands.{is_command_in_range};
ghost use Rattle.design_model.specs.declared.design.TheConstants.{MAX_COMMANDS};
ghost use Rattle.std.specs.List.{list_all};
ghost use Rattle.std.specs.Prelude.{◌≡◌, ◌≤◌, [], length, IfOk, IsTrue};
ghost use Rattle.step_splitter.specs.RefitSteps.{RefitsAll};
ghost use Rattle.step_splitter.specs.Refits.{MeetsRefitGoal, Refits, refitted_acts};
ghost use Rattle.step_splitter.specs.declared.refitting.RefitFault.TheVariants as fault;
ghost use Rattle.step_splitter.specs.declared.segment.TheConstants.{MAX_STEP};

use crate::refit_state::RefitState;
use design_model::{ActScanner, Command, Design, Memory};
use std::alloc::Global;

/// The change that a refit makes.
#[derive(Clone, Copy)]
pub enum RefitMode {
    /// A needle act too far from the one before becomes needle acts at the ends of the steps to it. A
    /// needle act with loose thread and a float stay.
    Split,
    /// A float becomes a trim and a needle act that is no float.
    Cut,
}

/// The reason why a design was not refitted.
#[derive(Clone, Copy, Debug, PartialEq)]
pub enum RefitFault {
    /// The design would have too many commands with the act of the command of this number, counted from 1.
    TooMany { number: u32 },
    /// Memory could not be allocated.
    Memory,
}

/// Returns a design with the same label and threads, whose acts are changed in the given mode. The limit is
/// the longest stitch on each axis, in tenths of a millimetre. A float has two commands, a jump and a
/// stitch, and each other act has one. Errors: `TooMany` at the first act with a command too many; or
/// `Memory`.
#[tactic(auto, using(crate::proofs::RefittedActLemmas::refitted_told, crate::proofs::FitLemmas::refitted_fits))]
pub fn refit(
    alloc: Global,
    design: &Design,
    limit: u32,
    mode: RefitMode,
) -> Result<Design, RefitFault>
    requires low { 1 ≤ limit }
    requires high { limit ≤ MAX_STEP }
    ensures value { Refits mode limit design.now result }
    ensures acts { IfOk result (λ refitted.
        acts_without_numbers (acts_of refitted)
        ≡ refitted_acts mode limit (acts_without_numbers (acts_of design.now))) }
    ensures fits { IfOk result (λ refitted. MeetsRefitGoal mode limit
        (acts_without_numbers (acts_of refitted))) }
{
    let mut refitted = design.without_commands(alloc);
    refit_commands(alloc, &mut refitted, design.commands(), limit, mode)?;
    Ok(refitted)
}

fn refit_commands(
    alloc: Global,
    out: &mut Design,
    commands: &[Command],
    limit: u32,
    mode: RefitMode,
) -> Result<(), RefitFault>
    requires low { 1 ≤ limit }
    requires high { limit ≤ MAX_STEP }
    requires count { length commands.now ≤ MAX_COMMANDS }
    requires in_range { IsTrue (list_all is_command_in_range commands.now) }
    requires empty { out.old.commands ≡ [] }
    ensures { RefitsAll mode limit (acts_along commands.now) out.old result out.new }
{
    let mut walk = ActScanner::new();
    let mut progress = RefitState::new();
    for command in commands {
        let next = walk.next(*command);
        if let Err(fault) = progress.put_next(alloc, out, limit, mode, next) {
            return Err(fault);
        }
    }
    Ok(())
}

impl From<Memory> for RefitFault {
    ghost from_gives = { λ _ e. e ≡ fault.Memory };

    fn from(_error: Memory) -> RefitFault {
        RefitFault::Memory
    }
}
