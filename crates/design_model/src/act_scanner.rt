ghost use Rattle.design_model.specs.ActPositions.{is_act_in_range};
ghost use Rattle.design_model.specs.ActScanners.{acts_after};
ghost use Rattle.design_model.specs.Acts.{acts_along};
ghost use Rattle.design_model.specs.Commands.{is_command_in_range};
ghost use Rattle.design_model.specs.declared.command.Command.{Command as CommandValue};
ghost use Rattle.std.specs.Prelude.{◌≡◌, ◌∷◌, ◌++◌, ◌+◌, ◌<◌, ◌^◌, List, IsTrue, IfSome, option_to_list};

use crate::act::NumberedAct;
use crate::command::Command;
use crate::thread_state::ThreadState;

/// A scanner over the commands of a design, which computes their acts one by one.
#[derive(Clone, Copy)]
pub struct ActScanner {
    /// The number of commands read.
    pub number: u32,
    /// The state of the thread after them.
    pub thread: ThreadState,
}

impl ActScanner {
    /// Returns the state before the first command.
    pub fn new() -> Self
        ensures first { (commands : List CommandValue) → acts_after result commands
            ≡ acts_along commands }
        ensures number { result.number ≡ 0 }
    {
        ActScanner {
            number: 0,
            thread: ThreadState::new(),
        }
    }

    /// Reads the next command and returns its act, if it has one.
    pub fn next(&mut self, command: Command) -> Option<NumberedAct>
        requires number { self.old.number + 1 < 2 ^ 32 }
        requires in_range { IsTrue (is_command_in_range command) }
        ensures value { (rest : List CommandValue) → acts_after self.old (command ∷ rest)
            ≡ option_to_list result ++ acts_after self.new rest }
        ensures number { self.new.number ≡ self.old.number + 1 }
        ensures in_range { IfSome result (λ a. IsTrue (is_act_in_range a.act)) }
    {
        self.number += 1;
        match self.thread.step(command) {
            Some(act) => Some(NumberedAct {
                number: self.number,
                act,
            }),
            None => None,
        }
    }
}
