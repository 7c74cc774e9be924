ghost use Rattle.design_model.specs.Acts.{acts_from, numbered_act_list};
ghost use Rattle.design_model.specs.Commands.{target_of};
ghost use Rattle.design_model.specs.declared.command.Command.{Command as CommandValue};
ghost use Rattle.std.specs.Prelude.{◌≡◌, ◌∷◌, ◌++◌, ◌+◌, ℕ, List, None, true, false};

use crate::act::Act;
use crate::command::Command;

/// The state that determines the acts of the next commands: whether the thread is loose, and whether a jump
/// followed the last act.
#[derive(Clone, Copy)]
pub struct ThreadState {
    pub loose: bool,
    pub jumped: bool,
}

impl ThreadState {
    /// Returns the state before the first command: a loose thread, and no jump.
    pub fn new() -> Self
        ensures { result ≡ record { loose = true; jumped = false } }
    {
        ThreadState {
            loose: true,
            jumped: false,
        }
    }

    /// Reads the next command and returns its act, if it has one.
    pub fn step(&mut self, command: Command) -> Option<Act>
        ensures { (n : ℕ) (rest : List CommandValue) →
            acts_from n self.old.loose self.old.jumped (command ∷ rest)
            ≡ numbered_act_list n result ++ acts_from (n + 1) self.new.loose self.new.jumped rest }
    {
        match command {
            Command::Stitch(at) => {
                let float = self.jumped && !self.loose;
                self.settle(false);
                Some(Act::Needle { at, float })
            }
            Command::Jump(_) => {
                self.jumped = true;
                None
            }
            Command::Trim | Command::Stop => {
                let mut after = *self;
                let act = after.release(command);
                *self = after;
                act
            }
        }
    }

    /// The act of a trim or a stop, if it is one: a trim of a loose thread isn't.
    // Trims and stops are rare. Outside the loops they need no jump table there.
    /// Returns the act of a trim or a stop; a trim of a loose thread has none.
    #[cold]
    #[inline(never)]
    fn release(&mut self, command: Command) -> Option<Act>
        requires { target_of command ≡ None }
        ensures { (n : ℕ) (rest : List CommandValue) →
            acts_from n self.old.loose self.old.jumped (command ∷ rest)
            ≡ numbered_act_list n result ++ acts_from (n + 1) self.new.loose self.new.jumped rest }
    {
        if let Command::Stop = command {
            self.settle(true);
            return Some(Act::Stop);
        }
        if self.loose {
            return None;
        }
        self.settle(true);
        Some(Act::Trim)
    }

    fn settle(&mut self, loose: bool)
        ensures loose { self.new.loose ≡ loose }
        ensures jumped { self.new.jumped ≡ false }
    {
        self.loose = loose;
        self.jumped = false;
    }
}
