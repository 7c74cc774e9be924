ghost use Rattle.task_runs.specs.declared.task_fault.TaskFault.TheVariants as fault;
ghost use Rattle.std.specs.Prelude.{◌≡◌};

use design_model::Memory;

/// Why bytes are no task.
#[derive(Clone, Copy, Debug, PartialEq)]
pub enum TaskFault {
    /// The bytes end within a number or a part.
    CutOff,
    /// An argument or the name of a file is no UTF-8.
    NotText,
    /// Bytes are left after the task.
    BytesLeft,
    /// Out of memory.
    Memory,
}

impl From<Memory> for TaskFault {
    ghost from_gives = { λ _ e. e ≡ fault.Memory };

    fn from(_error: Memory) -> TaskFault {
        TaskFault::Memory
    }
}
