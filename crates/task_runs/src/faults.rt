ghost use Rattle.std.specs.Prelude.{◌≡◌};
ghost use Rattle.task_runs.specs.Packing.{packed_reply};
ghost use Rattle.task_runs.specs.Replies.{fault_reply};

use crate::task_fault::TaskFault;

/// Returns the packed reply about a fault. It has the outcome 100, or 101 where there is no memory; its one text is the
/// line about the fault.
pub(crate) fn fault_reply(why: TaskFault) -> &'static [u8]
    ensures { result.now ≡ packed_reply (fault_reply why) }
{
    match why {
        TaskFault::CutOff => b"\x64\0\0\0\0\0\0\0\x0e\0\0\0task: cut off\n\0\0\0\0",
        TaskFault::NotText => b"\x64\0\0\0\0\0\0\0\x10\0\0\0task: not UTF-8\n\0\0\0\0",
        TaskFault::BytesLeft => b"\x64\0\0\0\0\0\0\0\x11\0\0\0task: bytes left\n\0\0\0\0",
        TaskFault::Memory => b"\x65\0\0\0\0\0\0\0\x14\0\0\0task: out of memory\n\0\0\0\0",
    }
}
