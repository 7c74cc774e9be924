ghost use Rattle.design_model.specs.OutOfMemory.{UnlessOutOfMemory};
ghost use Rattle.program_shell.specs.ExitCodes.{exit_number};
ghost use Rattle.program_shell.specs.Products.{ChangesOnlyFiles};
ghost use Rattle.std.specs.Prelude.{◌≡◌, [], Err, IfErr, IfOk, Ok, map, string_bytes, true};
ghost use Rattle.task_runs.specs.Packing.{packed_reply};
ghost use Rattle.task_runs.specs.TaskReading.{task_of};
ghost use Rattle.task_runs.specs.TaskValues.{file_value, task_is_out_of_memory, task_value};
ghost use Rattle.task_runs.specs.NameLists.{ListsFiles};
ghost use Rattle.task_runs.specs.Outcomes.{IsReturned, IsRunReply, ReturnsOutcome};
ghost use Rattle.task_runs.specs.Replies.{EachChangeIsListed, changed_files};
ghost use Rattle.task_runs.specs.TaskStores.{StoreHasTheFiles, files_now, task_store_view};
ghost use Rattle.task_runs.specs.TaskViews.{LeavesFilesAlone, views_before};

use crate::changed_files::changed_files;
use crate::faults::fault_reply;
use crate::growing_sink::GrowingSink;
use crate::growing_store::GrowingStore;
use crate::packing::pack_reply;
use crate::program::TaskProgram;
use crate::reading::read_task;
use crate::task::{Task, TaskFile};
use crate::task_fault::TaskFault;
use design_model::{Bytes, Items, Memory};
use program_shell::Status;
use std::alloc::Global;

/// Runs a packed task with a program, and returns the length of the packed reply. The reply is in the buffer if it fits
/// there; else the buffer is unchanged, and a call with a longer one returns it.
pub fn run_task<P: TaskProgram>(alloc: Global, request: &[u8], reply: &mut [u8]) -> usize
    ensures { ReturnsOutcome P.ends request.now reply.old reply.new result }
{
    match replied::<P>(alloc, request) {
        Ok(bytes) => deliver(bytes.as_slice(), reply),
        Err(why) => deliver(fault_reply(why), reply),
    }
}

/// The store of some files has them, and no other.
pub fn store_has_the_files()
    ensures { StoreHasTheFiles }
{}

/// Each file that a run left and that wasn't given so is among those of a list of all names.
pub fn each_change_is_listed()
    ensures { EachChangeIsListed }
{}

fn replied<P: TaskProgram>(alloc: Global, request: &[u8]) -> Result<Bytes, TaskFault>
    ensures ok { IfOk result (λ bytes. (task : _) × (reply : _) × (task_of request.now ≡ Ok task)
        × IsRunReply P.ends task reply × (bytes ≡ packed_reply reply)) }
    ensures err { IfErr result (λ why. UnlessOutOfMemory (task_is_out_of_memory why)
        (task_of request.now ≡ Err why)) }
{
    let task = read_task(alloc, request)?;
    let bytes = run_read::<P>(alloc, &task)?;
    Ok(bytes)
}

fn run_read<P: TaskProgram>(alloc: Global, task: &Task<'_>) -> Result<Bytes, Memory>
    ensures { IfOk result (λ bytes. (reply : _) × IsRunReply P.ends (task_value task.now) reply
        × (bytes ≡ packed_reply reply)) }
{
    let mut store = GrowingStore::lending(alloc, task.files.as_slice())?;
    let mut out = GrowingSink::new(alloc);
    let mut err = GrowingSink::new(alloc);
    let status = P::run(alloc, task.words.as_slice(), &mut store, &mut out, &mut err)?;
    let left_alone = leaves_files_alone::<P>(task.words.as_slice(), status);
    let files = files_left(alloc, task, left_alone, &store)?;
    let reply = pack_run(alloc, status, &out, &err, files.as_slice())?;
    Ok(reply)
}

/// Packs the reply of a run that ended with this status, with what the two sinks took and the files that it left.
fn pack_run(
    alloc: Global,
    status: Status,
    out: &GrowingSink,
    err: &GrowingSink,
    files: &[TaskFile<'_>],
) -> Result<Bytes, Memory>
    ensures { IfOk result (λ bytes. bytes ≡ packed_reply (record {
      outcome = exit_number status;
      out = out.now.bytes;
      err = err.now.bytes;
      files = map file_value files.now;
    })) }
{
    let reply = pack_reply(alloc, outcome(status), out.taken(), err.taken(), files)?;
    Ok(reply)
}

/// Returns whether runs with these arguments that end with that status leave all files as they were, as far as it is known.
fn leaves_files_alone<P: TaskProgram>(words: &[String], status: Status) -> bool
    ensures { result ≡ true → LeavesFilesAlone P.ends (map string_bytes words.now) status }
{
    match status {
        Status::Refused => true,
        _ => !P::may_write(words),
    }
}

/// Returns the files that a run left and that weren't given so. Where all were left as they were given, it takes no look at them.
fn files_left<'a>(
    alloc: Global,
    task: &Task<'_>,
    left_alone: bool,
    store: &'a GrowingStore<'_>,
) -> Result<Items<TaskFile<'a>>, Memory>
    requires { left_alone ≡ true → ChangesOnlyFiles [] (views_before (task_value task.now).files).store.files
        (task_store_view store.now).files }
    ensures { IfOk result (λ files. (names : _) × ListsFiles names (files_now store.now)
        × (map file_value files ≡ changed_files (task_value task.now).files (files_now store.now) names)) }
{
    let names = store.names();
    if left_alone {
        return Ok(Items::new(alloc));
    }
    changed_files(alloc, task.files.as_slice(), store, names)
}

/// Returns the outcome of a run that ended with that status.
fn outcome(status: Status) -> usize
    ensures { result ≡ exit_number status }
{
    status as usize
}

/// Copies the bytes into the buffer if they fit, and returns their number.
fn deliver(bytes: &[u8], to: &mut [u8]) -> usize
    ensures { IsReturned bytes.now to.old to.new result }
{
    if bytes.len() <= to.len() {
        to[..bytes.len()].copy_from_slice(bytes);
    }
    bytes.len()
}
