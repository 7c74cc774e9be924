ghost use Rattle.task_runs.specs.GrowingSinks.{growing_view};
ghost use Rattle.program_shell.specs.RunViews.{views_of};
ghost use Rattle.program_shell.specs.declared.status.Status.{Status};
ghost use Rattle.std.specs.Prelude.{◌≡◌, IfOk, false, map, string_bytes};
ghost use Rattle.task_runs.specs.TaskStores.{task_store_view};
ghost use Rattle.task_runs.specs.TaskViews.{LeavesFilesAlone};

use crate::growing_sink::GrowingSink;
use crate::growing_store::GrowingStore;
use program_shell::Status;
use std::alloc::{AllocError, Global};

/// A program, as a task runs it.
pub trait TaskProgram {
    ghost use Rattle.program_shell.specs.RunViews.{Views};
    ghost use Rattle.program_shell.specs.declared.status.Status.TheVariants as status;
    ghost use Rattle.std.specs.Prelude.{◌≡◌, List, ℕ};
    ghost use Rattle.task_runs.specs.Outcomes.{RunClause};

    /// What the program states of its runs.
    ghost ends: { RunClause };

    /// Runs the program with these arguments over a store and two sinks in memory. Fails only where there is no memory
    /// for what it needs before it begins.
    fn run(
        alloc: Global,
        words: &[String],
        store: &mut GrowingStore<'_>,
        out: &mut GrowingSink,
        err: &mut GrowingSink,
    ) -> Result<Status, AllocError>
        ensures { IfOk result (ends (map string_bytes words.now)
            (views_of (task_store_view store.old) (growing_view out.old) (growing_view err.old))
            (views_of (task_store_view store.new) (growing_view out.new) (growing_view err.new))) };

    /// Returns whether runs with these arguments may write files. Others leave all files as they were, whatever their
    /// status. Where it isn't known, they may.
    fn may_write(words: &[String]) -> bool
        ensures { result ≡ false → (s : Status) → LeavesFilesAlone ends (map string_bytes words.now) s };

    /// A refused run leaves the files as they were.
    ghost keeps: { (words : List (List ℕ)) (before after : Views) → ends words before after status.Refused
        → after.store ≡ before.store };
}
