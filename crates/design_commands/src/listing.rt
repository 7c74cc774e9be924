ghost use Rattle.design_commands.specs.ThreadOrders.{threads_order, threads_plan, threads_read};
ghost use Rattle.format_traits.specs.Meanings.{Meaning};
ghost use Rattle.outside_io.specs.Files.{IsFileName};
ghost use Rattle.program_shell.specs.StepOutcomes.{RunsPlan, RunsPurePlan};
ghost use Rattle.std.specs.Prelude.{◌≡◌, ◌<◌, Ok, Some, length, map, slice_get};

use crate::thread_texts::describe_threads;
use format_traits::{Format, Loaded};
use outside_io::Store;
use program_inputs::{format_at, load_at};
use program_shell::{Made, only_report};
use std::alloc::Global;

/// Lists the threads of the design of a file, whose format has that index.
pub(crate) fn list<'a, S: Store>(
    alloc: Global,
    file: &'a str,
    formats: &mut [Box<dyn Format>],
    index: usize,
    store: &mut S,
) -> Made<'a>
    requires name { IsFileName file.now }
    requires index { index < length formats.old }
    ensures prepares { (m : Meaning) → slice_get (map (λ f. meaning f) formats.old) index ≡ Some m
        → RunsPlan (threads_plan (threads_order file.now m)) (S.view store.old) (S.view store.new) result }
{
    let loaded = load_at(alloc, formats, index, store, file)?;
    listed(alloc, file, format_at(formats, index), &loaded)
}

fn listed<'a>(alloc: Global, file: &'a str, format: &Box<dyn Format>, loaded: &Loaded) -> Made<'a>
    ensures { RunsPurePlan (threads_read (threads_order file.now (meaning format.now))
        (Ok loaded.now)) result }
{
    let report = describe_threads(alloc, &loaded.design)?;
    Ok(only_report(alloc, report))
}
