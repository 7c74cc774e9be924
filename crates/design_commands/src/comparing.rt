ghost use Rattle.design_commands.specs.CompareOrders.{compare_first, compare_order, compare_plan, compared, compared_acts, compared_threads};
ghost use Rattle.design_commands.specs.DifferenceTexts.{act_difference_text, thread_difference_text};
ghost use Rattle.format_traits.specs.Meanings.{Meaning};
ghost use Rattle.outside_io.specs.Files.{IsFileName};
ghost use Rattle.program_shell.specs.StepOutcomes.{IsRefusalWith, RunsPlan, RunsPurePlan};
ghost use Rattle.std.specs.Prelude.{◌≡◌, ◌<◌, Ok, Some, length, map, slice_get};

use crate::difference_texts::{describe_acts, describe_block};
use design_model::{Bytes, Design};
use design_review::{ActDifference, ThreadDifference, act_difference, thread_difference};
use format_traits::{Format, Loaded};
use outside_io::Store;
use program_inputs::load_at;
use program_shell::{Failure, Made, only_report, refused};
use std::alloc::Global;

/// The names of two files, the indexes of their formats, and whether their threads are compared.
#[derive(Clone, Copy)]
pub struct Compared<'a> {
    pub first: &'a str,
    pub first_index: usize,
    pub second: &'a str,
    pub second_index: usize,
    pub threads: bool,
}

/// Refuses the first difference of the designs of two files.
pub(crate) fn compare<'a, S: Store>(
    alloc: Global,
    files: Compared<'a>,
    formats: &mut [Box<dyn Format>],
    store: &mut S,
) -> Made<'a>
    requires first { IsFileName files.first.now }
    requires second { IsFileName files.second.now }
    requires first_index { files.first_index < length formats.old }
    requires second_index { files.second_index < length formats.old }
    ensures prepares { (m n : Meaning)
        → slice_get (map (λ f. meaning f) formats.old) files.entry.first_index ≡ Some m
        → slice_get (map (λ f. meaning f) formats.old) files.entry.second_index ≡ Some n
        → RunsPlan (compare_plan (compare_order files.entry.first.now files.entry.second.now files.entry.threads m n))
        (S.view store.old) (S.view store.new) result }
{
    let loaded = load_at(alloc, formats, files.first_index, store, files.first)?;
    compare_with(alloc, files, &loaded, formats, store)
}

/// Refuses the first difference of a design and of that of the second file.
fn compare_with<'a, S: Store>(
    alloc: Global,
    files: Compared<'a>,
    loaded: &Loaded,
    formats: &mut [Box<dyn Format>],
    store: &mut S,
) -> Made<'a>
    requires second { IsFileName files.second.now }
    requires second_index { files.second_index < length formats.old }
    ensures prepares { (m n : Meaning)
        → slice_get (map (λ f. meaning f) formats.old) files.entry.second_index ≡ Some n
        → RunsPlan (compare_first (compare_order files.entry.first.now files.entry.second.now files.entry.threads m n)
        (Ok loaded.now)) (S.view store.old) (S.view store.new) result }
{
    let other = load_at(alloc, formats, files.second_index, store, files.second)?;
    compared_with(alloc, files.threads, &loaded.design, &other.design)
}

fn compared_with<'a>(alloc: Global, threads: bool, first: &Design, second: &Design) -> Made<'a>
    ensures { RunsPurePlan (compared threads first.now second.now) result }
{
    let difference = act_difference(alloc, first, second)?;
    same_or_refused(alloc, threads, first, second, difference)
}

fn same_or_refused<'a>(
    alloc: Global,
    threads: bool,
    first: &Design,
    second: &Design,
    difference: Option<ActDifference>,
) -> Made<'a>
    ensures { RunsPurePlan (compared_acts threads first.now second.now difference) result }
{
    if let Some(difference) = difference {
        return Err(acts_failure(alloc, difference));
    }
    if threads {
        return threads_compared(alloc, thread_difference(first, second));
    }
    Ok(only_report(alloc, Bytes::new(alloc)))
}

fn threads_compared<'a>(alloc: Global, difference: Option<ThreadDifference>) -> Made<'a>
    ensures { RunsPurePlan (compared_threads difference) result }
{
    match difference {
        Some(difference) => Err(threads_failure(alloc, difference)),
        None => Ok(only_report(alloc, Bytes::new(alloc))),
    }
}

fn acts_failure<'a>(alloc: Global, difference: ActDifference) -> Failure<'a>
    ensures { IsRefusalWith (act_difference_text difference) result }
{
    match describe_acts(alloc, difference) {
        Ok(text) => Failure::Refused(text),
        Err(_) => Failure::Memory,
    }
}

fn threads_failure<'a>(alloc: Global, difference: ThreadDifference) -> Failure<'a>
    ensures { IsRefusalWith (thread_difference_text difference) result }
{
    refused(describe_block(alloc, difference))
}
