ghost use Rattle.design_commands.specs.ReviewOrders.{design_look_plan, design_look_read, review_order};
ghost use Rattle.format_traits.specs.Meanings.{Meaning};
ghost use Rattle.outside_io.specs.Files.{IsFileName};
ghost use Rattle.program_shell.specs.StepOutcomes.{RunsPlan, RunsPurePlan};
ghost use Rattle.std.specs.Prelude.{◌≡◌, ◌<◌, Ok, Some, length, map, slice_get};

use crate::look_texts::describe_look;
use design_review::ReviewLimits;
use format_traits::{Format, Loaded};
use outside_io::Store;
use program_inputs::{format_at, load_at};
use program_shell::{Made, only_report};
use std::alloc::Global;

/// Makes the report on the design of a file, whose format has that index.
pub(crate) fn look<'a, S: Store>(
    alloc: Global,
    file: &'a str,
    limits: ReviewLimits,
    formats: &mut [Box<dyn Format>],
    index: usize,
    store: &mut S,
) -> Made<'a>
    requires name { IsFileName file.now }
    requires index { index < length formats.old }
    ensures prepares { (m : Meaning) → slice_get (map (λ f. meaning f) formats.old) index ≡ Some m
        → RunsPlan (design_look_plan (review_order file.now limits m)) (S.view store.old) (S.view store.new)
        result }
{
    let loaded = load_at(alloc, formats, index, store, file)?;
    looked(alloc, file, limits, format_at(formats, index), &loaded)
}

fn looked<'a>(
    alloc: Global,
    file: &'a str,
    limits: ReviewLimits,
    format: &Box<dyn Format>,
    loaded: &Loaded,
) -> Made<'a>
    ensures { RunsPurePlan (design_look_read (review_order file.now limits (meaning format.now))
        (Ok loaded.now)) result }
{
    let report = describe_look(alloc, limits, &loaded.design)?;
    Ok(only_report(alloc, report))
}
