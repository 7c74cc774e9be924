ghost use Rattle.design_commands.specs.ReviewOrders.{pass_plan, pass_read, passed_by_places, review_order};
ghost use Rattle.format_traits.specs.Meanings.{Meaning};
ghost use Rattle.outside_io.specs.Files.{IsFileName};
ghost use Rattle.program_shell.specs.FileTexts.{text_about};
ghost use Rattle.program_shell.specs.StepOutcomes.{IsRefusalWith, RunsPlan, RunsPurePlan};
ghost use Rattle.design_commands.specs.PlaceTexts.{design_place_text};
ghost use Rattle.std.specs.Prelude.{◌≡◌, ◌<◌, IfOk, Ok, Some, length, map, slice_get, string_bytes};

use crate::place_texts::describe_place;
use design_model::{Bytes, Memory};
use design_review::{DesignPlace, ReviewLimits, review};
use format_traits::{Format, Loaded};
use outside_io::Store;
use program_inputs::{format_at, load_at};
use program_shell::{Failure, Made, describe_file, only_report, refused};
use std::alloc::Global;

/// Refuses the first place of the design of a file, whose format has that index.
pub(crate) fn pass<'a, S: Store>(
    alloc: Global,
    file: &'a str,
    limits: ReviewLimits,
    formats: &mut [Box<dyn Format>],
    index: usize,
    store: &mut S,
) -> Made<'a>
    requires name { IsFileName file.now }
    requires index { index < length formats.old }
    ensures prepares { (m : Meaning) → slice_get (map (λ f. meaning f) formats.old) index ≡ Some m
        → RunsPlan (pass_plan (review_order file.now limits m)) (S.view store.old) (S.view store.new)
        result }
{
    let loaded = load_at(alloc, formats, index, store, file)?;
    passed(alloc, file, limits, format_at(formats, index), &loaded)
}

fn passed<'a>(
    alloc: Global,
    file: &'a str,
    limits: ReviewLimits,
    format: &Box<dyn Format>,
    loaded: &Loaded,
) -> Made<'a>
    ensures { RunsPurePlan (pass_read (review_order file.now limits (meaning format.now))
        (Ok loaded.now)) result }
{
    let places = review(alloc, limits, &loaded.design)?;
    first_refused(alloc, file, limits, format, places.as_slice())
}

fn first_refused<'a>(
    alloc: Global,
    file: &'a str,
    limits: ReviewLimits,
    format: &Box<dyn Format>,
    places: &[DesignPlace],
) -> Made<'a>
    ensures { RunsPurePlan (passed_by_places (review_order file.now limits (meaning format.now))
        places.now) result }
{
    match places {
        [] => Ok(only_report(alloc, Bytes::new(alloc))),
        [place, ..] => Err(place_failure(alloc, file, *place)),
    }
}

/// Returns the refusal of a place, or out of memory.
fn place_failure<'a>(alloc: Global, file: &str, place: DesignPlace) -> Failure<'a>
    ensures { IsRefusalWith (text_about file.now (design_place_text place)) result }
{
    refused(describe_refused(alloc, file, place))
}

fn describe_refused(alloc: Global, file: &str, place: DesignPlace) -> Result<String, Memory>
    ensures { IfOk result (λ text. string_bytes text ≡ text_about file.now (design_place_text place)) }
{
    let text = describe_place(alloc, place)?;
    describe_file(alloc, file, text.as_str())
}
