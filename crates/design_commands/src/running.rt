ghost use Rattle.design_commands.specs.Commands.{design_mistake, design_order, stitch_design_after};
ghost use Rattle.program_texts.specs.MistakenWords.{MistakenWord};
ghost use Rattle.design_commands.specs.Mistakes.{mistaken_word};
ghost use Rattle.program_shell.specs.ProgramRuns.{RunEnds};
ghost use Rattle.program_shell.specs.RunViews.{views_of};
ghost use Rattle.program_shell.specs.StepOutcomes.{RunsRequest};
ghost use Rattle.std.specs.Prelude.{◌≡◌, Option as OptionValue, map, option_map, string_bytes};

use crate::commands::{make_requested, unknown_format};
use crate::mistake::Mistake;
use crate::requests::request;
pub use crate::usage::NAME;
use crate::usage::usage_text;
use format_traits::Format;
use outside_io::{Sink, Store};
use program_shell::{Failure, Made, Status, finish};
use std::alloc::Global;

/// Runs the command that the arguments request, and returns its exit status. Reads the inputs from the store.
/// If nothing is refused, writes the output there, then prints the report to `out`. Otherwise prints one line, or the usage text, to `err`. Where an
/// argument isn't understood, a line about the first precedes the usage text.
pub fn run<S: Store, O: Sink, E: Sink>(
    alloc: Global,
    words: &[String],
    formats: &mut [Box<dyn Format>],
    store: &mut S,
    out: &mut O,
    err: &mut E,
) -> Status
    ensures { RunEnds
        (stitch_design_after (design_mistake (map (λ f. meaning f) formats.old) (map string_bytes words.now)))
        (design_order (map (λ f. meaning f) formats.old) (map string_bytes words.now))
        (views_of (S.view store.old) (O.view out.old) (E.view err.old))
        (views_of (S.view store.new) (O.view out.new) (E.view err.new)) result }
{
    let usage = usage_text(mistake_in(words, formats));
    let made = make_product(alloc, words, formats, store);
    finish(NAME, usage.as_slice(), made, store, out, err)
}

/// Makes the product that the arguments request. Reads the inputs from the store, and writes nothing.
fn make_product<'a, S: Store>(
    alloc: Global,
    words: &'a [String],
    formats: &mut [Box<dyn Format>],
    store: &mut S,
) -> Made<'a>
    ensures { (mistake : OptionValue MistakenWord) → RunsRequest (stitch_design_after mistake)
        (design_order (map (λ f. meaning f) formats.old) (map string_bytes words.now))
        (S.view store.old) (S.view store.new) result }
{
    match request(words) {
        Ok(requested) => make_requested(alloc, requested, formats, store),
        Err(_) => Err(Failure::BadArguments),
    }
}

/// Returns the first argument that isn't understood, if there is one.
fn mistake_in<'a>(words: &'a [String], formats: &[Box<dyn Format>]) -> Option<Mistake<'a>>
    ensures { option_map mistaken_word result
        ≡ design_mistake (map (λ f. meaning f) formats.now) (map string_bytes words.now) }
{
    match request(words) {
        Ok(requested) => unknown_format(requested, formats),
        Err(mistake) => mistake,
    }
}
