ghost use Rattle.drawing_commands.specs.Commands.{drawing_mistake, drawing_order_of, stitch_drawing_after};
ghost use Rattle.drawing_commands.specs.Mistakes.{mistaken_word};
ghost use Rattle.program_shell.specs.ProgramRuns.{RunEnds};
ghost use Rattle.program_shell.specs.RunViews.{views_of};
ghost use Rattle.std.specs.Prelude.{◌≡◌, map, option_map, string_bytes};

use crate::commands::make_product;
use crate::mistake::Mistake;
use crate::requests::drawing_request;
pub use crate::usage::NAME;
use crate::usage::usage_text;
use outside_io::{Sink, Store};
use program_shell::{Status, finish};
use std::alloc::Global;

/// Runs the command that the arguments request, and returns its exit status. Reads the inputs from the store.
/// If nothing is refused, writes the outputs there, then prints the report to `out`. Otherwise prints one
/// line, or the usage text, to `err`. Where an argument isn't understood, a line about the first precedes the usage text.
pub fn run<S: Store, O: Sink, E: Sink>(
    alloc: Global,
    words: &[String],
    store: &mut S,
    out: &mut O,
    err: &mut E,
) -> Status
    ensures { RunEnds (stitch_drawing_after (drawing_mistake (map (λ word. string_bytes word) words.now)))
        (drawing_order_of (map (λ word. string_bytes word) words.now))
        (views_of (S.view store.old) (O.view out.old) (E.view err.old))
        (views_of (S.view store.new) (O.view out.new) (E.view err.new)) result }
{
    let usage = usage_text(mistake_in(words));
    let made = make_product(alloc, words, store);
    finish(NAME, usage.as_slice(), made, store, out, err)
}

/// Returns the first argument that isn't understood, if there is one.
fn mistake_in(words: &[String]) -> Option<Mistake<'_>>
    ensures { option_map mistaken_word result ≡ drawing_mistake (map (λ word. string_bytes word) words.now) }
{
    match drawing_request(words) {
        Ok(_) => None,
        Err(mistake) => mistake,
    }
}
