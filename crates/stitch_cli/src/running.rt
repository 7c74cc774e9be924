ghost use Rattle.program_shell.specs.ProgramRuns.{RunEnds};
ghost use Rattle.program_shell.specs.RunViews.{views_of};
ghost use Rattle.std.specs.Prelude.{◌≡◌, codes, map, string_bytes};
ghost use Rattle.stitch_cli.specs.Commands.{order_of, stitch};
ghost use Rattle.stitch_cli.specs.Headline.{ChecksRightly, RoutesLeast};

use crate::commands::make_product;
use crate::headline::outcomes_mean_headline;
use format_traits::Format;
use line_graph::pieces_are_unique;
use outside_io::{Sink, Store};
use program_shell::{Status, finish};
use program_texts::usage;
use std::alloc::Global;

/// Runs the command that the arguments request, and returns its exit status. Reads the inputs from the store.
/// If nothing is refused, writes the outputs there, then prints the report to `out`. Otherwise prints one
/// line, or the usage text, to `err`.
///
/// The clauses refer to the order that the arguments request, given these formats. They compare the views of
/// the store and the two sinks before and after the run. After a `route` that is done the files are a least
/// route of the drawing (`routes`); a `check` that is done was of least redwork (`checks`).
pub fn run<S: Store, O: Sink, E: Sink>(
    alloc: Global,
    words: &[String],
    formats: &mut [Box<dyn Format>],
    store: &mut S,
    out: &mut O,
    err: &mut E,
) -> Status
    ensures ends { RunEnds stitch
        (order_of (map (λ f. meaning f) formats.old) (map string_bytes words.now))
        (views_of (S.view store.old) (O.view out.old) (E.view err.old))
        (views_of (S.view store.new) (O.view out.new) (E.view err.new)) result }
    ensures routes { RoutesLeast
        (order_of (map (λ f. meaning f) formats.old) (map string_bytes words.now))
        (views_of (S.view store.old) (O.view out.old) (E.view err.old))
        (views_of (S.view store.new) (O.view out.new) (E.view err.new)) result }
    ensures checks { ChecksRightly
        (order_of (map (λ f. meaning f) formats.old) (map string_bytes words.now))
        (views_of (S.view store.old) (O.view out.old) (E.view err.old)) result }
    ensures formats { map (λ f. meaning f) formats.new ≡ map (λ f. meaning f) formats.old }
{
    pieces_are_unique();
    outcomes_mean_headline();
    let made = make_product(alloc, words, formats, store);
    finish(name(), usage(), made, store, out, err)
}

/// Returns the name of the program, with which each line on the standard error begins.
pub fn name() -> &'static [u8]
    ensures { result.now ≡ codes "stitch" }
{
    b"stitch"
}
