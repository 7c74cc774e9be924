ghost use Rattle.program_texts.specs.MistakenWords.{MistakenWord};
ghost use Rattle.format_traits.specs.Endings.{format_of};
ghost use Rattle.picture_commands.specs.Mistakes.{mistaken_word};
ghost use Rattle.picture_commands.specs.Orders.{is_hoop_or_cloth, mistake_of_picture, order_of_picture, order_with, order_without_format, picture_mistake, picture_order, picture_program_after};
ghost use Rattle.picture_commands.specs.Words.{AreGoodNames, ArePictureNames, cloth_digits, picture, picture_request, requested_file};
ghost use Rattle.program_shell.specs.ProgramRuns.{RunEnds};
ghost use Rattle.program_shell.specs.RunViews.{views_of};
ghost use Rattle.program_shell.specs.StepOutcomes.{RunsRequest};
ghost use Rattle.std.specs.Prelude.{◌≡◌, Option as OptionValue, map, option_map, string_bytes};

use crate::drawing::draw;
use crate::drawn::draw_lines;
use crate::mistake::{Misfit, Mistake};
use crate::proving::prove;
pub use crate::usage::PROGRAM;
use crate::usage::{usage, usage_text};
use crate::words::{FileNames, PictureRequest, request};
use format_traits::{Format, find};
use line_graph::pieces_are_unique;
use outside_io::{Sink, Store};
use program_shell::{Failure, Made, Status, bytes_of, finish, only_report};
use program_texts::version_text;
use std::alloc::Global;

/// Draws the picture that the arguments request, and returns the exit status. If nothing is refused, writes
/// the picture to the store and prints nothing, or prints the usage text or the version to `out`. Otherwise prints one
/// line, or the usage text, to `err`. Where an argument isn't understood, a line about the first precedes the usage text.
pub fn run<S: Store, O: Sink, E: Sink>(
    alloc: Global,
    words: &[String],
    formats: &mut [Box<dyn Format>],
    store: &mut S,
    out: &mut O,
    err: &mut E,
) -> Status
    ensures { RunEnds
        (picture_program_after (picture_mistake (map (λ f. meaning f) formats.old) (map string_bytes words.now)))
        (picture_order (map (λ f. meaning f) formats.old) (map string_bytes words.now))
        (views_of (S.view store.old) (O.view out.old) (E.view err.old))
        (views_of (S.view store.new) (O.view out.new) (E.view err.new)) result }
{
    pieces_are_unique();
    let usage = usage_text(mistake_in(words, formats));
    let made = make(alloc, words, formats, store);
    finish(PROGRAM, usage.as_slice(), made, store, out, err)
}

/// Makes what the arguments request. Reads its inputs from the store, and writes nothing.
fn make<'a, S: Store>(
    alloc: Global,
    words: &'a [String],
    formats: &mut [Box<dyn Format>],
    store: &mut S,
) -> Made<'a>
    ensures { (mistake : OptionValue MistakenWord) → RunsRequest (picture_program_after mistake)
        (picture_order (map (λ f. meaning f) formats.old) (map string_bytes words.now))
        (S.view store.old) (S.view store.new) result }
{
    match request(words) {
        Ok(requested) => make_requested(alloc, requested, formats, store),
        Err(_) => Err(Failure::BadArguments),
    }
}

fn make_requested<'a, S: Store>(
    alloc: Global,
    requested: PictureRequest<'a>,
    formats: &mut [Box<dyn Format>],
    store: &mut S,
) -> Made<'a>
    requires { AreGoodNames requested }
    ensures { (mistake : OptionValue MistakenWord) → RunsRequest (picture_program_after mistake)
        (order_of_picture (map (λ f. meaning f) formats.old) (picture_request requested.entry))
        (S.view store.old) (S.view store.new) result }
{
    match requested {
        PictureRequest::File(names) => make_picture(alloc, names, formats, store),
        PictureRequest::Proof(names) => prove(alloc, names, store),
        PictureRequest::Help => {
            let report = bytes_of(alloc, usage())?;
            Ok(only_report(alloc, report))
        }
        PictureRequest::Version => {
            let report = bytes_of(alloc, version_text(PROGRAM).as_slice())?;
            Ok(only_report(alloc, report))
        }
    }
}

fn make_picture<'a, S: Store>(
    alloc: Global,
    names: FileNames<'a>,
    formats: &mut [Box<dyn Format>],
    store: &mut S,
) -> Made<'a>
    requires { ArePictureNames names }
    ensures { (mistake : OptionValue MistakenWord) → RunsRequest (picture_program_after mistake)
        (order_with (requested_file names.entry)
        (format_of (map (λ f. meaning f) formats.old) names.entry.input.now))
        (S.view store.old) (S.view store.new) result }
{
    match find(formats, names.input) {
        Some(index) => draw(alloc, names, formats, index, store),
        None => make_drawing(alloc, names, store),
    }
}

/// Makes the picture of a drawing, which has no hoop and is never plain.
fn make_drawing<'a, S: Store>(alloc: Global, names: FileNames<'a>, store: &mut S) -> Made<'a>
    requires { ArePictureNames names }
    ensures { (mistake : OptionValue MistakenWord) → RunsRequest (picture_program_after mistake)
        (order_without_format (requested_file names.entry))
        (S.view store.old) (S.view store.new) result }
{
    if is_for_design(names) {
        return Err(Failure::BadArguments);
    }
    draw_lines(alloc, names, store)
}

/// Returns whether a hoop or a colour is requested, which are for designs alone.
fn is_for_design(names: FileNames<'_>) -> bool
    ensures { result ≡ is_hoop_or_cloth names.entry.hoop (option_map cloth_digits names.entry.cloth) }
{
    match (names.hoop, names.cloth) {
        (None, None) => false,
        (None, Some(_)) | (Some(_), _) => true,
    }
}

/// Returns the first argument that isn't understood, if there is one.
fn mistake_in<'a>(words: &'a [String], formats: &[Box<dyn Format>]) -> Option<Mistake<'a>>
    ensures { option_map mistaken_word result
        ≡ picture_mistake (map (λ f. meaning f) formats.now) (map string_bytes words.now) }
{
    match request(words) {
        Ok(requested) => unknown_format(requested, formats),
        Err(mistake) => mistake,
    }
}

/// Returns a file in a hoop or on a colour whose format isn't known, if the request has one.
fn unknown_format<'a>(
    requested: PictureRequest<'a>,
    formats: &[Box<dyn Format>],
) -> Option<Mistake<'a>>
    ensures { option_map mistaken_word result
        ≡ mistake_of_picture (map (λ f. meaning f) formats.now) (picture_request requested.entry) }
{
    match requested {
        PictureRequest::File(names) => unknown_file(names, formats),
        PictureRequest::Proof(_) | PictureRequest::Help | PictureRequest::Version => None,
    }
}

fn unknown_file<'a>(names: FileNames<'a>, formats: &[Box<dyn Format>]) -> Option<Mistake<'a>>
    ensures { option_map mistaken_word result
        ≡ mistake_of_picture (map (λ f. meaning f) formats.now) (picture (requested_file names.entry)) }
{
    if is_for_design(names) && find(formats, names.input).is_none() {
        Some(Mistake {
            word: names.input,
            why: Misfit::NoFormat,
        })
    } else {
        None
    }
}
