ghost use Rattle.design_commands.specs.Commands.{comparing, editing, first_format_mistake, format_mistake, if_both_known, looking, listing, mistake_of_design, order_of_design, passing, stitch_design_after, telling};
ghost use Rattle.design_commands.specs.CompareOrders.{compare_order};
ghost use Rattle.command_words.specs.ValidNames.{AreFileNames};
ghost use Rattle.program_texts.specs.MistakenWords.{MistakenWord};
ghost use Rattle.design_commands.specs.EditOrders.{design_edit_order};
ghost use Rattle.design_commands.specs.Mistakes.{mistaken_word};
ghost use Rattle.design_commands.specs.Requests.{HasDesignNames, requested_design};
ghost use Rattle.edited_designs.specs.EditArguments.{changes_of, parsed_changes};
ghost use Rattle.design_commands.specs.ReviewOrders.{review_order};
ghost use Rattle.design_commands.specs.ThreadOrders.{threads_order};
ghost use Rattle.format_traits.specs.Endings.{format_of};
ghost use Rattle.outside_io.specs.Files.{IsFileName};
ghost use Rattle.program_shell.specs.StepOutcomes.{RunsRequest};
ghost use Rattle.std.specs.Prelude.{◌≡◌, Option as OptionValue, IsSome, Some, map, option_map, string_bytes};

use crate::comparing::{Compared, compare};
use crate::editing::edit_file;
use crate::listing::list;
use crate::looking::look;
use crate::mistake::{Misfit, Mistake};
use crate::passing::pass;
use crate::requests::DesignRequest;
use crate::thread_texts::describe_palette;
use crate::usage::{NAME, usage};
use command_words::FileNames;
use design_review::ReviewLimits;
use format_traits::{Format, find};
use outside_io::Store;
use program_shell::{Failure, Made, bytes_of, only_report};
use program_texts::version_text;
use std::alloc::Global;

/// Makes the product of a request. Reads the inputs from the store, and writes nothing.
pub(crate) fn make_requested<'a, S: Store>(
    alloc: Global,
    requested: DesignRequest<'a>,
    formats: &mut [Box<dyn Format>],
    store: &mut S,
) -> Made<'a>
    requires { HasDesignNames requested }
    ensures { (mistake : OptionValue MistakenWord) → RunsRequest (stitch_design_after mistake)
        (order_of_design (map (λ f. meaning f) formats.old) (requested_design requested.entry))
        (S.view store.old) (S.view store.new) result }
{
    match requested {
        DesignRequest::Look { file, limits } => make_look(alloc, file, limits, formats, store),
        DesignRequest::Pass { file, limits } => make_pass(alloc, file, limits, formats, store),
        DesignRequest::Edit { names, edits } => make_edit(alloc, names, edits, formats, store),
        DesignRequest::Compare {
            first,
            second,
            threads,
        } => make_comparison(alloc, first, second, threads, formats, store),
        DesignRequest::Threads { file } => make_list(alloc, file, formats, store),
        DesignRequest::Palette => {
            let report = describe_palette(alloc)?;
            Ok(only_report(alloc, report))
        }
        DesignRequest::Help => {
            let report = bytes_of(alloc, usage())?;
            Ok(only_report(alloc, report))
        }
        DesignRequest::Version => {
            let report = bytes_of(alloc, version_text(NAME).as_slice())?;
            Ok(only_report(alloc, report))
        }
    }
}

fn make_look<'a, S: Store>(
    alloc: Global,
    file: &'a str,
    limits: ReviewLimits,
    formats: &mut [Box<dyn Format>],
    store: &mut S,
) -> Made<'a>
    requires { IsFileName file.now }
    ensures { (mistake : OptionValue MistakenWord) → RunsRequest (stitch_design_after mistake)
        (option_map (λ m. looking (review_order file.now limits m))
        (format_of (map (λ f. meaning f) formats.old) file.now)) (S.view store.old) (S.view store.new) result }
{
    match find(formats, file) {
        Some(index) => look(alloc, file, limits, formats, index, store),
        None => Err(Failure::BadArguments),
    }
}

fn make_pass<'a, S: Store>(
    alloc: Global,
    file: &'a str,
    limits: ReviewLimits,
    formats: &mut [Box<dyn Format>],
    store: &mut S,
) -> Made<'a>
    requires { IsFileName file.now }
    ensures { (mistake : OptionValue MistakenWord) → RunsRequest (stitch_design_after mistake)
        (option_map (λ m. passing (review_order file.now limits m))
        (format_of (map (λ f. meaning f) formats.old) file.now)) (S.view store.old) (S.view store.new) result }
{
    match find(formats, file) {
        Some(index) => pass(alloc, file, limits, formats, index, store),
        None => Err(Failure::BadArguments),
    }
}

fn make_list<'a, S: Store>(
    alloc: Global,
    file: &'a str,
    formats: &mut [Box<dyn Format>],
    store: &mut S,
) -> Made<'a>
    requires { IsFileName file.now }
    ensures { (mistake : OptionValue MistakenWord) → RunsRequest (stitch_design_after mistake)
        (option_map (λ m. listing (threads_order file.now m))
        (format_of (map (λ f. meaning f) formats.old) file.now)) (S.view store.old) (S.view store.new) result }
{
    match find(formats, file) {
        Some(index) => list(alloc, file, formats, index, store),
        None => Err(Failure::BadArguments),
    }
}

fn make_edit<'a, S: Store>(
    alloc: Global,
    names: FileNames<'a>,
    edits: &[String],
    formats: &mut [Box<dyn Format>],
    store: &mut S,
) -> Made<'a>
    requires names { AreFileNames names }
    requires edits { IsSome (parsed_changes (map (λ word. string_bytes word) edits.now)) }
    ensures { (mistake : OptionValue MistakenWord) → RunsRequest (stitch_design_after mistake)
        (if_both_known (λ m n. editing (design_edit_order names.entry.input.now names.entry.output.now
        (changes_of (map (λ word. string_bytes word) edits.now)) m n))
        (format_of (map (λ f. meaning f) formats.old) names.entry.input.now)
        (format_of (map (λ f. meaning f) formats.old) names.entry.output.now))
        (S.view store.old) (S.view store.new) result }
{
    let Some(source) = find(formats, names.input) else {
        return Err(Failure::BadArguments);
    };
    let Some(target) = find(formats, names.output) else {
        return Err(Failure::BadArguments);
    };
    edit_file(alloc, names, edits, formats, source, target, store)
}

fn make_comparison<'a, S: Store>(
    alloc: Global,
    first: &'a str,
    second: &'a str,
    threads: bool,
    formats: &mut [Box<dyn Format>],
    store: &mut S,
) -> Made<'a>
    requires first { IsFileName first.now }
    requires second { IsFileName second.now }
    ensures { (mistake : OptionValue MistakenWord) → RunsRequest (stitch_design_after mistake)
        (if_both_known (λ m n. comparing (compare_order first.now second.now threads m n))
        (format_of (map (λ f. meaning f) formats.old) first.now)
        (format_of (map (λ f. meaning f) formats.old) second.now)) (S.view store.old) (S.view store.new) result }
{
    let Some(first_index) = find(formats, first) else {
        return Err(Failure::BadArguments);
    };
    let Some(second_index) = find(formats, second) else {
        return Err(Failure::BadArguments);
    };
    let files = Compared {
        first,
        first_index,
        second,
        second_index,
        threads,
    };
    compare(alloc, files, formats, store)
}

/// Returns the first file of a request whose format isn't known, if there is one.
pub(crate) fn unknown_format<'a>(
    requested: DesignRequest<'a>,
    formats: &[Box<dyn Format>],
) -> Option<Mistake<'a>>
    ensures { option_map mistaken_word result
        ≡ mistake_of_design (map (λ f. meaning f) formats.now) (requested_design requested.entry) }
{
    match requested {
        DesignRequest::Look { file, .. } => unknown(file, formats),
        DesignRequest::Pass { file, .. } => unknown(file, formats),
        DesignRequest::Threads { file } => unknown(file, formats),
        DesignRequest::Edit { names, .. } => first_unknown(names.input, names.output, formats),
        DesignRequest::Compare { first, second, .. } => first_unknown(first, second, formats),
        DesignRequest::Palette | DesignRequest::Help | DesignRequest::Version => None,
    }
}

fn first_unknown<'a>(
    first: &'a str,
    second: &'a str,
    formats: &[Box<dyn Format>],
) -> Option<Mistake<'a>>
    ensures { option_map mistaken_word result ≡ first_format_mistake first.now second.now
        (format_of (map (λ f. meaning f) formats.now) first.now)
        (format_of (map (λ f. meaning f) formats.now) second.now) }
{
    if let Some(mistake) = unknown(first, formats) {
        return Some(mistake);
    }
    unknown(second, formats)
}

fn unknown<'a>(file: &'a str, formats: &[Box<dyn Format>]) -> Option<Mistake<'a>>
    ensures { option_map mistaken_word result
        ≡ format_mistake file.now (format_of (map (λ f. meaning f) formats.now) file.now) }
{
    match find(formats, file) {
        Some(_) => None,
        None => Some(Mistake {
            word: file,
            why: Misfit::NoFormat,
        }),
    }
}
