ghost use Rattle.program_texts.specs.MistakenWords.{MistakenWord};
ghost use Rattle.drawing_commands.specs.Commands.{drawing_order_of, stitch_drawing_after};
ghost use Rattle.drawing_commands.specs.Requests.{HasFileNames, order_of_request};
ghost use Rattle.program_shell.specs.StepOutcomes.{RunsRequest};
ghost use Rattle.std.specs.Prelude.{Option as OptionValue, Some, map, string_bytes};

use crate::looking::look;
use crate::requests::{DrawingRequest, drawing_request};
use crate::text_commands::{TextCommand, write_text};
use crate::usage::{NAME, usage};
use outside_io::Store;
use program_shell::{Failure, Made, bytes_of, only_report};
use program_texts::version_text;
use std::alloc::Global;

/// Makes the product that the arguments request. Reads the inputs from the store, and writes nothing.
pub(crate) fn make_product<'a, S: Store>(
    alloc: Global,
    words: &'a [String],
    store: &mut S,
) -> Made<'a>
    ensures { (mistake : OptionValue MistakenWord) → RunsRequest (stitch_drawing_after mistake)
        (drawing_order_of (map (λ word. string_bytes word) words.now))
        (S.view store.old) (S.view store.new) result }
{
    match drawing_request(words) {
        Ok(requested) => make_requested(alloc, requested, store),
        Err(_) => Err(Failure::BadArguments),
    }
}

fn make_requested<'a, S: Store>(
    alloc: Global,
    requested: DrawingRequest<'a>,
    store: &mut S,
) -> Made<'a>
    requires { HasFileNames requested }
    ensures { (mistake : OptionValue MistakenWord) → RunsRequest (stitch_drawing_after mistake)
        (Some (order_of_request requested.entry)) (S.view store.old) (S.view store.new) result }
{
    match requested {
        DrawingRequest::Look { file, gap } => look(alloc, file, gap, store),
        DrawingRequest::Snap {
            gap,
            keeps_copies,
            names,
        } => write_text(alloc, TextCommand::Snap { gap, keeps_copies }, names, store),
        DrawingRequest::Cross {
            keeps_copies,
            names,
        } => write_text(alloc, TextCommand::Cross { keeps_copies }, names, store),
        DrawingRequest::Space { limits, names } => {
            write_text(alloc, TextCommand::Space(limits), names, store)
        }
        DrawingRequest::Free(names) => write_text(alloc, TextCommand::Free, names, store),
        DrawingRequest::Near(names) => write_text(alloc, TextCommand::Near, names, store),
        DrawingRequest::Edit { names, edits } => {
            write_text(alloc, TextCommand::Edit(edits), names, store)
        }
        DrawingRequest::Help => {
            let report = bytes_of(alloc, usage())?;
            Ok(only_report(alloc, report))
        }
        DrawingRequest::Version => {
            let report = bytes_of(alloc, version_text(NAME).as_slice())?;
            Ok(only_report(alloc, report))
        }
    }
}
