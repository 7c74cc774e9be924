ghost use Rattle.all_formats.specs.StitchFormats.{stitch_formats};
ghost use Rattle.picture_commands.specs.Orders.{picture_mistake, picture_order, picture_program_after};
ghost use Rattle.program_shell.specs.ProgramRuns.{RunEnds};
ghost use Rattle.program_shell.specs.RunViews.{views_of};
ghost use Rattle.std.specs.Prelude.{◌≡◌, IfErr, IfOk, map, string_bytes};

use crate::running::run;
use all_formats::StitchFormats;
use format_traits::Format;
use outside_io::{Sink, Store};
use program_shell::Status;
use std::alloc::{AllocError, Global};

/// Draws the picture that the arguments request, as `run` does, with the five formats of the programs. Returns the
/// exit status, or an error if there is no memory for the formats: then nothing was read, written or printed.
pub fn run_picture<S: Store, O: Sink, E: Sink>(
    alloc: Global,
    words: &[String],
    store: &mut S,
    out: &mut O,
    err: &mut E,
) -> Result<Status, AllocError>
    ensures ok { IfOk result (RunEnds
        (picture_program_after (picture_mistake stitch_formats (map string_bytes words.now)))
        (picture_order stitch_formats (map string_bytes words.now))
        (views_of (S.view store.old) (O.view out.old) (E.view err.old))
        (views_of (S.view store.new) (O.view out.new) (E.view err.new))) }
    ensures err { IfErr result (λ error. views_of (S.view store.new) (O.view out.new) (E.view err.new)
        ≡ views_of (S.view store.old) (O.view out.old) (E.view err.old)) }
{
    let made = StitchFormats::new(alloc)?;
    let mut formats: [Box<dyn Format>; 5] = [made.dst, made.exp, made.pec, made.pes, made.list];
    Ok(run_over(alloc, words, &mut formats, store, out, err))
}

/// Draws the picture with these objects of the five formats.
fn run_over<S: Store, O: Sink, E: Sink>(
    alloc: Global,
    words: &[String],
    formats: &mut [Box<dyn Format>],
    store: &mut S,
    out: &mut O,
    err: &mut E,
) -> Status
    requires { map (λ f. meaning f) formats.old ≡ stitch_formats }
    ensures { RunEnds (picture_program_after (picture_mistake stitch_formats (map string_bytes words.now)))
        (picture_order stitch_formats (map string_bytes words.now))
        (views_of (S.view store.old) (O.view out.old) (E.view err.old))
        (views_of (S.view store.new) (O.view out.new) (E.view err.new)) result }
{
    run(alloc, words, formats, store, out, err)
}
