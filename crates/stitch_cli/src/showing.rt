ghost use Rattle.format_traits.specs.Endings.{format_of};
ghost use Rattle.outside_io.specs.Files.{IsFileName};
ghost use Rattle.program_shell.specs.StepOutcomes.{RunsPurePlan, RunsRequest};
ghost use Rattle.std.specs.Prelude.{◌≡◌, Ok, map, option_map};
ghost use Rattle.stitch_cli.specs.Commands.{stitch, showing};
ghost use Rattle.stitch_cli.specs.Shows.{complete_show, show_order, show_read};

use format_traits::{Format, Loaded, ext_of};
use outside_io::Store;
use program_inputs::{format_at, load_found};
use program_shell::{Made, only_report};
use program_texts::describe_loaded;
use std::alloc::Global;

/// Makes the report on the contents of a file.
pub(crate) fn show<'a, S: Store>(
    alloc: Global,
    file: &'a str,
    formats: &mut [Box<dyn Format>],
    store: &mut S,
) -> Made<'a>
    requires { IsFileName file.now }
    ensures answers { RunsRequest stitch (option_map (λ o. showing o) (complete_show file.now
        (format_of (map (λ f. meaning f) formats.old) file.now)))
        (S.view store.old) (S.view store.new) result }
    ensures same { map (λ f. meaning f) formats.new ≡ map (λ f. meaning f) formats.old }
{
    let found = load_found(alloc, formats, store, file)?;
    shown(alloc, file, format_at(formats, found.index), &found.loaded)
}

fn shown<'a>(alloc: Global, file: &'a str, format: &Box<dyn Format>, loaded: &Loaded) -> Made<'a>
    ensures { RunsPurePlan (show_read (show_order file.now (meaning format.now)) (Ok loaded.now)) result }
{
    let report = describe_loaded(alloc, ext_of(format), loaded)?;
    Ok(only_report(alloc, report))
}
