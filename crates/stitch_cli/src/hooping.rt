ghost use Rattle.format_traits.specs.Endings.{format_of};
ghost use Rattle.outside_io.specs.Files.{IsFileName};
ghost use Rattle.program_shell.specs.StepOutcomes.{RunsPurePlan, RunsRequest};
ghost use Rattle.std.specs.Prelude.{◌≡◌, map, option_map};
ghost use Rattle.stitch_cli.specs.Commands.{stitch, hooping};
ghost use Rattle.stitch_cli.specs.Hoops.{complete_hoop, hoop_fitted};

use format_traits::Format;
use hoop_check::{Fit, fits};
use outside_io::Store;
use program_inputs::load_found;
use program_shell::{Made, bytes_of, only_report, refusal};
use program_texts::describe_too_large;
use std::alloc::Global;

/// Checks whether the design of a file fits a hoop, whose sides are in tenths of a millimetre.
pub(crate) fn hoop<'a, S: Store>(
    alloc: Global,
    file: &'a str,
    width: u32,
    height: u32,
    formats: &mut [Box<dyn Format>],
    store: &mut S,
) -> Made<'a>
    requires { IsFileName file.now }
    ensures answers { RunsRequest stitch (option_map (λ o. hooping o) (complete_hoop file.now width height
        (format_of (map (λ f. meaning f) formats.old) file.now)))
        (S.view store.old) (S.view store.new) result }
    ensures same { map (λ f. meaning f) formats.new ≡ map (λ f. meaning f) formats.old }
{
    let found = load_found(alloc, formats, store, file)?;
    fitted(alloc, fits(&found.loaded.design, width, height))
}

fn fitted<'a>(alloc: Global, fit: Fit) -> Made<'a>
    ensures { RunsPurePlan (hoop_fitted fit) result }
{
    match fit {
        Fit::Upright => {
            let report = bytes_of(alloc, b"fits upright\n")?;
            Ok(only_report(alloc, report))
        }
        Fit::Turned => {
            let report = bytes_of(alloc, b"fits turned\n")?;
            Ok(only_report(alloc, report))
        }
        Fit::No { over_x, over_y } => {
            let text = describe_too_large(alloc, over_x, over_y)?;
            Err(refusal(text))
        }
    }
}
