ghost use Rattle.command_words.specs.ValidNames.{AreFileNames, AreRouteNames};
ghost use Rattle.outside_io.specs.Files.{IsFileName};
ghost use Rattle.program_shell.specs.StepOutcomes.{RunsRequest};
ghost use Rattle.std.specs.Prelude.{◌≡◌, map, string_bytes};
ghost use Rattle.stitch_cli.specs.Commands.{order_of, stitch};

use crate::checking::check;
use crate::hooping::hoop;
use crate::migrating::migrate;
use crate::rewriting::{convert, edit};
use crate::sampling::sample;
use crate::sewing::sew;
use crate::showing::show;
use crate::tracing::trace_file;
use command_words::{FileNames, Request, RouteNames, request};
use format_traits::Format;
use outside_io::Store;
use program_shell::{Failure, Made};
use route_verdict::Sewing;
use std::alloc::Global;

/// Makes the product that the arguments request. Reads the inputs from the store, and writes nothing.
pub(crate) fn make_product<'a, S: Store>(
    alloc: Global,
    words: &'a [String],
    formats: &mut [Box<dyn Format>],
    store: &mut S,
) -> Made<'a>
    ensures answers { RunsRequest stitch
        (order_of (map (λ f. meaning f) formats.old) (map string_bytes words.now))
        (S.view store.old) (S.view store.new) result }
    ensures same { map (λ f. meaning f) formats.new ≡ map (λ f. meaning f) formats.old }
{
    let Some(requested) = request(words) else {
        return Err(Failure::BadArguments);
    };
    match requested {
        Request::Route { drawing, out, cert } => {
            let names = route_names(drawing, out, cert);
            sew(alloc, Sewing::Route, names, formats, store)
        }
        Request::Double { drawing, out, cert } => {
            let names = route_names(drawing, out, cert);
            sew(alloc, Sewing::Double, names, formats, store)
        }
        Request::Check {
            drawing,
            file,
            cert,
        } => check(alloc, route_names(drawing, file, cert), formats, store),
        Request::Convert {
            input,
            output,
            split,
            cut,
        } => convert(alloc, file_names(input, output), split, cut, formats, store),
        Request::Edit {
            input,
            output,
            edits,
        } => edit(alloc, file_names(input, output), edits, formats, store),
        Request::Show { file } => show(alloc, file, formats, store),
        Request::Hoop { file, w, h } => hoop(alloc, file, w, h, formats, store),
        Request::Sample { n, drawing } => sample(alloc, n, drawing),
        Request::Migrate { input, output } => migrate(alloc, file_names(input, output), store),
        Request::Trace { file, drawing } => {
            trace_file(alloc, file_names(file, drawing), formats, store)
        }
    }
}

/// Returns the names of a drawing, of the design that sews it, and of their certificate.
fn route_names<'a>(drawing: &'a str, design: &'a str, cert: &'a str) -> RouteNames<'a>
    requires drawing { IsFileName drawing.now }
    requires design { IsFileName design.now }
    requires cert { IsFileName cert.now }
    ensures named { AreRouteNames result }
    ensures drawing { result.drawing.now ≡ drawing.now }
    ensures design { result.design.now ≡ design.now }
    ensures cert { result.cert.now ≡ cert.now }
{
    RouteNames {
        drawing,
        design,
        cert,
    }
}

/// Returns the names of a file that is read and of one that is written.
fn file_names<'a>(input: &'a str, output: &'a str) -> FileNames<'a>
    requires input { IsFileName input.now }
    requires output { IsFileName output.now }
    ensures named { AreFileNames result }
    ensures input { result.input.now ≡ input.now }
    ensures output { result.output.now ≡ output.now }
{
    FileNames { input, output }
}
