ghost use Rattle.command_words.specs.ValidNames.{AreRouteNames};
ghost use Rattle.format_traits.specs.Endings.{format_of};
ghost use Rattle.format_traits.specs.PlainDesigns.{IsPlain};
ghost use Rattle.format_traits.specs.declared.format_object.TheConstants.{MIN_LIMIT};
ghost use Rattle.line_graph.specs.Runs.{AreWritable, runs_of, sewn_design};
ghost use Rattle.odd_cuts.specs.Certificates.{walks_of};
ghost use Rattle.program_shell.specs.Products.{product_value, two_file_product};
ghost use Rattle.program_shell.specs.StepOutcomes.{RunsPlan, RunsPurePlan, RunsRequest};
ghost use Rattle.std.specs.Bool.{OnTrue};
ghost use Rattle.std.specs.Prelude.{◌≡◌, ◌≢◌, ◌≤◌, IfOk, map, option_map};
ghost use Rattle.stitch_cli.specs.Commands.{stitch, sewing};
ghost use Rattle.stitch_cli.specs.SewingWays.{IsSewnBy};
ghost use Rattle.stitch_cli.specs.Sewings.{IsSewnProduct, IsSewnFile, complete_sewing, names_differ, sewing_drawing, sewing_order, sewing_plan};

use certificate_text::print_cert;
use command_words::RouteNames;
use design_model::{Bytes, Memory};
use format_traits::{Format, WriteFault, encode_by, ext_of, find, limit_of};
use line_graph::{Drawing, pieces, runs_are_sewn};
use outside_io::Store;
use program_inputs::{drawing_in, format_at};
use program_shell::{Failure, Made, Output, Product, text_bytes, two_outputs};
use program_texts::describe_step;
use route_core::{Routed, sew_pieces};
use route_texts::describe_sewing;
use route_verdict::Sewing;
use std::alloc::Global;

/// Sews a drawing that way: makes its certificate, the file of the design that sews it, and the report.
pub(crate) fn sew<'a, S: Store>(
    alloc: Global,
    way: Sewing,
    names: RouteNames<'a>,
    formats: &[Box<dyn Format>],
    store: &mut S,
) -> Made<'a>
    requires { AreRouteNames names }
    ensures { RunsRequest stitch (option_map (λ o. sewing way o)
        (complete_sewing names.entry.drawing.now names.entry.design.now names.entry.cert.now
        (format_of (map (λ f. meaning f) formats.now) names.entry.design.now)))
        (S.view store.old) (S.view store.new) result }
{
    if !are_apart(names) {
        return Err(Failure::BadArguments);
    }
    match find(formats, names.design) {
        Some(index) => sew_by(alloc, way, names, format_at(formats, index), store),
        None => Err(Failure::BadArguments),
    }
}

fn are_apart(names: RouteNames<'_>) -> bool
    ensures value { result ≡ names_differ names.entry.drawing.now names.entry.design.now
        names.entry.cert.now }
    ensures written { OnTrue result (names.entry.cert.now ≢ names.entry.design.now) }
{
    names.drawing != names.design && names.drawing != names.cert && names.design != names.cert
}

/// Reads the drawing, and sews it by a format.
fn sew_by<'a, S: Store>(
    alloc: Global,
    way: Sewing,
    names: RouteNames<'a>,
    format: &Box<dyn Format>,
    store: &mut S,
) -> Made<'a>
    requires names { AreRouteNames names }
    requires apart { names.cert.now ≢ names.design.now }
    ensures { RunsPlan (sewing_plan (IsSewnBy way) (sewing_order names.entry (meaning format.now)))
        (S.view store.old) (S.view store.new) result }
{
    let drawing = drawing_in(alloc, store, names.drawing)?;
    sew_drawing(alloc, way, names, format, &drawing)
}

fn sew_drawing<'a>(
    alloc: Global,
    way: Sewing,
    names: RouteNames<'a>,
    format: &Box<dyn Format>,
    drawing: &Drawing,
) -> Made<'a>
    requires names { AreRouteNames names }
    requires apart { names.cert.now ≢ names.design.now }
    ensures { RunsPurePlan (sewing_drawing (IsSewnBy way) (sewing_order names.entry (meaning format.now))
        drawing.now) result }
{
    let step = drawing.step();
    let limit = limit_of(format);
    if limit < step {
        let text = describe_step(alloc, names.drawing, step, limit, ext_of(format))?;
        return Err(Failure::Refused(text_bytes(text)));
    }
    let product = sewn(alloc, way, names, format, drawing)?;
    Ok(product)
}

/// Returns the product of a drawing whose step is within the limit of the format.
fn sewn<'a>(
    alloc: Global,
    way: Sewing,
    names: RouteNames<'a>,
    format: &Box<dyn Format>,
    drawing: &Drawing,
) -> Result<Product<'a>, Memory>
    requires limit { MIN_LIMIT ≤ (meaning format.now).limit }
    requires step { drawing.now.step ≤ (meaning format.now).limit }
    ensures { IfOk result (λ product. IsSewnProduct (IsSewnBy way)
        (sewing_order names.entry (meaning format.now)) drawing.now
        (product_value product)) }
{
    let pieces = pieces(alloc, drawing)?;
    let routed = sew_pieces(alloc, way, drawing, pieces.as_slice())?;
    let design_file = encoded(alloc, format, drawing, &routed)?;
    let cert_text = print_cert(alloc, &routed.cert)?;
    let report = describe_sewing(alloc, way, pieces.as_slice(), routed.cert.pieces.as_slice())?;
    let product = sewn_product(alloc, names, cert_text, design_file, report)?;
    Ok(product)
}

/// Returns the product of a certificate, which is written first, a design file and a report.
fn sewn_product<'a>(
    alloc: Global,
    names: RouteNames<'a>,
    cert_text: Bytes,
    design_file: Bytes,
    report: Bytes,
) -> Result<Product<'a>, Memory>
    ensures { IfOk result (λ product. product_value product ≡ two_file_product (record {
      name = names.entry.cert.now;
      content = cert_text;
    })
        (record { name = names.entry.design.now; content = design_file }) report) }
{
    let first = Output {
        name: names.cert,
        content: cert_text,
    };
    let second = Output {
        name: names.design,
        content: design_file,
    };
    let product = two_outputs(alloc, first, second, report)?;
    Ok(product)
}

/// Returns the file of a design that sews the walks of a certificate.
fn encoded(
    alloc: Global,
    format: &Box<dyn Format>,
    drawing: &Drawing,
    routed: &Routed,
) -> Result<Bytes, Memory>
    requires plain { IsPlain (meaning format.now).limit routed.now.design }
    requires sewn { routed.now.design ≡ sewn_design drawing.now (walks_of routed.now.cert.pieces) }
    requires writable { AreWritable drawing.now.step
        (runs_of drawing.now (walks_of routed.now.cert.pieces)) }
    ensures { IfOk result (IsSewnFile (meaning format.now) drawing.now
        (walks_of routed.now.cert.pieces)) }
{
    runs_are_sewn();
    match encode_by(alloc, format, &routed.design) {
        Ok(bytes) => Ok(bytes),
        Err(WriteFault::Memory) => Err(Memory),
        Err(
            WriteFault::StitchTooLong { number: _ }
            | WriteFault::FloatTooLong { number: _ }
            | WriteFault::TooManyStops { number: _ }
            | WriteFault::TooLong { number: _ },
        ) => unreachable!(),
    }
}
