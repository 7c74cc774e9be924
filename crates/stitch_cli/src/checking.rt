ghost use Rattle.command_words.specs.ValidNames.{AreRouteNames};
ghost use Rattle.format_traits.specs.Endings.{format_of};
ghost use Rattle.format_traits.specs.Meanings.{Meaning};
ghost use Rattle.program_shell.specs.Plans.{satisfies};
ghost use Rattle.program_shell.specs.StepOutcomes.{RunsPlan, RunsPurePlan, RunsRequest};
ghost use Rattle.route_verdict.specs.Verdicts.{HasShortLists};
ghost use Rattle.std.specs.Prelude.{◌≡◌, ◌<◌, ◌-◌, ◌^◌, All, Ok, Some, length, map, option_map, slice_get};
ghost use Rattle.stitch_cli.specs.Checks.{IsCheckResult, check_design, check_drawing, check_order, check_plan, complete_check};
ghost use Rattle.stitch_cli.specs.Commands.{stitch, checking};

use command_words::RouteNames;
use design_model::Design;
use format_traits::{Format, Loaded, find};
use line_graph::Drawing;
use odd_cuts::Cert;
use outside_io::Store;
use program_inputs::{cert_in, drawing_in, load_at};
use program_shell::{Failure, Made, bytes_of, only_report, refusal};
use route_texts::describe_reason;
use route_verdict::{Verdict, judge};
use std::alloc::Global;

/// Checks whether a design sews a drawing by the walks of a certificate, and the certificate proves them
/// least. Reads the drawing, the design and the certificate, in this order.
pub(crate) fn check<'a, S: Store>(
    alloc: Global,
    names: RouteNames<'a>,
    formats: &mut [Box<dyn Format>],
    store: &mut S,
) -> Made<'a>
    requires { AreRouteNames names }
    ensures answers { RunsRequest stitch (option_map (λ o. checking o)
        (complete_check names.entry.drawing.now names.entry.design.now names.entry.cert.now
        (format_of (map (λ f. meaning f) formats.old) names.entry.design.now)))
        (S.view store.old) (S.view store.new) result }
    ensures same { map (λ f. meaning f) formats.new ≡ map (λ f. meaning f) formats.old }
{
    match find(formats, names.design) {
        Some(index) => check_by(alloc, names, formats, index, store),
        None => Err(Failure::BadArguments),
    }
}

/// Checks by the format of the design, given by its index.
fn check_by<'a, S: Store>(
    alloc: Global,
    names: RouteNames<'a>,
    formats: &mut [Box<dyn Format>],
    index: usize,
    store: &mut S,
) -> Made<'a>
    requires names { AreRouteNames names }
    requires index { index < length formats.old }
    ensures prepares { (m : Meaning) → slice_get (map (λ f. meaning f) formats.old) index ≡ Some m
        → RunsPlan (check_plan (check_order names.entry m)) (S.view store.old) (S.view store.new) result }
    ensures same { map (λ f. meaning f) formats.new ≡ map (λ f. meaning f) formats.old }
{
    let drawing = drawing_in(alloc, store, names.drawing)?;
    check_file(alloc, names, formats, index, &drawing, store)
}

fn check_file<'a, S: Store>(
    alloc: Global,
    names: RouteNames<'a>,
    formats: &mut [Box<dyn Format>],
    index: usize,
    drawing: &Drawing,
    store: &mut S,
) -> Made<'a>
    requires names { AreRouteNames names }
    requires index { index < length formats.old }
    ensures prepares { (m : Meaning) → slice_get (map (λ f. meaning f) formats.old) index ≡ Some m
        → RunsPlan (check_drawing (check_order names.entry m) (Ok drawing.now))
        (S.view store.old) (S.view store.new) result }
    ensures same { map (λ f. meaning f) formats.new ≡ map (λ f. meaning f) formats.old }
{
    let loaded = load_at(alloc, formats, index, store, names.design)?;
    check_loaded(alloc, names, drawing, &loaded, store)
}

fn check_loaded<'a, S: Store>(
    alloc: Global,
    names: RouteNames<'a>,
    drawing: &Drawing,
    loaded: &Loaded,
    store: &mut S,
) -> Made<'a>
    requires names { AreRouteNames names }
    ensures { (m : Meaning) → RunsPlan (check_design (check_order names.entry m) drawing.now
        (Ok loaded.now)) (S.view store.old) (S.view store.new) result }
{
    let pieces = cert_in(alloc, store, names.cert)?;
    let cert = Cert { pieces };
    judged(alloc, drawing, &loaded.design, &cert)
}

/// Returns the product of the verdict, or the failure of the check.
fn judged<'a>(alloc: Global, drawing: &Drawing, design: &Design, cert: &Cert) -> Made<'a>
    requires few { length cert.now.pieces < 2 ^ 32 - 1 }
    requires short { All HasShortLists cert.now.pieces }
    ensures { RunsPurePlan (satisfies (IsCheckResult drawing.now design.now cert.now.pieces)) result }
{
    match judge(alloc, drawing, design, cert)? {
        Verdict::Yes => {
            let report = bytes_of(alloc, b"yes\n")?;
            Ok(only_report(alloc, report))
        }
        Verdict::No(why) => {
            let text = describe_reason(alloc, why)?;
            Err(refusal(text))
        }
    }
}
