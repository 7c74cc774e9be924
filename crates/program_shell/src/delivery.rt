ghost use Rattle.program_shell.specs.FinishedRuns.{Delivers, PrintsReport};
ghost use Rattle.program_shell.specs.Products.{HaveDistinctNames, HaveFileNames, WroteAll, WroteUpTo, output_values, product_value};
ghost use Rattle.program_shell.specs.RunViews.{views_of};
ghost use Rattle.program_shell.specs.StepOutcomes.{IsDeliverable};
ghost use Rattle.std.specs.Prelude.{IfErr, OnOk};

use crate::messages::{report_cannot_print, report_cannot_write};
use crate::product::{Output, Product};
use crate::putting::put_one;
use crate::status::Status;
use outside_io::{Failed, Sink, Store, write_whole};

/// Writes the outputs of a product in order, then prints its report to `out`. Reports a failed write or print
/// on `err`, with the name of the program.
pub(crate) fn deliver<S: Store, O: Sink, E: Sink>(
    program: &[u8],
    product: &Product<'_>,
    store: &mut S,
    out: &mut O,
    err: &mut E,
) -> Status
    requires { IsDeliverable (product_value product.now) }
    ensures { Delivers program.now (product_value product.now)
        (views_of (S.view store.old) (O.view out.old) (E.view err.old))
        (views_of (S.view store.new) (O.view out.new) (E.view err.new)) result }
{
    match write_all(store, product.outputs.as_slice()) {
        Ok(()) => print(program, product.report.as_slice(), out, err),
        Err(name) => report_cannot_write(err, program, name),
    }
}

fn print<O: Sink, E: Sink>(program: &[u8], report: &[u8], out: &mut O, err: &mut E) -> Status
    ensures { PrintsReport program.now report.now (O.view out.old) (O.view out.new)
        (E.view err.old) (E.view err.new) result }
{
    match put_one(out, report) {
        Ok(()) => Status::Done,
        Err(Failed) => report_cannot_print(err, program),
    }
}

/// Writes the outputs in order. Returns the name of the first that could not be written.
fn write_all<'a, S: Store>(store: &mut S, outputs: &[Output<'a>]) -> Result<(), &'a str>
    requires named { HaveFileNames (output_values outputs.now) }
    requires apart { HaveDistinctNames (output_values outputs.now) }
    ensures done { OnOk result (WroteAll (output_values outputs.now) (S.view store.old)
        (S.view store.new)) }
    ensures stops { IfErr result (λ name. WroteUpTo (output_values outputs.now) name.now
        (S.view store.old) (S.view store.new)) }
{
    for output in outputs {
        match write_whole(store, output.name, output.content.as_slice()) {
            Ok(()) => {}
            Err(Failed) => return Err(output.name),
        }
    }
    Ok(())
}
