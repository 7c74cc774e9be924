ghost use Rattle.program_shell.specs.FinishedRuns.{FinishesRun};
ghost use Rattle.program_shell.specs.RunViews.{views_of};
ghost use Rattle.program_shell.specs.StepOutcomes.{CanFinish};

use crate::delivery::deliver;
use crate::messages::report_failure;
use crate::product::Made;
use crate::status::Status;
use outside_io::{Sink, Store};

/// Finishes a run of the program with that name and usage text. Writes the outputs of a product and prints its
/// report to `out`, or reports a failure on `err`. Returns the exit status.
pub fn finish<S: Store, O: Sink, E: Sink>(
    program: &[u8],
    usage: &[u8],
    made: Made<'_>,
    store: &mut S,
    out: &mut O,
    err: &mut E,
) -> Status
    requires { CanFinish made }
    ensures { FinishesRun program.now usage.now made.entry
        (views_of (S.view store.old) (O.view out.old) (E.view err.old))
        (views_of (S.view store.new) (O.view out.new) (E.view err.new)) result }
{
    match made {
        Ok(product) => deliver(program, &product, store, out, err),
        Err(why) => report_failure(err, program, usage, why),
    }
}
