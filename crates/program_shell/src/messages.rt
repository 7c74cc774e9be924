ghost use Rattle.program_shell.specs.FinishedRuns.{failure_line};
ghost use Rattle.program_shell.specs.Messages.{cannot_print_line, cannot_read_line, cannot_write_line, message_line, named_line, out_of_memory_line};
ghost use Rattle.program_shell.specs.Puts.{ReportsLineWithStatus};
ghost use Rattle.program_shell.specs.StepOutcomes.{status_of};
ghost use Rattle.program_shell.specs.declared.status.Status.TheVariants as status;

use crate::failure::Failure;
use crate::putting::report_text;
use crate::status::Status;
use outside_io::Sink;

/// Reports a failure of a program with that name and usage text: on one line, or by the usage text.
pub(crate) fn report_failure<E: Sink>(
    err: &mut E,
    program: &[u8],
    usage: &[u8],
    why: Failure<'_>,
) -> Status
    ensures { ReportsLineWithStatus (failure_line program.now usage.now why.entry) (status_of why.entry)
        (E.view err.old) (E.view err.new) result }
{
    match why {
        Failure::BadArguments => report_text(err, &[usage], Status::Usage),
        Failure::MissingInput(name) => report_cannot_read(err, program, name),
        Failure::ReadFailed(name) => report_cannot_read(err, program, name),
        Failure::Refused(text) => report_line(err, program, text.as_slice(), Status::Refused),
        Failure::Memory => report_out_of_memory(err, program),
    }
}

/// Reports an input file that could not be read.
fn report_cannot_read<E: Sink>(err: &mut E, program: &[u8], name: &str) -> Status
    ensures { ReportsLineWithStatus (cannot_read_line program.now name.now) status.Fault (E.view err.old)
        (E.view err.new) result }
{
    report_name(err, program, b"cannot read ", name)
}

/// Reports an output file that could not be written.
pub(crate) fn report_cannot_write<E: Sink>(err: &mut E, program: &[u8], name: &str) -> Status
    ensures { ReportsLineWithStatus (cannot_write_line program.now name.now) status.Fault (E.view err.old)
        (E.view err.new) result }
{
    report_name(err, program, b"cannot write ", name)
}

/// Reports that the report could not be printed.
pub(crate) fn report_cannot_print<E: Sink>(err: &mut E, program: &[u8]) -> Status
    ensures { ReportsLineWithStatus (cannot_print_line program.now) status.Fault (E.view err.old)
        (E.view err.new) result }
{
    report_line(err, program, b"cannot print", Status::Fault)
}

/// Reports out of memory, for the program of that name.
pub(crate) fn report_out_of_memory<E: Sink>(err: &mut E, program: &[u8]) -> Status
    ensures { ReportsLineWithStatus (out_of_memory_line program.now) status.Memory (E.view err.old)
        (E.view err.new) result }
{
    report_line(err, program, b"out of memory", Status::Memory)
}

/// Reports a text on a line of the program.
fn report_line<E: Sink>(err: &mut E, program: &[u8], text: &[u8], planned: Status) -> Status
    ensures { ReportsLineWithStatus (message_line program.now text.now) planned (E.view err.old)
        (E.view err.new) result }
{
    let parts: [&[u8]; 4] = [program, b": ", text, b"\n"];
    report_text(err, &parts, planned)
}

/// Reports the fault of a file, by a text that ends with its name.
fn report_name<E: Sink>(err: &mut E, program: &[u8], text: &[u8], name: &str) -> Status
    ensures { ReportsLineWithStatus (named_line program.now text.now name.now) status.Fault (E.view err.old)
        (E.view err.new) result }
{
    let parts: [&[u8]; 5] = [program, b": ", text, name.as_bytes(), b"\n"];
    report_text(err, &parts, Status::Fault)
}
