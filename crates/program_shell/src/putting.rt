ghost use Rattle.program_shell.specs.PutSteps.{Gathers};
ghost use Rattle.program_shell.specs.Puts.{ReportsLineWithStatus, Puts};
ghost use Rattle.program_shell.specs.declared.status.Status.TheVariants as status;
ghost use Rattle.std.specs.List.{concat};
ghost use Rattle.std.specs.Prelude.{◌≡◌, ◌++◌, OnErr, OnOk, map};

use crate::status::Status;
use arrayvec::ArrayVec;
use outside_io::{Failed, Sink};

/// The line buffer: room for the longest file name, and the rest of a line about it.
type Line = ArrayVec<u8, 4_608>;

/// Puts one text.
pub fn put_one<E: Sink>(err: &mut E, text: &[u8]) -> Result<(), Failed>
    ensures { Puts text.now (E.view err.old) (E.view err.new) result }
{
    err.put(text)?;
    Ok(())
}

/// Puts the parts of a text, in one put if they fit into the line buffer.
fn put_all<E: Sink>(err: &mut E, parts: &[&[u8]]) -> Result<(), Failed>
    ensures { Puts (concat (map (λ part. part.now) parts.now)) (E.view err.old)
        (E.view err.new) result }
{
    let mut line = ArrayVec::new();
    for part in parts {
        gather(err, &mut line, part)?;
    }
    put_one(err, line.as_slice())
}

/// Appends a part to the line buffer. If it does not fit, puts the buffer, and then the part.
fn gather<E: Sink>(err: &mut E, line: &mut Line, part: &[u8]) -> Result<(), Failed>
    ensures { Gathers (line.old.items ++ part.now) line.new.items (E.view err.old)
        (E.view err.new) result }
{
    match line.try_extend_from_slice(part) {
        Ok(()) => Ok(()),
        Err(_) => put_both(err, line, part),
    }
}

/// Puts the line buffer and then a part, and empties the buffer.
fn put_both<E: Sink>(err: &mut E, line: &mut Line, part: &[u8]) -> Result<(), Failed>
    ensures { Gathers (line.old.items ++ part.now) line.new.items (E.view err.old)
        (E.view err.new) result }
{
    put_one(err, line.as_slice())?;
    line.clear();
    put_one(err, part)
}

/// Puts the parts of a text, and returns the planned status, or `Fault` if a put failed.
pub(crate) fn report_text<E: Sink>(err: &mut E, parts: &[&[u8]], planned: Status) -> Status
    ensures { ReportsLineWithStatus (concat (map (λ part. part.now) parts.now)) planned
        (E.view err.old) (E.view err.new) result }
{
    let put = put_all(err, parts);
    reported(put, planned)
}

/// Returns the planned status, or `Fault` if the put failed.
fn reported(put: Result<(), Failed>, planned: Status) -> Status
    ensures ok { OnOk put (result ≡ planned) }
    ensures err { OnErr put (result ≡ status.Fault) }
{
    match put {
        Ok(()) => planned,
        Err(Failed) => Status::Fault,
    }
}
