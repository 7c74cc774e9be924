ghost use Rattle.std.specs.Prelude.{◌≡◌, Err, IfErr, IfNone, IfOk, IfSome, None, Ok, Some};
ghost use Rattle.task_runs.specs.TaskReading.{part_in, text_in, packed_file_in};
ghost use Rattle.task_runs.specs.TaskValues.{file_value};

use crate::numbers::split_number;
use crate::task::TaskFile;
use crate::task_fault::TaskFault;

/// Splits the part at the beginning of bytes from those after it.
fn split_part(bytes: &[u8]) -> Option<(&[u8], &[u8])>
    ensures some { IfSome result (λ r. part_in bytes.now
        ≡ Some (record { value = r.0.now; rest = r.1.now })) }
    ensures none { IfNone result (part_in bytes.now ≡ None) }
{
    let (length, rest) = split_number(bytes)?;
    if length as usize <= rest.len() {
        Some(rest.split_at(length as usize))
    } else {
        None
    }
}

/// Splits the text at the beginning of bytes from those after it.
pub(crate) fn split_text(bytes: &[u8]) -> Result<(&str, &[u8]), TaskFault>
    ensures ok { IfOk result (λ r. text_in bytes.now
        ≡ Ok (record { value = r.0.now; rest = r.1.now })) }
    ensures err { IfErr result (λ why. text_in bytes.now ≡ Err why) }
{
    let Some((part, rest)) = split_part(bytes) else {
        return Err(TaskFault::CutOff);
    };
    match str::from_utf8(part) {
        Ok(text) => Ok((text, rest)),
        Err(_) => Err(TaskFault::NotText),
    }
}

/// Splits the file at the beginning of bytes from those after it.
pub(crate) fn split_file(bytes: &[u8]) -> Result<(TaskFile<'_>, &[u8]), TaskFault>
    ensures ok { IfOk result (λ r. packed_file_in bytes.now
        ≡ Ok (record { value = file_value r.0; rest = r.1.now })) }
    ensures err { IfErr result (λ why. packed_file_in bytes.now ≡ Err why) }
{
    let (name, rest) = split_text(bytes)?;
    match split_part(rest) {
        Some((content, rest)) => Ok((TaskFile { name, content }, rest)),
        None => Err(TaskFault::CutOff),
    }
}
