ghost use Rattle.std.specs.List.{flat_map};
ghost use Rattle.std.specs.Prelude.{◌≡◌, ◌++◌, IfOk, OnOk, map};
ghost use Rattle.task_runs.specs.Packing.{packed_file, packed_files, packed_number, packed_part, packed_reply};
ghost use Rattle.task_runs.specs.TaskValues.{file_value};

use crate::task::TaskFile;
use design_model::{Bytes, Memory};
use std::alloc::Global;

/// Returns a packed reply: the outcome, what was printed and reported, and the files.
pub fn pack_reply(
    alloc: Global,
    outcome: usize,
    out: &[u8],
    err: &[u8],
    files: &[TaskFile<'_>],
) -> Result<Bytes, Memory>
    ensures { IfOk result (λ reply. reply ≡ packed_reply (record {
      outcome = outcome;
      out = out.now;
      err = err.now;
      files = map file_value files.now;
    })) }
{
    let mut reply = Bytes::new(alloc);
    pack_number(&mut reply, outcome)?;
    pack_part(&mut reply, out)?;
    pack_part(&mut reply, err)?;
    pack_files(&mut reply, files)?;
    Ok(reply)
}

/// Appends files: their number, and each of them.
fn pack_files(to: &mut Bytes, files: &[TaskFile<'_>]) -> Result<(), Memory>
    ensures { OnOk result (to.new ≡ to.old ++ packed_files (map file_value files.now)) }
{
    pack_number(to, files.len())?;
    pack_each(to, files)?;
    Ok(())
}

fn pack_each(to: &mut Bytes, files: &[TaskFile<'_>]) -> Result<(), Memory>
    ensures { OnOk result (to.new ≡ to.old ++ flat_map packed_file (map file_value files.now)) }
{
    for file in files {
        pack_file(to, *file)?;
    }
    Ok(())
}

/// Appends a file: its name and its content, each as a part.
fn pack_file(to: &mut Bytes, file: TaskFile<'_>) -> Result<(), Memory>
    ensures { OnOk result (to.new ≡ to.old ++ packed_file (file_value file.entry)) }
{
    pack_part(to, file.name.as_bytes())?;
    pack_part(to, file.content)?;
    Ok(())
}

/// Appends a part: its length, and its bytes.
fn pack_part(to: &mut Bytes, part: &[u8]) -> Result<(), Memory>
    ensures { OnOk result (to.new ≡ to.old ++ packed_part part.now) }
{
    pack_number(to, part.len())?;
    to.append(part)?;
    Ok(())
}

/// Appends a number in four bytes, the low one first.
fn pack_number(to: &mut Bytes, n: usize) -> Result<(), Memory>
    ensures { OnOk result (to.new ≡ to.old ++ packed_number n) }
{
    let bytes = [
        (n % 256) as u8,
        (n / 256 % 256) as u8,
        (n / 65_536 % 256) as u8,
        (n / 16_777_216 % 256) as u8,
    ];
    to.append(&bytes)?;
    Ok(())
}
