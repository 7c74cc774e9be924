ghost use Rattle.design_model.specs.OutOfMemory.{IsSpecified};
ghost use Rattle.design_model.specs.declared.limits.TheConstants.{MAX_FILE};
ghost use Rattle.outside_io.specs.Causes.{ReadsWholeFile, WritesFile, get_is_out_of_memory, whole_file_result};
ghost use Rattle.outside_io.specs.Counts.{IsFaultless};
ghost use Rattle.outside_io.specs.FileParts.{ReadsNextPart};
ghost use Rattle.outside_io.specs.Files.{IsFileName, WhereVisible};
ghost use Rattle.outside_io.specs.declared.whole_files.GetFault.TheVariants as fault;
ghost use Rattle.std.specs.Prelude.{◌≡◌, ◌<◌, ◌≤◌, length};

use crate::store::{Failed, ReadStop, Store};
use design_model::{Bytes, Memory};
use std::alloc::Global;

/// The number of bytes requested by one read.
pub const READ_SIZE: usize = 16_384;

/// Why a file was not read.
#[derive(Clone, Copy, Debug, PartialEq)]
pub enum GetFault {
    /// No file has the name.
    Missing,
    /// A read failed.
    Failed,
    /// The file is longer than the limit.
    TooLong,
    /// Out of memory.
    Memory,
}

impl From<Memory> for GetFault {
    ghost from_gives = { λ _ e. e ≡ fault.Memory };

    fn from(_error: Memory) -> GetFault {
        GetFault::Memory
    }
}

/// Returns the content of the named file, if it has at most `limit` bytes. The file is read in order: a
/// failed read is reported before a later fault. All files are unchanged.
pub fn read_whole<S: Store>(
    alloc: Global,
    store: &mut S,
    name: &str,
    limit: u64,
) -> Result<Bytes, GetFault>
    requires name { IsFileName name.now }
    requires limit { limit ≤ MAX_FILE }
    ensures reads { ReadsWholeFile name.now limit (S.view store.old) (S.view store.new) result }
    ensures same { (S.view store.new).files ≡ (S.view store.old).files }
    // If no fault is counted, the file determines the result, or the call is out of memory.
    ensures decided { IsFaultless (S.view store.old).faults (S.view store.new).faults →
        WhereVisible (S.view store.old).files
        (λ visible. IsSpecified get_is_out_of_memory (whole_file_result (visible name.now) limit) result) }
{
    let mut bytes = Bytes::new(alloc);
    let mut buffer = [0u8; READ_SIZE];
    loop {
        let count = read_next(store, name, bytes.len() as u64, limit, &mut buffer)?;
        if count == 0 {
            return Ok(bytes);
        }
        bytes.append(&buffer[..count])?;
    }
}

/// Reads the next part of a file, from the offset `at` on, into the buffer, and returns its length; 0 is the
/// end of the file. The first part that exceeds `limit` bytes is reported as `TooLong`.
pub fn read_next<S: Store>(
    store: &mut S,
    name: &str,
    at: u64,
    limit: u64,
    buffer: &mut [u8],
) -> Result<usize, GetFault>
    requires name { IsFileName name.now }
    requires limit { limit ≤ MAX_FILE }
    requires at { at ≤ limit }
    requires room { 0 < length buffer.old }
    ensures reads { ReadsNextPart name.now at limit (S.view store.old) (S.view store.new) buffer.new
        result }
    ensures same { (S.view store.new).files ≡ (S.view store.old).files }
{
    let count = match store.read_at(name, at, buffer) {
        Ok(count) => count,
        Err(ReadStop::Missing) => return Err(GetFault::Missing),
        Err(ReadStop::Failed) => return Err(GetFault::Failed),
    };
    if count as u64 > limit - at {
        return Err(GetFault::TooLong);
    }
    Ok(count)
}

/// Writes an entire file: makes it empty, and appends all the bytes at once.
pub fn write_whole<S: Store>(store: &mut S, name: &str, bytes: &[u8]) -> Result<(), Failed>
    requires { IsFileName name.now }
    ensures { WritesFile name.now bytes.now (S.view store.old) (S.view store.new) result }
{
    store.create(name)?;
    store.append(name, bytes)?;
    Ok(())
}
