ghost use Rattle.format_traits.specs.Laws.{DecodesTo};
ghost use Rattle.pes_codec.specs.Reading.{file_reads};

use crate::file_kind::FileKind;
use format_traits::{Loaded, ReadFault};
use pec_codec::read_block;
use std::alloc::Global;

/// Reads a file's bytes.
pub fn read_file(alloc: Global, kind: FileKind, bytes: &[u8]) -> Result<Loaded, ReadFault>
    ensures { DecodesTo (file_reads kind bytes.now) result }
{
    if !kind.is_known(bytes) {
        return Err(ReadFault::Signature { at: 0 });
    }
    if bytes.len() < kind.length() {
        return Err(ReadFault::Short {
            at: bytes.len() as u64,
        });
    }
    read_block(alloc, bytes, kind.block(bytes) as u64)
}
