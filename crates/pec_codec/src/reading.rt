ghost use Rattle.format_traits.specs.Laws.{DecodesTo};
ghost use Rattle.pec_codec.specs.Reading.{pec_block_reads};

use crate::block_reader::block_decoder;
use format_traits::{Loaded, ReadFault, decode_whole};
use std::alloc::Global;

/// Reads the block at an offset of a file. The offsets in errors are those of the file.
pub fn read_block(alloc: Global, bytes: &[u8], at: u64) -> Result<Loaded, ReadFault>
    ensures { DecodesTo (pec_block_reads at bytes.now) result }
{
    if (bytes.len() as u64) < at {
        return Err(ReadFault::Short {
            at: bytes.len() as u64,
        });
    }
    decode_whole(block_decoder(alloc), at, bytes.split_at(at as usize).1)
}
