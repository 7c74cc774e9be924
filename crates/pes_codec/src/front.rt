ghost use Rattle.format_traits.specs.Laws.{EncodesTo};
ghost use Rattle.pec_codec.specs.Laws.{KeepsBlockLaws};
ghost use Rattle.pec_codec.specs.Writing.{pec_block_writes};
ghost use Rattle.pes_codec.specs.Writing.{after_front};

use design_model::{Bytes, Design};
use format_traits::WriteFault;
use pec_codec::write_block;
use std::alloc::Global;

/// The offset of the block in a PEC file.
pub const PEC_BLOCK_OFFSET: usize = 8;

/// The number of bytes of a PES file up to the end of the block's offset.
pub const OFFSET_END: usize = 12;

/// Writes a design as a block after the front of a file.
pub fn write_after_front(alloc: Global, front: &[u8], design: &Design) -> Result<Bytes, WriteFault>
    ensures value { EncodesTo (after_front front.now (pec_block_writes design.now)) result }
    ensures laws { KeepsBlockLaws design.now }
{
    let block = write_block(alloc, design)?;
    let mut file = Bytes::new(alloc);
    file.append(front)?;
    file.append(block.as_slice())?;
    Ok(file)
}
