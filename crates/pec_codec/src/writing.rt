ghost use Rattle.design_model.specs.declared.design.TheConstants.{MAX_COMMANDS};
ghost use Rattle.format_traits.specs.Laws.{EncodesTo};
ghost use Rattle.pec_codec.specs.Header.{pec_header_of};
ghost use Rattle.pec_codec.specs.Laws.{KeepsBlockLaws};
ghost use Rattle.pec_codec.specs.Steps.{AppendsBody};
ghost use Rattle.pec_codec.specs.Writing.{pec_body_of, thumbnails_of, pec_block_writes};
ghost use Rattle.pec_codec.specs.declared.block.TheConstants.{HEADER_LENGTH, LABELS_LENGTH, MAX_STOPS};
ghost use Rattle.std.specs.Prelude.{◌≡◌, ◌<◌, ◌≤◌, ◌+◌, ◌-◌, ◌*◌, ◌^◌, ◌++◌, length, drop, OnOk, IfOk};

use crate::block::{HEADER_LENGTH, LABELS_LENGTH, THUMBNAIL_LENGTH};
use crate::header::new_header;
use crate::pec_records::PecRecords;
use crate::theorems::{blocks_read_back, designs_keep_limits};
use design_model::{Bytes, Design, Memory};
use format_traits::{WriteFault, accepted_designs_are_small, put_spaces, with_front};
use record_formats::ActRecords;
use std::alloc::Global;

/// The end of the records.
const END: u8 = 0xFF;

/// A blank thumbnail.
const BLANK: [u8; THUMBNAIL_LENGTH] = [0; THUMBNAIL_LENGTH];

/// Writes a design as a block. The acts are judged in order, and the first refusal is reported; at one act
/// the refusals are tested in the order of `WriteFault`. A written block reads back at any offset of a file.
pub fn write_block(alloc: Global, design: &Design) -> Result<Bytes, WriteFault>
    ensures value { EncodesTo (pec_block_writes design.now) result }
    ensures laws { KeepsBlockLaws design.now }
{
    blocks_read_back();
    designs_keep_limits(design);
    new_block(alloc, design)
}

/// Returns the block of a design. The header is filled last, since it contains the length of the records.
fn new_block(alloc: Global, design: &Design) -> Result<Bytes, WriteFault>
    ensures { EncodesTo (pec_block_writes design.now) result }
{
    let mut body = Bytes::new(alloc);
    put_spaces(&mut body, HEADER_LENGTH)?;
    let stops = put_body(&mut body, design)?;
    let mut block = with_header(alloc, body, design, stops)?;
    put_thumbnails(&mut block, stops)?;
    Ok(block)
}

/// Appends the records of a design and their end, and returns the number of its stops.
fn put_body(out: &mut Bytes, design: &Design) -> Result<u32, WriteFault>
    ensures value { AppendsBody design.now out.old result out.new }
    ensures stops { IfOk result (λ stops. stops ≤ MAX_STOPS) }
    ensures short { OnOk result (length (pec_body_of design.now) ≤ 4 * MAX_COMMANDS + 1) }
{
    accepted_designs_are_small();
    let commands = design.commands();
    let state = ActRecords(PecRecords).put_acts(out, commands)?;
    out.push(END)?;
    Ok(state.stops)
}

/// Returns the block of a design with its header written over the first bytes.
fn with_header(alloc: Global, block: Bytes, design: &Design, stops: u32) -> Result<Bytes, Memory>
    requires stops { stops ≤ MAX_STOPS }
    requires room { HEADER_LENGTH ≤ length block }
    requires short { length block < 2 ^ 24 }
    ensures { IfOk result (λ headed. headed
        ≡ pec_header_of design.now stops (length block - LABELS_LENGTH) ++ drop HEADER_LENGTH block) }
{
    let distance = (block.len() - LABELS_LENGTH) as u32;
    let header = new_header(alloc, design, stops, distance)?;
    Ok(with_front(block, header.as_slice()))
}

/// Appends the thumbnails of a design with `stops` stops.
fn put_thumbnails(out: &mut Bytes, stops: u32) -> Result<(), Memory>
    requires { stops ≤ MAX_STOPS }
    ensures { OnOk result (out.new ≡ out.old ++ thumbnails_of stops) }
{
    for _ in 0..stops + 2 {
        out.append(&BLANK)?;
    }
    Ok(())
}
