ghost use Rattle.design_model.specs.Designs.{KeepsLimits};
ghost use Rattle.dst_codec.specs.Format.{dst_meaning};
ghost use Rattle.dst_codec.specs.Header.{FitsFields};
ghost use Rattle.dst_codec.specs.Steps.{IsWritten, header_numbers_of};
ghost use Rattle.dst_codec.specs.Writing.{dst_writes};
ghost use Rattle.format_traits.specs.Laws.{KeepsLaws, EncodesTo};
ghost use Rattle.std.specs.Prelude.{◌≡◌};

use crate::extents::needle_extents;
use crate::header::{HEADER_LENGTH, HeaderNumbers, new_header};
use crate::records::DstWriter;
use crate::theorems::written_reads_again;
use design_model::{Bytes, Design};
use format_traits::{EncoderState, WriteFault, accepted_designs_are_small, put_spaces, with_front};
use record_formats::ActRecords;
use std::alloc::Global;

/// The record of the end.
const END: [u8; 3] = [0, 0, 0xF3];

/// Writes a design as a file. The header is filled last, since its numbers depend on the records.
pub fn write_file(alloc: Global, design: &Design) -> Result<Bytes, WriteFault>
    ensures value { EncodesTo (dst_writes design.now) result }
    ensures laws { KeepsLaws dst_meaning design.now }
{
    written_reads_again();
    let commands = design.commands();
    let mut file = Bytes::new(alloc);
    put_spaces(&mut file, HEADER_LENGTH)?;
    let state = ActRecords(DstWriter).put_acts(&mut file, commands)?;
    file.append(&END)?;
    let numbers = header_numbers(design, &state, file.len());
    let header = new_header(alloc, design.label(), &numbers)?;
    Ok(with_front(file, header.as_slice()))
}

/// Returns the numbers of a design's header, from the encoder's state after its acts and the length of its
/// file.
fn header_numbers(design: &Design, state: &EncoderState, length: usize) -> HeaderNumbers
    requires limits { KeepsLimits design.now }
    requires written { IsWritten design.now state.now length }
    ensures value { result ≡ header_numbers_of design.now }
    ensures fits { FitsFields result }
{
    accepted_designs_are_small();
    HeaderNumbers {
        records: ((length - HEADER_LENGTH) / 3) as u32,
        stops: state.stops,
        extents: needle_extents(design),
        last: state.place,
    }
}
