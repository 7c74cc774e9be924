ghost use Rattle.design_model.specs.Points.{is_point_within};
ghost use Rattle.pec_codec.specs.Coordinates.{is_short_number, long_bytes_of};
ghost use Rattle.pec_codec.specs.RecordBytes.{long_record, stop_byte_of};
ghost use Rattle.pec_codec.specs.Writing.{pec_encoding, pec_write_limits};
ghost use Rattle.pec_codec.specs.declared.block.TheConstants.{LIMIT};
ghost use Rattle.record_formats.specs.TwosComplement.{to_twos_complement};
ghost use Rattle.std.specs.Prelude.{◌≡◌, ◌≤◌, ◌++◌, OnOk, IsTrue, unsigned_abs};

use crate::block::WRITE_LIMITS;
use crate::pec_records::PecRecords;
use design_model::{Bytes, Memory, Point};
use format_traits::WriteLimits;
use record_formats::{RecordWriter, unsigned};

/// The mark of a jump in the first byte of a coordinate.
const JUMP: u8 = 0x10;

/// The record of a trim: a move of (0, 0) with the mark of a trim.
const TRIM: [u8; 4] = [0xA0, 0x00, 0xA0, 0x00];

impl RecordWriter for PecRecords {
    ghost encoding = { λ _. pec_encoding };

    ghost write_limits = { λ _. pec_write_limits };

    fn write_limits(&self) -> WriteLimits {
        WRITE_LIMITS
    }

    fn put_stitch(&self, out: &mut Bytes, step: Point) -> Result<(), Memory> {
        if is_short(step.x) && is_short(step.y) {
            out.append(&[short_byte(step.x), short_byte(step.y)])?;
        } else {
            put_long(out, 0, step)?;
        }
        Ok(())
    }

    fn put_jump(&self, out: &mut Bytes, step: Point) -> Result<(), Memory> {
        put_long(out, JUMP, step)
    }

    fn put_trim(&self, out: &mut Bytes) -> Result<(), Memory> {
        out.append(&TRIM)
    }

    fn put_stop(&self, out: &mut Bytes, before: u32) -> Result<(), Memory> {
        out.append(&[0xFE, 0xB0, stop_byte(before)])
    }
}

/// Returns the last byte of a stop: 2 and 1 in turn.
fn stop_byte(before: u32) -> u8
    ensures { result ≡ stop_byte_of before }
{
    if before % 2 == 0 { 2 } else { 1 }
}

/// Appends the coordinates of a move in two bytes each.
fn put_long(out: &mut Bytes, marks: u8, step: Point) -> Result<(), Memory>
    requires step { IsTrue (is_point_within LIMIT step) }
    requires marks { marks ≤ 48 }
    ensures { OnOk result (out.new ≡ out.old ++ long_record marks step) }
{
    out.append(&long_bytes(marks, step.x))?;
    out.append(&long_bytes(marks, step.y))?;
    Ok(())
}

/// Returns a number in two bytes, the higher first, with its marks.
fn long_bytes(marks: u8, number: i32) -> [u8; 2]
    requires number { unsigned_abs number ≤ LIMIT }
    requires marks { marks ≤ 48 }
    ensures { result ≡ long_bytes_of marks number }
{
    let low_bits = unsigned(2048, number);
    [
        0x80 + marks + (low_bits / 256) as u8,
        (low_bits % 256) as u8,
    ]
}

fn short_byte(number: i32) -> u8
    ensures { result ≡ to_twos_complement 64 number }
{
    unsigned(64, number) as u8
}

/// Returns whether the writer encodes a number in one byte.
fn is_short(number: i32) -> bool
    ensures { result ≡ is_short_number number }
{
    -63 <= number && number <= 62
}
