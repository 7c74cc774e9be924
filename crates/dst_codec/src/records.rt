ghost use Rattle.design_model.specs.Points.{is_point_within};
ghost use Rattle.dst_codec.specs.MoveEncoding.{record_of};
ghost use Rattle.dst_codec.specs.declared.dst.TheConstants.{LIMIT};
ghost use Rattle.std.specs.Prelude.{◌≡◌, ◌≤◌, ◌++◌, IsTrue, OnOk};

use crate::dst::WRITE_LIMITS;
use crate::move_encoding::{JUMP, encode_record};
use design_model::{Bytes, Memory, Point};
use format_traits::WriteLimits;
use record_formats::RecordWriter;

/// The records of a trim: three jumps that lead back to where they began.
const TRIM: [u8; 9] = [0x82, 0x41, 0x83, 0x82, 0x82, 0x83, 0x82, 0x41, 0x83];

/// The record of a stop.
const STOP: [u8; 3] = [0, 0, 0xC3];

/// The writer of the records of a file.
#[derive(Drop)]
pub struct DstWriter;

impl RecordWriter for DstWriter {
    ghost use Rattle.dst_codec.specs.Writing.{dst_encoding, dst_write_limits};

    ghost encoding = { λ _. dst_encoding };

    ghost write_limits = { λ _. dst_write_limits };

    fn write_limits(&self) -> WriteLimits {
        WRITE_LIMITS
    }

    fn put_stitch(&self, out: &mut Bytes, step: Point) -> Result<(), Memory> {
        put_step(out, step, 0)
    }

    fn put_jump(&self, out: &mut Bytes, step: Point) -> Result<(), Memory> {
        put_step(out, step, JUMP)
    }

    fn put_trim(&self, out: &mut Bytes) -> Result<(), Memory> {
        out.append(&TRIM)
    }

    fn put_stop(&self, out: &mut Bytes, _before: u32) -> Result<(), Memory> {
        out.append(&STOP)
    }
}

/// Appends the record of a move with its flags.
fn put_step(out: &mut Bytes, step: Point, flags: u8) -> Result<(), Memory>
    requires step { IsTrue (is_point_within LIMIT step) }
    requires flags { flags ≤ 192 }
    ensures { OnOk result (out.new ≡ out.old ++ record_of flags step) }
{
    out.append(&encode_record(step, flags))?;
    Ok(())
}
