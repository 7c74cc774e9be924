ghost use Rattle.design_model.specs.Points.{is_point_within};
ghost use Rattle.exp_codec.specs.Writing.{bytes_of_move, exp_encoding, exp_write_limits};
ghost use Rattle.exp_codec.specs.declared.exp.TheConstants.{LIMIT};
ghost use Rattle.std.specs.Prelude.{◌≡◌, IsTrue};

use crate::exp::LIMIT;
use crate::units::{CONTROL, JUMP, STOP, TRIM, Units, opposite};
use design_model::{Bytes, Memory, Point};
use format_traits::WriteLimits;
use record_formats::{RecordWriter, unsigned};

impl RecordWriter for Units {
    ghost encoding = { λ _. exp_encoding };

    ghost write_limits = { λ _. exp_write_limits };

    fn write_limits(&self) -> WriteLimits {
        WriteLimits {
            limit: LIMIT,
            float_hops: None,
            stops: None,
        }
    }

    fn put_stitch(&self, out: &mut Bytes, step: Point) -> Result<(), Memory> {
        out.append(&step_bytes(step))
    }

    fn put_jump(&self, out: &mut Bytes, step: Point) -> Result<(), Memory> {
        let [x, y] = step_bytes(step);
        out.append(&[CONTROL, JUMP, x, y])
    }

    fn put_trim(&self, out: &mut Bytes) -> Result<(), Memory> {
        out.append(&[CONTROL, TRIM, 0x07, 0x00])
    }

    fn put_stop(&self, out: &mut Bytes, _before: u32) -> Result<(), Memory> {
        out.append(&[CONTROL, STOP, 0x00, 0x00])
    }
}

/// Returns the two bytes of a move.
fn step_bytes(step: Point) -> [u8; 2]
    requires { IsTrue (is_point_within LIMIT step) }
    ensures { result ≡ bytes_of_move step }
{
    [
        unsigned(128, step.x) as u8,
        unsigned(128, opposite(step.y)) as u8,
    ]
}
