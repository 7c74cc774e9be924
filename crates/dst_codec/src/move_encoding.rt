ghost use Rattle.design_model.specs.Points.{is_point_within};
ghost use Rattle.dst_codec.specs.Bits.{dst_move_in};
ghost use Rattle.dst_codec.specs.MoveEncoding.{biased_number, plus_bit, minus_bit, x_signs, y_signs, record_of, dst_stitch_record};
ghost use Rattle.dst_codec.specs.declared.dst.TheConstants.{LIMIT};
ghost use Rattle.std.specs.Prelude.{◌≡◌, ◌≤◌, ◌+◌, ◌*◌, IsTrue, unsigned_abs};

use crate::dst::LIMIT;
use crate::writing_tables::{
    FIRST_OF_X, FIRST_OF_Y, SECOND_OF_X, SECOND_OF_Y, THIRD_OF_X, THIRD_OF_Y,
};
use design_model::Point;

/// The flags of a jump record.
pub const JUMP: u8 = 0x80;

/// Returns the record of a stitch by a move in tenths of a millimetre; `dy` counts downwards.
pub fn encode_move(dx: i32, dy: i32) -> [u8; 3]
    requires x { unsigned_abs dx ≤ LIMIT }
    requires y { unsigned_abs dy ≤ LIMIT }
    ensures value { result ≡ dst_stitch_record (record { x = dx; y = dy }) }
    ensures back { dst_move_in result ≡ record { x = dx; y = dy } }
{
    encode_record(Point { x: dx, y: dy }, 0)
}

/// Returns the record of a move with its flags.
pub fn encode_record(step: Point, flags: u8) -> [u8; 3]
    requires step { IsTrue (is_point_within LIMIT step) }
    requires flags { flags ≤ 192 }
    ensures { result ≡ record_of flags step }
{
    [first_byte(step), second_byte(step), third_byte(step, flags)]
}

fn first_byte(step: Point) -> u8
    requires { IsTrue (is_point_within LIMIT step) }
    ensures { result ≡ x_signs 1 9 step.x + 16 * y_signs 1 9 step.y }
{
    FIRST_OF_X[biased(step.x)] + FIRST_OF_Y[biased(step.y)]
}

fn second_byte(step: Point) -> u8
    requires { IsTrue (is_point_within LIMIT step) }
    ensures { result ≡ x_signs 3 27 step.x + 16 * y_signs 3 27 step.y }
{
    SECOND_OF_X[biased(step.x)] + SECOND_OF_Y[biased(step.y)]
}

fn third_byte(step: Point, flags: u8) -> u8
    requires step { IsTrue (is_point_within LIMIT step) }
    requires flags { flags ≤ 192 }
    ensures { result ≡ 3 + 4 * plus_bit 81 step.x + 8 * minus_bit 81 step.x
        + 16 * plus_bit 81 step.y + 32 * minus_bit 81 step.y + flags }
{
    THIRD_OF_X[biased(step.x)] + THIRD_OF_Y[biased(step.y)] + flags
}

/// Returns a number from -121 to 121, counted from 0 to 242.
fn biased(number: i32) -> usize
    requires { unsigned_abs number ≤ LIMIT }
    ensures value { result ≡ biased_number number }
    ensures small { result ≤ 242 }
{
    (number + 121) as usize
}
