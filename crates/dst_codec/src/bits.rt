ghost use Rattle.design_model.specs.Points.{is_point_within};
ghost use Rattle.dst_codec.specs.Bits.{kind_of, dst_move_in, rightwards, leftwards, upwards, downwards};
ghost use Rattle.dst_codec.specs.declared.dst.TheConstants.{LIMIT};
ghost use Rattle.std.specs.Prelude.{◌≡◌, ◌+◌, ◌%◌, ◌≤◌, ◌-ℤ◌, ℕ, IsTrue, pos, unsigned_abs};

use crate::reading_tables::{
    X_OF_FIRST, X_OF_SECOND, X_OF_THIRD, Y_OF_FIRST, Y_OF_SECOND, Y_OF_THIRD,
};
use crate::record_kind::RecordKind;
use design_model::Point;

/// Returns the move of a record in tenths of a millimetre; `y` counts downwards.
pub fn decode_move(bytes: [u8; 3]) -> Point
    ensures value { result ≡ dst_move_in bytes }
    ensures within { IsTrue (is_point_within LIMIT result) }
{
    let [first, second, third] = bytes;
    Point {
        x: number(counted_x(first, second, third)),
        y: number(counted_y(first, second, third)),
    }
}

/// Returns the x of a record's move, plus 121.
fn counted_x(first: u8, second: u8, third: u8) -> u8
    ensures value { result + leftwards first second third ≡ 121 + rightwards first second third }
    ensures most { result ≤ 242 }
{
    X_OF_FIRST[first as usize] + X_OF_SECOND[second as usize] + X_OF_THIRD[third as usize]
}

/// Returns the y of a record's move, plus 121.
fn counted_y(first: u8, second: u8, third: u8) -> u8
    ensures value { result + upwards first second third ≡ 121 + downwards first second third }
    ensures most { result ≤ 242 }
{
    Y_OF_FIRST[first as usize] + Y_OF_SECOND[second as usize] + Y_OF_THIRD[third as usize]
}

/// Returns a number that was counted from -121.
fn number(counted: u8) -> i32
    requires { counted ≤ 242 }
    ensures value { (forth back : ℕ) → counted + back ≡ 121 + forth
        → result ≡ pos forth -ℤ pos back }
    ensures small { unsigned_abs result ≤ LIMIT }
{
    counted as i32 - 121
}

/// Returns the kind of a record by its third byte. Nearly all records are stitches, and have no flags.
#[inline(always)]
pub fn record_kind(third: u8) -> RecordKind
    ensures { result ≡ kind_of third }
{
    if third < 64 || third % 4 != 3 {
        return RecordKind::Stitch;
    }
    flagged_kind(third)
}

/// Returns the kind of a record with a flag and with both low bits set.
#[cold]
#[inline(never)]
fn flagged_kind(third: u8) -> RecordKind
    requires flags { 64 ≤ third }
    requires low { third % 4 ≡ 3 }
    ensures { result ≡ kind_of third }
{
    if third / 16 == 15 {
        return RecordKind::End;
    }
    match third / 64 {
        3 => RecordKind::Stop,
        2 => RecordKind::Jump,
        _ => RecordKind::Sequin,
    }
}
