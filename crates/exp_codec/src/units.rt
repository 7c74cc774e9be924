ghost use Rattle.design_model.specs.Points.{is_point_within};
ghost use Rattle.exp_codec.specs.Reading.{exp_layout};
ghost use Rattle.exp_codec.specs.Units.{event_of_control, exp_move_of, units_from};
ghost use Rattle.record_formats.specs.Records.{moves_of_event};
ghost use Rattle.record_formats.specs.declared.record_reader.TheConstants.{MAX_RECORD_MOVE};
ghost use Rattle.std.specs.List.{list_all};
ghost use Rattle.std.specs.Prelude.{◌≡◌, ◌≤◌, neg_ℤ, unsigned_abs, IsTrue, IfSome};

use design_model::{Design, Point};
use format_traits::ReadFault;
use record_formats::{Event, NextRecord, RecordReader, signed};

/// The first byte of a unit of four bytes.
pub const CONTROL: u8 = 0x80;

/// The second byte of a stop.
pub const STOP: u8 = 0x01;

/// The second byte of a stitch in a unit of four bytes.
const LONG_STITCH: u8 = 0x02;

/// The second byte of a jump.
pub const JUMP: u8 = 0x04;

/// The second byte of a trim.
pub const TRIM: u8 = 0x80;

/// The reader and writer of the units of a file.
#[derive(Drop)]
pub struct Units;

impl RecordReader for Units {
    ghost layout = { exp_layout };

    ghost records = { λ _. units_from };

    fn header_length(&self) -> usize {
        0
    }

    fn read_header(&self, _design: &mut Design, _header: &[u8]) {}

    fn restart(&mut self) -> bool {
        true
    }

    fn next(&mut self, at: u64, bytes: &[u8]) -> NextRecord {
        let [first, second, behind @ ..] = bytes else {
            return NextRecord::Incomplete {
                ended: bytes.is_empty(),
            };
        };
        if *first != CONTROL {
            return NextRecord::Record {
                event: Event::Stitch(move_of(*first, *second)),
                size: 2,
            };
        }
        let [x, y, ..] = behind else {
            return NextRecord::Incomplete { ended: false };
        };
        match control_event(*second, move_of(*x, *y)) {
            Some(event) => NextRecord::Record { event, size: 4 },
            None => NextRecord::Refused(ReadFault::Control { at }),
        }
    }
}

/// Returns the event of a unit of four bytes, by its control byte and its move.
fn control_event(control: u8, step: Point) -> Option<Event>
    requires { IsTrue (is_point_within MAX_RECORD_MOVE step) }
    ensures value { result ≡ event_of_control control step }
    ensures small { IfSome result
        (λ event. IsTrue (list_all (λ move. is_point_within MAX_RECORD_MOVE move) (moves_of_event event))) }
{
    match control {
        STOP => Some(Event::StopBy(step)),
        LONG_STITCH => Some(Event::Stitch(step)),
        JUMP => Some(Event::Jump(step)),
        TRIM => Some(Event::Trim),
        _ => None,
    }
}

/// Returns the move of two bytes; `y` counts downwards.
fn move_of(x: u8, y: u8) -> Point
    ensures value { result ≡ exp_move_of x y }
    ensures small { IsTrue (is_point_within MAX_RECORD_MOVE result) }
{
    Point {
        x: signed(128, x as u32),
        y: opposite(signed(128, y as u32)),
    }
}

/// Returns a number with the opposite sign.
pub fn opposite(number: i32) -> i32
    requires { unsigned_abs number ≤ 128 }
    ensures value { result ≡ neg_ℤ number }
    ensures size { unsigned_abs result ≡ unsigned_abs number }
{
    -number
}
