ghost use Rattle.design_model.specs.Points.{is_point_within};
ghost use Rattle.pec_codec.specs.Coordinates.{leading_coordinate};
ghost use Rattle.pec_codec.specs.Records.{next_record_in, stop_record_in, move_record_in, event_of_pair};
ghost use Rattle.pec_codec.specs.Steps.{RecordFitsBytes};
ghost use Rattle.record_formats.specs.Records.{moves_of_event};
ghost use Rattle.record_formats.specs.declared.record_reader.TheConstants.{MAX_RECORD_MOVE};
ghost use Rattle.std.specs.List.{list_all};
ghost use Rattle.std.specs.Prelude.{◌≡◌, ◌≤◌, IsTrue, unsigned_abs};

use crate::coordinate::{Coordinate, coordinate_in};
use design_model::Point;
use record_formats::{Event, NextRecord};

/// Decodes the record at the beginning of bytes.
pub fn decode_record(bytes: &[u8]) -> NextRecord
    ensures value { result ≡ next_record_in bytes.now }
    ensures fits { RecordFitsBytes bytes.now result }
{
    match bytes {
        [0xFF, ..] => NextRecord::End,
        [0xFE, 0xB0, ..] => decode_stop(bytes),
        _ => decode_move_record(bytes),
    }
}

fn decode_stop(bytes: &[u8]) -> NextRecord
    ensures value { result ≡ stop_record_in bytes.now }
    ensures fits { RecordFitsBytes bytes.now result }
{
    if bytes.len() < 3 {
        return NextRecord::Incomplete { ended: false };
    }
    NextRecord::Record {
        event: Event::Stop,
        size: 3,
    }
}

fn decode_move_record(bytes: &[u8]) -> NextRecord
    ensures value { result ≡ move_record_in (leading_coordinate bytes.now) bytes.now }
    ensures fits { RecordFitsBytes bytes.now result }
{
    let Some(x) = coordinate_in(bytes) else {
        return NextRecord::Incomplete { ended: false };
    };
    let Some(y) = coordinate_in(&bytes[x.size..]) else {
        return NextRecord::Incomplete { ended: false };
    };
    NextRecord::Record {
        event: event_of(x, y),
        size: x.size + y.size,
    }
}

fn event_of(x: Coordinate, y: Coordinate) -> Event
    requires x { unsigned_abs x.number ≤ MAX_RECORD_MOVE }
    requires y { unsigned_abs y.number ≤ MAX_RECORD_MOVE }
    ensures value { result ≡ event_of_pair x y }
    ensures small { IsTrue (list_all (λ move. is_point_within MAX_RECORD_MOVE move)
        (moves_of_event result)) }
{
    let step = Point {
        x: x.number,
        y: y.number,
    };
    if x.jumps || y.jumps {
        Event::Jump(step)
    } else if x.trims || y.trims {
        Event::TrimmedJump(step)
    } else {
        Event::Stitch(step)
    }
}
