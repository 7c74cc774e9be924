ghost use Rattle.pec_codec.specs.Coordinates.{leading_coordinate, coordinate_of_two_bytes, coordinate_of_byte};
ghost use Rattle.record_formats.specs.declared.record_reader.TheConstants.{MAX_RECORD_MOVE};
ghost use Rattle.std.specs.Prelude.{◌≡◌, ◌<◌, ◌≤◌, length, unsigned_abs, IfNone, IfSome};

use record_formats::signed;

/// A coordinate of a record.
#[derive(Clone, Copy)]
pub struct Coordinate {
    /// The number of its bytes.
    pub size: usize,
    /// Tenths of a millimetre.
    pub number: i32,
    pub trims: bool,
    pub jumps: bool,
}

/// Returns the coordinate at the beginning of bytes, unless the bytes end before it does.
pub fn coordinate_in(bytes: &[u8]) -> Option<Coordinate>
    ensures value { result ≡ leading_coordinate bytes.now }
    ensures some { IfSome result (λ c. 0 < c.size) }
    ensures most { IfSome result (λ c. c.size ≤ 2) }
    ensures none { IfNone result (length bytes.now < 2) }
    ensures size { IfSome result (λ c. c.size ≤ length bytes.now) }
    ensures small { IfSome result (λ c. unsigned_abs c.number ≤ MAX_RECORD_MOVE) }
{
    match bytes {
        [first, ..] if *first < 128 => Some(short_coordinate(*first)),
        [first, second, ..] => Some(long_coordinate(*first, *second)),
        _ => None,
    }
}

fn short_coordinate(byte: u8) -> Coordinate
    requires { byte < 128 }
    ensures value { result ≡ coordinate_of_byte byte }
    ensures small { unsigned_abs result.number ≤ MAX_RECORD_MOVE }
{
    Coordinate {
        size: 1,
        number: signed(64, byte as u32),
        trims: false,
        jumps: false,
    }
}

fn long_coordinate(first: u8, second: u8) -> Coordinate
    ensures value { result ≡ coordinate_of_two_bytes first second }
    ensures small { unsigned_abs result.number ≤ MAX_RECORD_MOVE }
{
    Coordinate {
        size: 2,
        number: signed(2048, first as u32 % 16 * 256 + second as u32),
        trims: first / 32 % 2 == 1,
        jumps: first / 16 % 2 == 1,
    }
}
