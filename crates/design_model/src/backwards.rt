ghost use Rattle.std.specs.Fmt.{signed_decimal};
ghost use Rattle.std.specs.Prelude.{◌≡◌, ◌≤◌, ◌<◌, ◌+◌, ◌∷◌, ◌++◌, drop, length};

use itoa::write_digits;

/// Writes a byte before the index `end`, and returns its index.
pub fn byte_before(room: &mut [u8], end: usize, byte: u8) -> usize
    requires some { 0 < end }
    requires there { end ≤ length room.old }
    ensures start { result + 1 ≡ end }
    ensures written { drop result room.new ≡ byte ∷ drop end room.old }
{
    room[end - 1] = byte;
    end - 1
}

/// Writes a number in decimal digits, after `-` if it is negative, before the index `end`. Returns the index of its first
/// byte.
pub fn number_before(room: &mut [u8], end: usize, number: i32) -> usize
    requires some { 11 ≤ end }
    requires there { end ≤ length room.old }
    ensures within { result ≤ end }
    ensures most { end ≤ result + 11 }
    ensures written { drop result room.new ≡ signed_decimal number ++ drop end room.old }
{
    let start = write_digits(number.unsigned_abs() as u64, room, end);
    if number >= 0 {
        return start;
    }
    byte_before(room, start, b'-')
}
