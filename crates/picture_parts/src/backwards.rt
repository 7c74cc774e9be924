ghost use Rattle.std.specs.Fmt.{decimal, signed_decimal};
ghost use Rattle.std.specs.Prelude.{◌≡◌, ◌≤◌, ◌+◌, ◌∷◌, ◌++◌, drop, length};

use design_model::{Point, byte_before, number_before};
use itoa::write_digits;

/// Writes a point before the index `end`, and returns the index of its first byte.
pub(crate) fn point_before(room: &mut [u8], end: usize, at: Point) -> usize
    requires some { 23 ≤ end }
    requires there { end ≤ length room.old }
    ensures within { result ≤ end }
    ensures written { drop result room.new
        ≡ signed_decimal at.x ++ (44 ∷ (signed_decimal at.y ++ drop end room.old)) }
{
    let y = number_before(room, end, at.y);
    let comma = byte_before(room, y, b',');
    number_before(room, comma, at.x)
}

/// Writes the two radii of an arc that are the same, after its letter, before the index `end`.
pub(crate) fn radii_before(room: &mut [u8], end: usize, radius: u64) -> usize
    requires some { 44 ≤ end }
    requires there { end ≤ length room.old }
    ensures within { result ≤ end }
    ensures written { drop result room.new
        ≡ 65 ∷ (decimal radius ++ (44 ∷ (decimal radius ++ drop end room.old))) }
{
    let second = digits_before(room, end, radius);
    let comma = byte_before(room, second, b',');
    let first = digits_before(room, comma, radius);
    byte_before(room, first, b'A')
}

fn digits_before(room: &mut [u8], end: usize, number: u64) -> usize
    requires some { 20 ≤ end }
    requires there { end ≤ length room.old }
    ensures within { result ≤ end }
    ensures most { end ≤ result + 20 }
    ensures written { drop result room.new ≡ decimal number ++ drop end room.old }
{
    write_digits(number, room, end)
}
