ghost use Rattle.std.specs.Fmt.{signed_decimal};
ghost use Rattle.std.specs.Prelude.{◌≡◌, ◌≤◌, ◌∷◌, ◌++◌, [], drop, length, OnOk};
ghost use Rattle.stitch_text.specs.StitchLists.{point_line};

use design_model::{Bytes, Memory, Point, byte_before, number_before};

/// More bytes than two numbers, a space before each and the end of the line need.
const ROOM: usize = 32;

/// Appends the line of a word and a point.
pub(crate) fn put_point(text: &mut Bytes, word: &[u8], at: Point) -> Result<(), Memory>
    ensures { OnOk result (text.new ≡ text.old ++ (point_line word.now at ++ 10 ∷ [])) }
{
    let mut room = [b'\n'; ROOM];
    let start = point_before(&mut room, ROOM - 1, at);
    text.append(word)?;
    text.append(&room[start..])?;
    Ok(())
}

/// Writes a space and a number for each coordinate before the index `end`, and returns the index of their
/// first byte.
fn point_before(room: &mut [u8], end: usize, at: Point) -> usize
    requires some { 24 ≤ end }
    requires there { end ≤ length room.old }
    ensures within { result ≤ end }
    ensures written { drop result room.new
        ≡ 32 ∷ (signed_decimal at.x ++ (32 ∷ (signed_decimal at.y ++ drop end room.old))) }
{
    let y = number_before(room, end, at.y);
    let gap = byte_before(room, y, b' ');
    let x = number_before(room, gap, at.x);
    byte_before(room, x, b' ')
}
