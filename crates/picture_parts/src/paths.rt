ghost use Rattle.picture_parts.specs.Paths.{coloured_path, move_text, path_end, path_start, radii_text, straight_text};
ghost use Rattle.std.specs.Prelude.{◌≡◌, ◌++◌, OnOk};

use crate::backwards::radii_before;
use crate::parts::{Part, put, put_around};
use design_model::{Bytes, Memory, Point};

/// More bytes than two radii, a letter and a comma need.
const RADII_ROOM: usize = 48;

/// Begins the path of a class.
#[tactic(auto, unfolding(crate::specs::Paths::path_start))]
pub fn put_path_start(text: &mut Bytes, class: &[u8]) -> Result<(), Memory>
    ensures { OnOk result (text.new ≡ text.old ++ path_start class.now) }
{
    put(text, b"<path class='@' d='", &[Part::Text(class)])
}

/// Begins the path of a class and a colour.
#[tactic(auto, unfolding(crate::specs::Paths::coloured_path))]
pub fn put_coloured_path(text: &mut Bytes, class: &[u8], colour: &[u8]) -> Result<(), Memory>
    ensures { OnOk result (text.new ≡ text.old ++ coloured_path class.now colour.now) }
{
    put(
        text,
        b"<path class='@' stroke='@' d='",
        &[Part::Text(class), Part::Text(colour)],
    )
}

/// Goes on with a path at a point.
#[tactic(auto, unfolding(crate::specs::Paths::move_text))]
pub fn put_move(text: &mut Bytes, at: Point) -> Result<(), Memory>
    ensures { OnOk result (text.new ≡ text.old ++ move_text at) }
{
    put_around(text, b"\nM", at, b"")
}

/// Appends a straight line to a point.
#[tactic(auto, unfolding(crate::specs::Paths::straight_text))]
pub fn put_straight(text: &mut Bytes, at: Point) -> Result<(), Memory>
    ensures { OnOk result (text.new ≡ text.old ++ straight_text at) }
{
    put_around(text, b"L", at, b"")
}

/// Begins an arc whose two radii are the same.
#[tactic(auto, unfolding(crate::specs::Paths::radii_text))]
pub fn put_radii(text: &mut Bytes, radius: u64) -> Result<(), Memory>
    ensures { OnOk result (text.new ≡ text.old ++ radii_text radius) }
{
    let mut room = [0; RADII_ROOM];
    let start = radii_before(&mut room, RADII_ROOM, radius);
    text.append(&room[start..])?;
    Ok(())
}

/// Ends a path.
#[tactic(auto, unfolding(crate::specs::Paths::path_end))]
pub fn put_path_end(text: &mut Bytes) -> Result<(), Memory>
    ensures { OnOk result (text.new ≡ text.old ++ path_end) }
{
    put(text, b"'/>\n", &[])
}
