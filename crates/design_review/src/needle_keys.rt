ghost use Rattle.design_review.specs.NeedleKeys.{key_coordinate, key_of};
ghost use Rattle.std.specs.Prelude.{◌≡◌, ◌<◌, ◌^◌, IfOk, map};

use design_model::{Memory, Point};
use std::alloc::Global;

/// How far two needles in one hole are apart at most, in tenths of a millimetre.
pub const HOLE_RADIUS: u64 = 2;

/// The keys of a column.
pub const COLUMN: u64 = 65_536;

/// Returns the keys of needle points, in order.
pub fn keys(alloc: Global, points: &[Point]) -> Result<Vec<u32>, Memory>
    ensures { IfOk result (λ keys. keys.items ≡ map key_of points.now) }
{
    let mut keys = Vec::new(alloc);
    for point in points {
        keys.push(key(*point))?;
    }
    Ok(keys)
}

/// Returns the key of a needle point.
#[inline]
pub fn key(point: Point) -> u32
    ensures { result ≡ key_of point }
{
    key_coordinate(point.x) as u32 * COLUMN as u32 + key_coordinate(point.y) as u32
}

#[inline]
fn key_coordinate(number: i32) -> u16
    ensures { result ≡ key_coordinate number }
{
    let size = number.unsigned_abs().min(30_000) as u16;
    if number < 0 {
        32_768 - size
    } else {
        32_768 + size
    }
}
