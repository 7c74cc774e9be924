ghost use Rattle.meeting_rounds.specs.PlaceNumbers.{distance_along, place_number_of, point_of_place};
ghost use Rattle.std.specs.Prelude.{◌≡◌, ◌≤◌};

use design_model::Point;
use drawing_review::GridPoint;

/// Returns how far a point is from the point where a segment begins, over both axes.
fn along(a: GridPoint, p: GridPoint) -> u64
    ensures value { result ≡ distance_along a p }
    ensures most { result ≤ 131070 }
{
    a.x.abs_diff(p.x) as u64 + a.y.abs_diff(p.y) as u64
}

/// Returns the number of a point in a segment that begins at `a`: points that are farther along have greater
/// ones.
pub fn place_number(a: GridPoint, p: GridPoint) -> u64
    ensures { result ≡ place_number_of a p }
{
    along(a, p) * 4_294_967_296 + (p.x as u64 * 65_536 + p.y as u64)
}

/// Returns the point with a number, in tenths of a millimetre.
pub fn point_at_place(n: u64) -> Point
    ensures { result ≡ point_of_place n }
{
    Point {
        x: (n / 65_536 % 65_536) as i32 - 30_000,
        y: (n % 65_536) as i32 - 30_000,
    }
}
