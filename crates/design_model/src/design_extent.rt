ghost use Rattle.design_model.specs.Acts.{acts_along};
ghost use Rattle.design_model.specs.Extents.{IsExtentOrNone, grown_optional_extent, extent_of, extent_of_points, needle_points_of_acts, needle_points_of_design};
ghost use Rattle.std.specs.Int.{int_min, int_max};
ghost use Rattle.std.specs.Prelude.{◌≡◌, ◌∷◌, [], Some};

use crate::act::Act;
use crate::bounds::Extent;
use crate::command::Command;
use crate::design::Design;
use crate::point::Point;
use crate::thread_state::ThreadState;

/// Returns the minimum and maximum x and y of the needle acts, or `None` without needle acts. Allocates
/// nothing.
#[tactic(auto, using(crate::proofs::ExtentLemmas::bounds_of_points))]
pub fn extent(design: &Design) -> Option<Extent>
    ensures value { result ≡ extent_of design.now }
    ensures bounds { IsExtentOrNone (needle_points_of_design design.now) result }
{
    extent_in(design.commands())
}

fn extent_in(commands: &[Command]) -> Option<Extent>
    ensures { result ≡ extent_of_points (needle_points_of_acts (acts_along commands.now)) }
{
    let mut extent = None;
    let mut thread = ThreadState::new();
    for command in commands {
        if let Some(Act::Needle { at, .. }) = thread.step(*command) {
            extent = Some(extent_with(extent, at));
        }
    }
    extent
}

/// Returns the smallest extent that contains an extent and points, in tenths of a millimetre. Allocates
/// nothing.
pub fn extent_over(extent: Option<Extent>, points: &[Point]) -> Option<Extent>
    ensures { result ≡ grown_optional_extent extent points.now }
{
    let mut over = extent;
    let mut rest = points;
    while let [point, after @ ..] = rest {
        over = Some(extent_with(over, *point));
        rest = after;
    }
    over
}

fn extent_with(extent: Option<Extent>, at: Point) -> Extent
    ensures { grown_optional_extent extent (at ∷ []) ≡ Some result }
{
    match extent {
        Some(Extent { min, max }) => Extent {
            min: least_corner(min, at),
            max: greatest_corner(max, at),
        },
        None => Extent { min: at, max: at },
    }
}

fn least_corner(corner: Point, at: Point) -> Point
    ensures { result ≡ record { x = int_min corner.x at.x; y = int_min corner.y at.y } }
{
    Point {
        x: corner.x.min(at.x),
        y: corner.y.min(at.y),
    }
}

fn greatest_corner(corner: Point, at: Point) -> Point
    ensures { result ≡ record { x = int_max corner.x at.x; y = int_max corner.y at.y } }
{
    Point {
        x: corner.x.max(at.x),
        y: corner.y.max(at.y),
    }
}
