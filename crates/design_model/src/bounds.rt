ghost use Rattle.design_model.specs.Extents.{extent_height, extent_width};
ghost use Rattle.std.specs.Prelude.{◌≡◌};

use crate::point::Point;

/// The corners of the smallest upright rectangle that contains some points, in tenths of a millimetre: `min`
/// has the minimum x and y, and `max` the maximum.
#[derive(Clone, Copy, Debug, PartialEq)]
pub struct Extent {
    pub min: Point,
    pub max: Point,
}

/// Returns the width of an extent, in tenths of a millimetre; 0 for `None`.
pub fn width(extent: Option<Extent>) -> u32
    ensures { result ≡ extent_width extent }
{
    match extent {
        Some(Extent { min, max }) => max.x.abs_diff(min.x),
        None => 0,
    }
}

/// Returns the height of an extent, in tenths of a millimetre; 0 for `None`.
pub fn height(extent: Option<Extent>) -> u32
    ensures { result ≡ extent_height extent }
{
    match extent {
        Some(Extent { min, max }) => max.y.abs_diff(min.y),
        None => 0,
    }
}
