ghost use Rattle.design_model.specs.Acts.{acts_of};
ghost use Rattle.dst_codec.specs.Header.{size_above_zero, size_below_zero, extents_of};
ghost use Rattle.dst_codec.specs.Steps.{extents_from_origin};
ghost use Rattle.std.specs.Prelude.{◌≡◌};

use crate::header::Extents;
use design_model::{Design, Extent, extent};

/// Returns the greatest distances of a design's needles from the origin, in four directions.
pub fn needle_extents(design: &Design) -> Extents
    ensures { result ≡ extents_of (acts_of design.now) }
{
    extents_within(extent(design))
}

fn extents_within(extent: Option<Extent>) -> Extents
    ensures { result ≡ extents_from_origin extent }
{
    match extent {
        Some(Extent { min, max }) => Extents {
            right: above(max.x),
            left: below(min.x),
            up: below(min.y),
            down: above(max.y),
        },
        None => Extents {
            right: 0,
            left: 0,
            up: 0,
            down: 0,
        },
    }
}

/// Returns a number that is above 0; else 0.
fn above(number: i32) -> u32
    ensures { result ≡ size_above_zero number }
{
    if number < 0 { 0 } else { number.unsigned_abs() }
}

/// Returns the size of a number that is below 0; else 0.
fn below(number: i32) -> u32
    ensures { result ≡ size_below_zero number }
{
    if number < 0 { number.unsigned_abs() } else { 0 }
}
