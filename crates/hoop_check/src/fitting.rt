ghost use Rattle.hoop_check.specs.Fits.{fit_of, fit_of_size};
ghost use Rattle.std.specs.Prelude.{◌≡◌};

use design_model::{Design, extent, height, width};

/// The fit of a design in a hoop.
#[derive(Clone, Copy, Debug, PartialEq)]
pub enum Fit {
    /// Fits as it is.
    Upright,
    /// Fits after a quarter turn only.
    Turned,
    /// Fits neither way; the excess in width and height, each at least 0, in tenths of a millimetre.
    No { over_x: u32, over_y: u32 },
}

/// Returns the fit of a design's needles in a hoop of `w` by `h` tenths of a millimetre. Allocates nothing.
pub fn fits(design: &Design, w: u32, h: u32) -> Fit
    ensures { result ≡ fit_of design.now w h }
{
    let extent = extent(design);
    fit_size(width(extent), height(extent), w, h)
}

fn fit_size(width: u32, height: u32, w: u32, h: u32) -> Fit
    ensures { result ≡ fit_of_size width height w h }
{
    if width <= w && height <= h {
        return Fit::Upright;
    }
    if width <= h && height <= w {
        return Fit::Turned;
    }
    Fit::No {
        over_x: width.saturating_sub(w),
        over_y: height.saturating_sub(h),
    }
}
