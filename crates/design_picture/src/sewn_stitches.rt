ghost use Rattle.design_picture.specs.Strokes.{none_passed, sewn_by, sewn_stitch, stitch_added};
ghost use Rattle.std.specs.Prelude.{◌≡◌, IfOk, OnOk};

use crate::arrow_squares::{ArrowSquare, put_arrow_square};
use crate::links::{PointPair, SewnPasses, pass};
use crate::pen::Pen;
use crate::strokes::SewnStitch;
use design_model::{Memory, Point};
use std::alloc::Global;
use std::collections::HashSet;

/// What was sewn so far: how often each stitch was sewn, and which squares have an arrow.
#[derive(Drop)]
pub struct SewnStitches {
    pub passes: SewnPasses,
    pub arrows: HashSet<ArrowSquare>,
}

impl SewnStitches {
    /// Returns that nothing was sewn so far, with room for so many stitches.
    pub(crate) fn with_room(alloc: Global, stitches: usize) -> Result<SewnStitches, Memory>
        ensures { IfOk result (λ sewn. sewn_by sewn ≡ none_passed) }
    {
        let passes = SewnPasses::with_capacity(alloc, stitches)?;
        Ok(SewnStitches {
            passes,
            arrows: HashSet::new(alloc),
        })
    }

    /// Returns the stitch to a needle, and adds it.
    pub(crate) fn stitch(&mut self, pen: Pen, at: Point) -> Result<SewnStitch, Memory>
        ensures value { IfOk result (λ stitch. stitch ≡ sewn_stitch pen (sewn_by self.old) at) }
        ensures added { OnOk result (sewn_by self.new ≡ stitch_added pen (sewn_by self.old) at) }
    {
        let from = pen.place;
        let pass = pass(&mut self.passes, PointPair { from, to: at })?;
        let arrow = put_arrow_square(&mut self.arrows, pen, at, pass)?;
        Ok(SewnStitch {
            pass,
            arrow,
            from,
            at,
        })
    }
}
