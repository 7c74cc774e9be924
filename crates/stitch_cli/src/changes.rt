ghost use Rattle.std.specs.Prelude.{◌≤◌};
ghost use Rattle.step_splitter.specs.declared.segment.TheConstants.{MAX_STEP};
ghost use Rattle.stitch_cli.specs.AppliedChanges.{AreValidChanges, IsChangesResult, change_list};

use crate::change_faults::ChangeFailure;
use crate::edits::edited;
use crate::refits::refitted;
use design_model::Design;
use std::alloc::Global;
use step_splitter::MAX_STEP;

/// The changes of a design between reading and writing.
#[derive(Clone, Copy)]
pub enum Changes<'a> {
    /// Split stitches beyond the limit of the output, and cut floats, as requested.
    Refits { splits: bool, cuts: bool },
    /// The edits that the arguments represent, in order.
    Edits(&'a [String]),
}

/// Returns the design after changes in order. Refits are to that limit.
pub fn changed(
    alloc: Global,
    design: Design,
    limit: u32,
    changes: &Changes<'_>,
) -> Result<Design, ChangeFailure>
    requires low { 1 ≤ limit }
    requires high { limit ≤ MAX_STEP }
    requires changes { AreValidChanges changes.now }
    ensures { IsChangesResult limit (change_list changes.now) design result }
{
    match *changes {
        Changes::Refits { splits, cuts } => refitted(alloc, design, limit, splits, cuts),
        Changes::Edits(words) => edited(design, words),
    }
}
