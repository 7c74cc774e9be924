ghost use Rattle.command_words.specs.RefitFlags.{refit_changes};
ghost use Rattle.std.specs.Prelude.{◌∷◌, ◌≤◌, [], if◌then◌else◌};
ghost use Rattle.step_splitter.specs.declared.segment.TheConstants.{MAX_STEP};
ghost use Rattle.stitch_cli.specs.AppliedChanges.{IsChangesResult};
ghost use Rattle.stitch_cli.specs.ChangeSteps.{refit_change};

use crate::change_faults::{ChangeFailure, ChangeFault};
use design_model::Design;
use std::alloc::Global;
use step_splitter::{MAX_STEP, RefitFault, RefitMode, refit};

/// Returns the design with its long stitches split, if requested, and then with its floats cut, if requested.
pub(crate) fn refitted(
    alloc: Global,
    design: Design,
    limit: u32,
    splits: bool,
    cuts: bool,
) -> Result<Design, ChangeFailure>
    requires low { 1 ≤ limit }
    requires high { limit ≤ MAX_STEP }
    ensures { IsChangesResult limit (refit_changes splits cuts) design result }
{
    let split = refitted_where(splits, alloc, design, limit, RefitMode::Split)?;
    refitted_where(cuts, alloc, split, limit, RefitMode::Cut)
}

fn refitted_where(
    asked: bool,
    alloc: Global,
    design: Design,
    limit: u32,
    mode: RefitMode,
) -> Result<Design, ChangeFailure>
    requires low { 1 ≤ limit }
    requires high { limit ≤ MAX_STEP }
    ensures { IsChangesResult limit (if asked then refit_change mode ∷ [] else []) design result }
{
    if !asked {
        return Ok(design);
    }
    match refit(alloc, &design, limit, mode) {
        Ok(refitted) => Ok(refitted),
        Err(RefitFault::TooMany { number }) => {
            Err(ChangeFailure::Refused(ChangeFault::RefitTooMany { number }))
        }
        Err(RefitFault::Memory) => Err(ChangeFailure::Memory),
    }
}
