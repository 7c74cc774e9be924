ghost use Rattle.std.specs.Prelude.{refl};

use crate::writing::{design_may_write, drawing_may_write, stitch_may_write};
use design_commands::run_design;
use picture_commands::run_picture;
use program_shell::Status;
use std::alloc::{AllocError, Global};
use stitch_cli::run_stitch;
use task_runs::{GrowingSink, GrowingStore, TaskProgram};

/// `stitch`.
pub(crate) struct StitchProgram;

impl TaskProgram for StitchProgram {
    ghost use Rattle.stitch_cli.specs.StitchRuns.{IsStitchRun};

    ghost ends = { IsStitchRun };

    fn run(
        alloc: Global,
        words: &[String],
        store: &mut GrowingStore<'_>,
        out: &mut GrowingSink,
        err: &mut GrowingSink,
    ) -> Result<Status, AllocError> {
        run_stitch(alloc, words, store, out, err)
    }

    fn may_write(words: &[String]) -> bool {
        stitch_may_write(words)
    }

    ghost keeps = { λ words before after runs. (runs.ends.refused refl).untouched.store };
}

/// `stitch_drawing`.
pub(crate) struct DrawingProgram;

impl TaskProgram for DrawingProgram {
    ghost use Rattle.stitch_c.specs.ProgramClauses.{IsDrawingRun};

    ghost ends = { IsDrawingRun };

    fn run(
        alloc: Global,
        words: &[String],
        store: &mut GrowingStore<'_>,
        out: &mut GrowingSink,
        err: &mut GrowingSink,
    ) -> Result<Status, AllocError> {
        Ok(drawing_commands::run(alloc, words, store, out, err))
    }

    fn may_write(words: &[String]) -> bool {
        drawing_may_write(words)
    }

    ghost keeps = { λ words before after runs. (runs.refused refl).untouched.store };
}

/// `stitch_picture`.
pub(crate) struct PictureProgram;

impl TaskProgram for PictureProgram {
    ghost use Rattle.stitch_c.specs.ProgramClauses.{IsPictureRun};

    ghost ends = { IsPictureRun };

    fn run(
        alloc: Global,
        words: &[String],
        store: &mut GrowingStore<'_>,
        out: &mut GrowingSink,
        err: &mut GrowingSink,
    ) -> Result<Status, AllocError> {
        run_picture(alloc, words, store, out, err)
    }

    /// Each picture is a file.
    fn may_write(_words: &[String]) -> bool {
        true
    }

    ghost keeps = { λ words before after runs. (runs.refused refl).untouched.store };
}

/// `stitch_design`.
pub(crate) struct DesignProgram;

impl TaskProgram for DesignProgram {
    ghost use Rattle.stitch_c.specs.ProgramClauses.{IsDesignRun};

    ghost ends = { IsDesignRun };

    fn run(
        alloc: Global,
        words: &[String],
        store: &mut GrowingStore<'_>,
        out: &mut GrowingSink,
        err: &mut GrowingSink,
    ) -> Result<Status, AllocError> {
        run_design(alloc, words, store, out, err)
    }

    fn may_write(words: &[String]) -> bool {
        design_may_write(words)
    }

    ghost keeps = { λ words before after runs. (runs.refused refl).untouched.store };
}
