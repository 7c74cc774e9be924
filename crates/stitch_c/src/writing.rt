//! Which arguments request a command that may write files.
ghost use Rattle.program_shell.specs.declared.status.Status.{Status};
ghost use Rattle.std.specs.Prelude.{◌≡◌, false, map, string_bytes};
ghost use Rattle.stitch_c.specs.ProgramClauses.{IsDesignRun, IsDrawingRun};
ghost use Rattle.stitch_cli.specs.StitchRuns.{IsStitchRun};
ghost use Rattle.task_runs.specs.TaskViews.{LeavesFilesAlone};

use design_commands::DesignRequest;
use drawing_commands::{DrawingRequest, drawing_request};
use stitch_cli::Request;

/// Returns whether runs of `stitch` with these arguments may write files.
pub(crate) fn stitch_may_write(words: &[String]) -> bool
    ensures { result ≡ false → (s : Status)
        → LeavesFilesAlone IsStitchRun (map string_bytes words.now) s }
{
    let Some(requested) = stitch_cli::request(words) else {
        return true;
    };
    match requested {
        Request::Check { .. } => false,
        Request::Show { .. } => false,
        Request::Hoop { .. } => false,
        _ => true,
    }
}

/// Returns whether runs of `stitch_drawing` with these arguments may write files.
pub(crate) fn drawing_may_write(words: &[String]) -> bool
    ensures { result ≡ false → (s : Status)
        → LeavesFilesAlone IsDrawingRun (map string_bytes words.now) s }
{
    let Ok(requested) = drawing_request(words) else {
        return true;
    };
    match requested {
        DrawingRequest::Look { .. } => false,
        _ => true,
    }
}

/// Returns whether runs of `stitch_design` with these arguments may write files.
pub(crate) fn design_may_write(words: &[String]) -> bool
    ensures { result ≡ false → (s : Status)
        → LeavesFilesAlone IsDesignRun (map string_bytes words.now) s }
{
    let Ok(requested) = design_commands::request(words) else {
        return true;
    };
    match requested {
        DesignRequest::Look { .. } => false,
        DesignRequest::Pass { .. } => false,
        DesignRequest::Compare { .. } => false,
        DesignRequest::Threads { .. } => false,
        _ => true,
    }
}
