//! The programs as functions that C, Python and web pages call: each runs a packed task over files in memory.
#![tactic(auto)]

mod programs;
#[cfg(test)]
mod tests;
mod writing;

ghost use Rattle.stitch_c.specs.ProgramClauses.{IsDesignRun, IsDrawingRun, IsPictureRun};
ghost use Rattle.stitch_cli.specs.StitchRuns.{IsStitchRun};
ghost use Rattle.task_runs.specs.Outcomes.{ReturnsOutcome};

use crate::programs::{DesignProgram, DrawingProgram, PictureProgram, StitchProgram};
use std::alloc::Global;
use task_runs::run_task;

/// Runs a task with `stitch`, and returns the length of the reply, which is in the buffer if it fits there.
#[unsafe(no_mangle)]
pub extern "C" fn stitch_run(alloc: Global, request: &[u8], reply: &mut [u8]) -> usize
    ensures { ReturnsOutcome IsStitchRun request.now reply.old reply.new result }
{
    run_task::<StitchProgram>(alloc, request, reply)
}

/// Runs a task with `stitch_drawing`, and returns the length of the reply, which is in the buffer if it fits there.
#[unsafe(no_mangle)]
pub extern "C" fn stitch_drawing_run(alloc: Global, request: &[u8], reply: &mut [u8]) -> usize
    ensures { ReturnsOutcome IsDrawingRun request.now reply.old reply.new result }
{
    run_task::<DrawingProgram>(alloc, request, reply)
}

/// Runs a task with `stitch_picture`, and returns the length of the reply, which is in the buffer if it fits there.
#[unsafe(no_mangle)]
pub extern "C" fn stitch_picture_run(alloc: Global, request: &[u8], reply: &mut [u8]) -> usize
    ensures { ReturnsOutcome IsPictureRun request.now reply.old reply.new result }
{
    run_task::<PictureProgram>(alloc, request, reply)
}

/// Runs a task with `stitch_design`, and returns the length of the reply, which is in the buffer if it fits there.
#[unsafe(no_mangle)]
pub extern "C" fn stitch_design_run(alloc: Global, request: &[u8], reply: &mut [u8]) -> usize
    ensures { ReturnsOutcome IsDesignRun request.now reply.old reply.new result }
{
    run_task::<DesignProgram>(alloc, request, reply)
}
