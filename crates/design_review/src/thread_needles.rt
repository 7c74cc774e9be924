ghost use Rattle.design_model.specs.Acts.{acts_along};
ghost use Rattle.design_review.specs.Ties.{thread_needles_of_acts, thread_needles_of_design};
ghost use Rattle.std.specs.Prelude.{◌≡◌, IfOk};

use design_model::{Act, Command, Design, Items, Memory, Point, ThreadState};
use std::alloc::Global;

/// A needle, and whether the thread floats to it.
#[derive(Clone, Copy)]
pub struct ThreadNeedle {
    pub at: Point,
    pub float: bool,
}

/// Needles of threads, in order.
pub type ThreadNeedles = Items<ThreadNeedle>;

/// Returns the needles of a design, in order.
pub fn thread_needles(alloc: Global, design: &Design) -> Result<ThreadNeedles, Memory>
    ensures { IfOk result (λ needles. needles ≡ thread_needles_of_design design.now) }
{
    thread_needles_in(alloc, design.commands())
}

fn thread_needles_in(alloc: Global, commands: &[Command]) -> Result<ThreadNeedles, Memory>
    ensures { IfOk result (λ needles. needles ≡ thread_needles_of_acts (acts_along commands.now)) }
{
    let mut needles = ThreadNeedles::new(alloc);
    let mut thread = ThreadState::new();
    for command in commands {
        if let Some(Act::Needle { at, float }) = thread.step(*command) {
            needles.push(ThreadNeedle { at, float })?;
        }
    }
    Ok(needles)
}
