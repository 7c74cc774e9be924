ghost use Rattle.line_meetings.specs.Bounds.{AreAllWithin};
ghost use Rattle.line_meetings.specs.Cores.{HaveCore};
ghost use Rattle.line_meetings.specs.Outlines.{HaveOutline, LieInStrip};

use crate::bounds::Bounds;
use crate::indexed_part::IndexedPart;
use crate::part_core::Core;
use drawing_review::Strip;

/// What is known of several parts: bounds that have them inside, a core that each of them has inside, and a strip along
/// the first one in which they lie.
#[derive(Clone, Copy)]
pub struct Outline {
    pub bounds: Bounds,
    pub core: Core,
    pub strip: Strip,
}

impl Outline {
    /// Returns the outline of some parts.
    pub fn of(parts: &[IndexedPart]) -> Outline
        ensures { HaveOutline result parts.now }
    {
        Outline {
            bounds: bounds_of_all(parts),
            core: core_of_all(parts),
            strip: strip_of_all(parts),
        }
    }
}

/// Returns bounds that have parts inside.
fn bounds_of_all(parts: &[IndexedPart]) -> Bounds
    ensures { AreAllWithin result parts.now }
{
    let mut bounds = Bounds::empty();
    for part in parts {
        bounds = bounds.united(&Bounds::of(&part.part));
    }
    bounds
}

/// Returns a core that parts have inside.
fn core_of_all(parts: &[IndexedPart]) -> Core
    ensures { HaveCore result parts.now }
{
    let mut core = Core::full();
    for part in parts {
        core = core.common(&Core::of(&part.part));
    }
    core
}

/// Returns a strip along the first part in which parts lie.
fn strip_of_all(parts: &[IndexedPart]) -> Strip
    ensures { LieInStrip result parts.now }
{
    let mut strip = first_strip(parts);
    for part in parts {
        strip = strip.with(part.part.a).with(part.part.b);
    }
    strip
}

/// Returns the strip along the first part alone.
fn first_strip(parts: &[IndexedPart]) -> Strip {
    match parts.first() {
        Some(first) => Strip::of(&first.part),
        None => Strip::least(),
    }
}
