ghost use Rattle.met_drawings.specs.PassedSegments.{is_passed_in, is_same_passed, turned_segment};
ghost use Rattle.std.specs.List.{list_any};
ghost use Rattle.std.specs.Prelude.{◌≡◌, ◌++◌, ◌∷◌, [], IfOk};

use design_model::{Items, Memory, Point};
use std::alloc::Global;
use std::collections::HashSet;
use std::marker::Model;

/// A segment of a block, with its ends in the order in which a line passes it, in tenths of a millimetre.
#[derive(Clone, Copy, PartialEq, Eq, Hash)]
pub struct PassedSegment {
    pub block: u32,
    pub from: Point,
    pub to: Point,
}

/// The segments passed so far, in order.
#[derive(Drop)]
pub struct PassedSegments {
    all: Items<PassedSegment>,
    among: HashSet<PassedSegment>,
}

impl Model for PassedSegments {
    ghost use Rattle.std.specs.Prelude.{◌≡◌, List};
    ghost use Rattle.std.specs.HashSet.{contains};
    ghost use Rattle.std.specs.List.{list_any};
    ghost use Rattle.met_drawings.specs.PassedSegments.{is_same_passed};
    ghost use Rattle.met_drawings.specs.declared.passed_segments.PassedSegment.{PassedSegment};

    ghost Value = { List PassedSegment };

    ghost view = { λ passed. passed.all };

    ghost invariant = { λ passed. (s : PassedSegment)
        → contains is_same_passed passed.among s ≡ list_any (is_same_passed s) passed.all };
}

impl PassedSegments {
    pub fn new(alloc: Global) -> PassedSegments
        ensures { result ≡ [] }
    {
        PassedSegments {
            all: Items::new(alloc),
            among: HashSet::new(alloc),
        }
    }

    /// Returns whether a segment was passed, in either direction.
    pub fn has(&self, s: PassedSegment) -> bool
        ensures { result ≡ is_passed_in self.now s }
    {
        self.has_directed(s) || self.has_directed(turned(s))
    }

    fn has_directed(&self, s: PassedSegment) -> bool
        ensures { result ≡ list_any (is_same_passed s) self.now }
    {
        self.among.contains(&s)
    }

    /// Returns the segments with one more.
    pub fn with(self, s: PassedSegment) -> Result<PassedSegments, Memory>
        ensures { IfOk result (λ passed. passed ≡ self ++ s ∷ []) }
    {
        let PassedSegments { mut all, mut among } = self;
        among.insert(s)?;
        all.push(s)?;
        Ok(PassedSegments { all, among })
    }
}

fn turned(s: PassedSegment) -> PassedSegment
    ensures { result ≡ turned_segment s }
{
    PassedSegment {
        block: s.block,
        from: s.to,
        to: s.from,
    }
}
