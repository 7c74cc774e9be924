ghost use Rattle.meeting_rounds.specs.PinnedSpots.{is_among_spots};
ghost use Rattle.std.specs.Prelude.{◌≡◌, ◌++◌, ◌∷◌, [], IfOk};

use design_model::{Items, Memory};
use line_sections::Spot;
use std::alloc::Global;
use std::collections::HashSet;
use std::marker::Model;

/// The spots where points stay, in order.
#[derive(Drop)]
pub struct PinnedSpots {
    all: Items<Spot>,
    among: HashSet<Spot>,
}

impl Model for PinnedSpots {
    ghost use Rattle.std.specs.Prelude.{◌≡◌, List};
    ghost use Rattle.std.specs.HashSet.{contains};
    ghost use Rattle.line_sections.specs.Spots.{is_same_spot};
    ghost use Rattle.line_sections.specs.declared.spot.Spot.{Spot};
    ghost use Rattle.meeting_rounds.specs.PinnedSpots.{is_among_spots};

    ghost Value = { List Spot };

    ghost view = { λ pinned. pinned.all };

    ghost invariant = { λ pinned. (s : Spot)
        → contains is_same_spot pinned.among s ≡ is_among_spots pinned.all s };
}

impl PinnedSpots {
    pub fn new(alloc: Global) -> PinnedSpots
        ensures { result ≡ [] }
    {
        PinnedSpots {
            all: Items::new(alloc),
            among: HashSet::new(alloc),
        }
    }

    /// Returns whether a spot is pinned.
    pub fn has(&self, at: Spot) -> bool
        ensures { result ≡ is_among_spots self.now at }
    {
        self.among.contains(&at)
    }

    /// Returns the spots with one more.
    pub fn with(self, at: Spot) -> Result<PinnedSpots, Memory>
        ensures { IfOk result (λ pinned. pinned ≡ self ++ at ∷ []) }
    {
        let PinnedSpots { mut all, mut among } = self;
        among.insert(at)?;
        all.push(at)?;
        Ok(PinnedSpots { all, among })
    }
}
