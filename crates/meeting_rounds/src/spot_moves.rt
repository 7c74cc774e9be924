ghost use Rattle.meeting_rounds.specs.MovedPoints.{target_in};
ghost use Rattle.std.specs.Prelude.{◌≡◌, ◌++◌, ◌∷◌, [], IfOk};

use design_model::{Items, Memory, Point};
use line_sections::Spot;
use std::alloc::Global;
use std::collections::HashMap;
use std::marker::Model;

/// A move of the points of a spot to a place of their block, in tenths of a millimetre.
#[derive(Clone, Copy)]
pub struct SpotMove {
    pub from: Spot,
    pub to: Point,
}

/// The moves so far, in order.
#[derive(Drop)]
pub struct SpotMoves {
    all: Items<SpotMove>,
    targets: HashMap<Spot, Point>,
}

impl Model for SpotMoves {
    ghost use Rattle.std.specs.Prelude.{◌≡◌, List};
    ghost use Rattle.std.specs.HashMap.{get};
    ghost use Rattle.line_sections.specs.Spots.{is_same_spot};
    ghost use Rattle.line_sections.specs.declared.spot.Spot.{Spot};
    ghost use Rattle.meeting_rounds.specs.MovedPoints.{target_in};
    ghost use Rattle.meeting_rounds.specs.declared.spot_moves.SpotMove.{SpotMove};

    ghost Value = { List SpotMove };

    ghost view = { λ moves. moves.all };

    ghost invariant = { λ moves. (s : Spot)
        → get is_same_spot moves.targets s ≡ target_in moves.all s };
}

impl SpotMoves {
    pub fn new(alloc: Global) -> SpotMoves
        ensures { result ≡ [] }
    {
        SpotMoves {
            all: Items::new(alloc),
            targets: HashMap::new(alloc),
        }
    }

    /// Returns where the points of a spot move, if they do.
    pub fn target(&self, at: Spot) -> Option<Point>
        ensures { result ≡ target_in self.now at }
    {
        self.targets.get(&at).copied()
    }

    /// Returns the moves with one more.
    pub fn with(self, one: SpotMove) -> Result<SpotMoves, Memory>
        ensures { IfOk result (λ moves. moves ≡ self ++ one ∷ []) }
    {
        let SpotMoves {
            mut all,
            mut targets,
        } = self;
        targets.insert(one.from, one.to)?;
        all.push(one)?;
        Ok(SpotMoves { all, targets })
    }
}
