ghost use Rattle.odd_sets.specs.MatchedSets.{match_dual_sets};
ghost use Rattle.odd_sets.specs.SlotProps.{set-prop};
ghost use Rattle.odd_sets.specs.Slots.{branches_in, matches_in, set_in, AreSets};
ghost use Rattle.odd_sets.specs.Trees.{all_dual_sets};
ghost use Rattle.std.proofs.Props.{props};

use odd_sets::{Branch, Handle, Match, Sets};

/// A partial matching: matched sets, free vertices, and the height of each vertex. The height is the sum of
/// the duals of the sets that hold the vertex, or the initial dual of a free one. Each set has a slot of its
/// own.
#[derive(Drop)]
pub struct Pairing {
    pub sets: Sets,
    pub matches: Vec<Match>,
    pub free: Vec<u32>,
    pub heights: Vec<u32>,
    ghost stand: { AreSets sets (match_dual_sets (matches_in sets matches.items)) } by { Prim.hlevel (props, set-prop) },
}

/// A search for an augmenting path from the root to a free vertex. The fields are the alternating tree, the
/// matches outside it, the free vertices, and the height of each vertex. Each set has a slot of its own.
#[derive(Drop)]
pub struct Search {
    pub sets: Sets,
    pub root: Handle,
    pub tree: Vec<Branch>,
    pub rest: Vec<Match>,
    pub free: Vec<u32>,
    pub heights: Vec<u32>,
    ghost stand: { AreSets sets (all_dual_sets (set_in sets root) (branches_in sets tree.items)
        (matches_in sets rest.items)) } by { Prim.hlevel (props, set-prop) },
}
