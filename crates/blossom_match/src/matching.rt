ghost use Rattle.blossom_match.specs.Matchings.{IsOptimalMatching};
ghost use Rattle.odd_sets.specs.Tables.{HasTriangleInequality};
ghost use Rattle.std.specs.Prelude.{◌≡◌, ◌%◌, IfOk};

use crate::pairing::find_matches;
use crate::taking::take_matches;
use design_model::{Items, Memory, Numbers};
use odd_sets::DistTable;
use std::alloc::Global;

/// Two places that are matched.
#[derive(Clone, Copy)]
pub struct Pair {
    pub a: u32,
    pub b: u32,
}

/// An odd set of places and its dual variable, the width, in halves of a step.
#[derive(Drop)]
pub struct Moat {
    pub members: Numbers,
    pub width: u32,
}

/// A list of pairs.
pub type Pairs = Items<Pair>;
/// A list of moats.
pub type Moats = Items<Moat>;

/// All places in pairs, and the moats that prove the matching optimal.
#[derive(Drop)]
pub struct Matching {
    pub pairs: Pairs,
    pub moats: Moats,
}

/// Returns a perfect matching of minimum cost, with moats that prove it optimal. Widths count halves of a
/// step. The only error is out of memory.
pub fn match_all(alloc: Global, t: &DistTable) -> Result<Matching, Memory>
    requires even { t.now.places % 2 ≡ 0 }
    requires triangles { HasTriangleInequality t.now }
    ensures { IfOk result (λ m. IsOptimalMatching t.now m.pairs m.moats) }
{
    let found = find_matches(alloc, t)?;
    let matches = found.matches;
    let mut pairs = Pairs::new(alloc);
    let mut moats = Moats::new(alloc);
    take_matches(alloc, &found.sets, matches, &mut pairs, &mut moats)?;
    Ok(Matching { pairs, moats })
}
