ghost use Rattle.blossom_match.specs.LeastChanges.{CanSearch};
ghost use Rattle.blossom_match.specs.Masks.{IsSearchMask};
ghost use Rattle.blossom_match.specs.OuterSlacks.{AreSearchSlacks};
ghost use Rattle.blossom_match.specs.States.{search_value};

use crate::state::Search;
use odd_sets::DistTable;

/// A search over a table, with what it keeps from step to step: `reach` has the least slack from an outer set
/// to each vertex, and `mask` shows the matches outside the tree. The slack row of each set is that of the
/// table, so a single vertex has twice its distances.
#[derive(Drop)]
pub struct KeptSearch<'a> {
    pub t: &'a DistTable,
    pub search: Search,
    pub reach: Vec<u32>,
    pub mask: Vec<u32>,
    ghost can: { ∥ CanSearch t.now (search_value search) ∥₁ },
    ghost reaches: { ∥ AreSearchSlacks t.now (search_value search) reach.items ∥₁ },
    ghost masks: { IsSearchMask t.now (search_value search) mask.items },
}
