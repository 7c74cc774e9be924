//! Minimum-weight perfect matchings of a table of distances, by the blossom algorithm of Edmonds. The moats
//! of a matching are its dual solution: they prove that no perfect matching costs less.
//!
//! ```
//! use blossom_match::{DistTable, match_all};
//!
//! let mut table = DistTable::new(alloc, 2)?;
//! table.set(0, 1, 7);
//! let matching = match_all(alloc, &table)?;
//! assert_eq!(rt; matching.pairs.len(), 1);
//! ```
#![tactic(auto)]

mod adjustment;
mod initial_duals;
mod kept_search;
mod least;
mod masks;
mod matching;
mod outer_slacks;
mod pairing;
mod phase;
mod search;
mod state;
mod taking;
mod theorems;

pub use matching::{Matching, Moat, Moats, Pair, Pairs, match_all};
pub use odd_sets::DistTable;
pub use theorems::none_costs_less;
