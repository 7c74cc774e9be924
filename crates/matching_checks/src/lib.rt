//! Plain checks of the five properties of an optimal matching, and tests on tables whose optimal matchings
//! are known from elsewhere.
//!
//! ```
//! use blossom_match::{DistTable, match_all};
//! use matching_checks::{cost, fault};
//!
//! let mut table = DistTable::new(alloc, 2)?;
//! table.set(0, 1, 7);
//! let matching = match_all(alloc, &table)?;
//! assert_eq!(rt; cost(&table, &matching), 7);
//! assert!(rt; fault(&table, &matching) == "");
//! ```
#![tactic(auto)]

mod ends;
mod moats;
mod properties;
#[cfg(test)]
mod tests;
mod triangles;

pub use moats::{all_laminar, all_odd, load};
pub use properties::{cost, fault};
pub use triangles::keeps_triangles;
