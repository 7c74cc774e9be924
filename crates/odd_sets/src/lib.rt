//! Odd sets of vertices in a slab, with their distances: blossoms, matches and the branches of a tree, and how
//! sets become one blossom or come out of one.
//!
//! ```
//! use odd_sets::{DistTable, has};
//!
//! let mut table = DistTable::new(alloc, 4)?;
//! table.set(0, 3, 7);
//! assert_eq!(rt; table.get(3, 0), 7);
//! assert!(rt; has(&[4, 1, 3], 1));
//! ```
#![tactic(auto)]

mod blossom;
mod branches;
mod expanding;
mod heights;
mod matches;
mod odd_set;
mod opening;
mod shrinking;
mod slack_rows;
mod table;

pub use branches::{Branch, augment, grow};
pub use expanding::expand;
pub use heights::{lower_inners, raise, raise_outers};
pub use matches::{Match, take_match};
pub use odd_set::{Handle, Sets, TightEdge, has, single};
pub use opening::{OpenedSet, open_at};
pub use shrinking::shrink;
pub use slack_rows::{far_cells, lower_slack, merge, put};
pub use table::{DistTable, FAR, MAX_DISTANCE, MAX_PLACES};
