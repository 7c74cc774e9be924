//! The odd junctions of a piece, least costs between its junctions, and walks of least cost.
//!
//! ```
//! use drawing_text::read_drawing;
//! use line_graph::pieces;
//! use odd_paths::{odd, rows};
//!
//! let text = b"redwork 3\ncolor 5\nline 0 0 50 0\n";
//! let drawing = read_drawing(alloc, text).ok().ok_or("no drawing")?;
//! let pieces = pieces(alloc, &drawing)?;
//! let piece = &pieces.as_slice()[0];
//! let odds = odd(alloc, piece)?;
//! assert_eq!(rt; odds.len(), 2);
//! assert_eq!(rt; rows(alloc, piece, odds.as_slice())?.least(0, 1), 2);
//! ```
#![tactic(auto)]

mod cost_theorems;
mod edge_order;
mod lanes;
mod least_rows;
mod odd_junctions;
mod rounds;
mod row_table;
mod single_row;
mod sweeps;
mod terminal_blocks;
mod walk_back;

pub use cost_theorems::least_costs_are_distances;
pub use least_rows::rows;
pub use odd_junctions::{odd, odds_are_even};
pub use row_table::Rows;
