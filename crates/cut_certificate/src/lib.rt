//! Moats over the odd junctions of a piece, lifted to a packing of odd cuts with the same total.
//!
//! ```
//! use blossom_match::{DistTable, match_all};
//! use cut_certificate::lift;
//! use drawing_text::read_drawing;
//! use line_graph::pieces;
//! use odd_paths::{odd, rows};
//!
//! let text = b"redwork 3\ncolor 5\nline 0 0 50 0\n";
//! let drawing = read_drawing(alloc, text).ok().ok_or("no drawing")?;
//! let pieces = pieces(alloc, &drawing)?;
//! let piece = &pieces.as_slice()[0];
//! let odds = odd(alloc, piece)?;
//! let rows = rows(alloc, piece, odds.as_slice())?;
//! let mut table = DistTable::new(alloc, 2)?;
//! table.set(0, 1, rows.least(0, 1));
//! let matching = match_all(alloc, &table)?;
//! assert!(rt; !lift(alloc, piece, &rows, &matching.moats)?.is_empty());
//! ```
#![tactic(auto)]

mod lifting;
mod moat_cuts;
mod moat_distances;
mod single_moat;
mod terminal_state;

pub use lifting::lift;
pub use odd_cuts::{
    Cert, Cut, CutFault, Cuts, PieceCert, PieceCerts, WalkFault, check_cuts, check_walk,
    packings_bound_walks, packings_prove_least,
};
