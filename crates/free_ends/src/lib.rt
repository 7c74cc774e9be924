//! The best start and end of a walk over a piece: with no others is a walk over all its lines shorter. Drawings
//! whose pieces get them.
//!
//! ```
//! use drawing_text::read_drawing;
//! use free_ends::best_ends;
//! use line_graph::pieces;
//!
//! // a line of two steps: two stitches from end to end, four there and back
//! let text = b"redwork 3\ncolor 5\nline 0 0 50 0\n";
//! let drawing = read_drawing(alloc, text).ok().ok_or("no drawing")?;
//! let pieces = pieces(alloc, &drawing)?;
//! let best = best_ends(alloc, &pieces.as_slice()[0])?;
//! assert_eq!(rt; best.cost, 2);
//! assert_eq!(rt; best.closed, 4);
//! ```
#![tactic(auto)]

mod end_choice;
mod free_distances;
mod free_theorems;
mod freed_drawing;
mod joined_lines;
mod mates;
mod piece_ends;

pub use end_choice::{BestEnds, MAX_ODD, WalkEnds, best_ends};
pub use free_theorems::found_ends_are_taken;
pub use freed_drawing::{FreedDrawing, free};
pub use joined_lines::{JoinedLines, join_lines};
pub use piece_ends::{PieceEnds, ends_of_pieces};
