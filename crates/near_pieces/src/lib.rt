//! Drawings whose pieces are sewn in an order with little travel, each block by itself, and begin near the needle.
//!
//! ```
//! use drawing_text::read_drawing;
//! use near_pieces::near;
//!
//! // the needle goes right twice in place of there, back and there
//! let text = b"redwork 3\ncolor 5\nline 0 0 25 0\nline 300 0 325 0\nline 100 0 125 0\n";
//! let drawing = read_drawing(alloc, text).ok().ok_or("no drawing")?;
//! let near = near(alloc, &drawing)?;
//! assert!(rt; near.after < near.before);
//! ```
#![tactic(auto)]

mod changes;
mod drawn_whole;
mod estimates;
mod exhaustive;
mod least_travel;
mod local_search;
mod near_choices;
mod near_drawing;
mod near_lines;
mod near_theorems;
mod node;
mod ordering;
mod piece_places;
mod piece_runs;
mod redrawn_lines;
mod start_orders;
mod stop;
mod tracks;
mod travel_totals;
mod travelling;
mod visit;

pub use near_drawing::{NearDrawing, near};
pub use near_theorems::{near_drawings_keep_pieces, near_pieces_keep_costs, near_pieces_stay};
