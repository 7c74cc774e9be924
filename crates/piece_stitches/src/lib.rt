//! The stitches of a drawing's pieces, each line sewn once: how many, how long, how much thread; and the travel
//! from piece to piece.
//!
//! ```
//! use drawing_text::read_drawing;
//! use line_graph::pieces;
//! use piece_stitches::piece_stitches;
//!
//! let text = b"redwork 3\ncolor 5\nline 0 0 50 0\nline 50 0 50 30\n";
//! let drawing = read_drawing(alloc, text).ok().ok_or("no drawing")?;
//! let pieces = pieces(alloc, &drawing)?;
//! let stitches = piece_stitches(alloc, &drawing, pieces.as_slice())?;
//! assert_eq!(rt; stitches.as_slice()[0].summary.stitches, 4);
//! ```
#![tactic(auto)]

mod counting;
mod stitch_summary;
mod summing;
mod travelling;

pub use counting::{PieceStitches, piece_stitches, thread_of, travel_of};
pub use stitch_summary::StitchSummary;
