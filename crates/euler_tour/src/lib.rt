//! Tours: walks that pass each line of a piece a given number of times. The crate also has the lists of line
//! ends that they go along.
//!
//! ```
//! use drawing_text::read_drawing;
//! use euler_tour::tour;
//! use line_graph::pieces;
//!
//! let text = b"redwork 3\ncolor 5\nline 0 0 50 0\n";
//! let drawing = read_drawing(alloc, text).ok().ok_or("no drawing")?;
//! let pieces = pieces(alloc, &drawing)?;
//! // the line once more than once: there and back
//! assert_eq!(rt; tour(alloc, &pieces.as_slice()[0], &[1])?.len(), 2);
//! ```
#![tactic(auto)]

mod closed_walk;
mod line_ends;
mod partial_tour;
mod remaining_lines;

pub use closed_walk::tour;
pub use line_ends::{LineEnds, chain, skip_end};
