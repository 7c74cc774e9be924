//! Double walks: walks that sew each line of a piece once in each direction, as reversible work is sewn.
//!
//! ```
//! use double_run::double;
//! use drawing_text::read_drawing;
//! use line_graph::pieces;
//!
//! let text = b"redwork 3\ncolor 5\nline 0 0 50 0\nline 50 0 50 30\n";
//! let drawing = read_drawing(alloc, text).ok().ok_or("no drawing")?;
//! let pieces = pieces(alloc, &drawing)?;
//! assert_eq!(rt; double(alloc, &pieces.as_slice()[0])?.len(), 4);
//! ```
#![tactic(auto)]

mod double_walk;
mod legs;
mod traversal;

pub use double_walk::double;
