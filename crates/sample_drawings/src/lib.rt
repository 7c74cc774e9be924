//! Sample drawings: for each number a grid of lines, between junctions that are moved at random.
//!
//! ```
//! use sample_drawings::sample_drawing;
//!
//! let drawing = sample_drawing(alloc, 5)?;
//! assert_eq!(rt; drawing.block_count(), 1);
//! ```
#![tactic(auto)]

mod draws;
mod grid;
mod grid_lines;
mod sample;
mod segment;

pub use draws::MAX_NUMBER;
pub use sample::sample_drawing;
