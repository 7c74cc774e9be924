//! Thumbnails of designs, as machines show them: 48 by 38 points for the entire design, then for each block.
//!
//! ```
//! use design_model::{Command, Design, Point};
//! use thumbnails::{ROWS, drawn_thumbnails};
//!
//! // of the design and of its one block: rows of 48 points, 8 in a byte
//! let mut design = Design::new(alloc);
//! design.push(Command::Stitch(Point { x: 3, y: 4 }))?;
//! assert_eq!(rt; drawn_thumbnails(alloc, &design)?.len(), 2 * 6 * ROWS as usize);
//! ```
#![tactic(auto)]

mod lit_points;
mod packing;
mod redrawing;
mod scaling;
mod sketch;
mod theorems;

pub use packing::ROWS;
pub use redrawing::with_thumbnails;
pub use sketch::drawn_thumbnails;
pub use theorems::{tails_are_not_read, thumbnails_are_not_read};
