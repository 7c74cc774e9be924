//! Straight segments of stitching, split into short enough steps, and designs whose acts are changed to
//! suit a format.
//!
//! ```
//! use design_model::Point;
//! use step_splitter::split;
//!
//! // 60 tenths in stitches of at most 25: three of 20
//! let points = split(alloc, Point { x: 0, y: 0 }, Point { x: 60, y: 0 }, 25)?;
//! assert_eq!(rt; points.len(), 3);
//! assert!(rt; points.as_slice()[0] == Point { x: 20, y: 0 });
//! ```
#![tactic(auto)]

mod refit_state;
mod refitting;
mod segment;
mod segment_points;
mod theorems;

pub use refitting::{RefitFault, RefitMode, refit};
pub use segment::{MAX_STEP, split, split_into, steps};
pub use theorems::split_points_lead;
