//! Lines in colour blocks, and the sections that they are cut into at points that their block lists more
//! than once.
//!
//! ```
//! use design_model::{Items, Point};
//! use line_sections::{Line, sections};
//!
//! // the long line is cut where the short one begins
//! let mut long = Items::new(alloc);
//! long.append(&[Point { x: 0, y: 0 }, Point { x: 50, y: 0 }, Point { x: 99, y: 0 }])?;
//! let mut short = Items::new(alloc);
//! short.append(&[Point { x: 50, y: 0 }, Point { x: 50, y: 50 }])?;
//! let lines = [Line::new(0, long), Line::new(0, short)];
//! assert_eq!(rt; sections(alloc, &lines)?.len(), 3);
//! ```
#![tactic(auto)]

mod cut_lines;
mod line;
mod line_extents;
mod listed_points;
mod spot;
mod theorems;
mod whole_lines;

pub use cut_lines::sections;
pub use line::Line;
pub use line_extents::lines_extent;
pub use spot::Spot;
pub use theorems::{sections_are_whole, sections_keep_segments, whole_lines_stay};
pub use whole_lines::are_whole;
