//! Lines that list their meetings: in rounds, points become one that nearly meet, and points are put into
//! segments.
//!
//! ```
//! use drawing_text::read_drawing;
//! use meeting_rounds::{lines_of, tracked};
//!
//! let text = b"redwork 3\ncolor 5\nline 0 0 40 40\n";
//! let drawing = read_drawing(alloc, text).ok().ok_or("no drawing")?;
//! let lines = tracked(alloc, drawing.lines())?;
//! assert_eq!(rt; lines_of(alloc, &lines)?[0].points().len(), 2);
//! ```
#![tactic(auto)]

mod acts;
mod filling;
mod moved_points;
mod pinned_spots;
mod place_numbers;
mod placed_points;
mod point_bounds;
mod puts;
mod rounds;
mod segment_places;
mod spot_moves;
mod theorems;
mod tracked_lines;

pub use point_bounds::PointBounds;
pub use rounds::{MAX_ROUND_GAP, MAX_ROUNDS, WorkedLines, settled};
pub use theorems::{lines_at_rest_stay, rounds_keep_lines_near};
pub use tracked_lines::{TrackedLine, TrackedPoint, lines_of, tracked};
