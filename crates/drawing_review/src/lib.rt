//! Segments of a drawing's lines, with coordinates that are never negative: whether a point is near one, on which side it
//! lies, which points segments join, and strips that segments lie beside.
//!
//! ```
//! use design_model::Point;
//! use drawing_review::{Position, comes_near, counted_from_least, segment_at};
//!
//! let at = Position { block: 0, line: 0, number: 0, is_first: true, is_last: true };
//! let segment = segment_at(at, Point { x: 0, y: 0 }, Point { x: 90, y: 30 });
//! assert!(rt; comes_near(2, counted_from_least(Point { x: 31, y: 9 }), &segment));
//! assert!(rt; !comes_near(2, counted_from_least(Point { x: 31, y: 5 }), &segment));
//! ```
#![tactic(auto)]

mod frame;
mod grid_point;
mod joined_points;
mod joints;
mod segment;
mod sides;
mod strip;

pub use grid_point::{GridPoint, counted_from_least};
pub use joined_points::JoinedPoints;
pub use joints::points_joined;
pub use segment::{LineSegment, Position, segment_at};
pub use sides::{clockwise, comes_near, counter, times};
pub use strip::{Direction, Strip};
