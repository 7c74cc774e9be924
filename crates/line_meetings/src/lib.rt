//! Where lines of a block should meet and don't: points that nearly meet, points beside segments, crossings,
//! segments that share more than a point, and segments that are drawn again.
//!
//! ```
//! use drawing_text::read_drawing;
//! use line_meetings::{MeetingKind, find_meetings};
//!
//! let text = b"redwork 3\ncolor 5\nline 0 0 40 40\nline 0 40 40 0\n";
//! let drawing = read_drawing(alloc, text).ok().ok_or("no drawing")?;
//! let found = find_meetings(alloc, drawing.lines(), 2)?;
//! assert!(rt; found.as_slice()[0].kind == MeetingKind::Crossing);
//! ```
#![tactic(auto)]

mod area;
mod bounds;
mod copies;
mod finding;
mod group;
mod indexed_part;
mod known_points;
mod meeting;
mod meetings;
mod outline;
mod part_core;
mod part_key;
mod part_order;
mod part_tree;
mod parts;
mod query;
mod region;
mod span;
mod touches;

pub use finding::find_meetings;
pub use meeting::{MAX_MEETINGS, Meeting, MeetingKind, Meetings};
