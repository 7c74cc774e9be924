//! Drawings whose lines list where they should meet, without copies of segments.
//!
//! ```
//! use drawing_text::read_lines;
//! use met_drawings::{MeetingRule, meet};
//!
//! // two lines that cross get the point of the crossing
//! let text = b"redwork 3\ncolor 5\nline 0 0 40 40\nline 0 40 40 0\n";
//! let read = read_lines(alloc, text).ok().ok_or("no drawing")?;
//! let rule = MeetingRule { gap: 0, lists_crossings: true, keeps_copies: false };
//! let met = meet(alloc, rule, &read.drawing, &[], &[]).ok().ok_or("refused")?;
//! assert_eq!(rt; met.counts.listed, 2);
//! assert_eq!(rt; met.joined.line_count(), 4);
//! ```
#![tactic(auto)]

mod copies;
mod listed_meetings;
mod meet_fault;
mod meeting;
mod meeting_counts;
mod passed_segments;
mod theorems;

pub use listed_meetings::MeetingRule;
pub use meet_fault::{MeetFault, VanishedLine};
pub use meeting::{MetDrawing, meet};
pub use meeting_counts::MeetingCounts;
pub use theorems::{
    left_meetings_are_found, lines_that_meet_stay, segments_are_left_once, written_lines_stay_near,
};
