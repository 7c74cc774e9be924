//! Spaced lines of drawings: the fewest and most even stitches that stand for the points, and the sections keep their ends.
//!
//! ```
//! use drawing_text::read_lines;
//! use spaced_lines::{SpacingLimits, space};
//!
//! let text = b"redwork 3\ncolor 5\nline 0 0 6 0 12 1 18 1 24 1 30 2 36 3 42 4 48 5\n";
//! let read = read_lines(alloc, text).ok().ok_or("no drawing")?;
//! let limits = SpacingLimits { length: None, leeway: None };
//! let spaced = space(alloc, limits, &read.drawing, &[], &[]).ok().ok_or("refused")?;
//! assert_eq!(rt; spaced.drawn.line_points(0).len(), 3);
//! ```
#![tactic(auto)]

mod best;
mod best_choices;
mod junction_spots;
mod lone_stitches;
mod point_choice;
mod spaced_answers;
mod spaced_drawing;
mod spacing;
mod spacing_rule;
mod spacing_theorems;

pub use spaced_answers::{spaced_lines_keep_limits, spacing_refuses_none};
pub use spaced_drawing::{SpacedDrawing, space};
pub use spacing_rule::{MAX_LEFT_OUT, SpacingLimits, SpacingRule};
pub use spacing_theorems::{
    spaced_lines_are_best, spaced_lines_keep_points, spaced_lines_save_steps,
    spaced_sections_keep_ends,
};
