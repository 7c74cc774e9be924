//! Reports on drawings. That of `look`: its size, its pieces with their stitches, the places where lines should meet and don't,
//! and the lines with short stitches. Those of `snap` and `cross`, of `space`, and of `free`: the best ends. The shortest and the
//! longest stitch of lines.
//!
//! ```
//! use drawing_reports::length_span;
//! use drawing_text::read_drawing;
//!
//! let text = b"redwork 3\ncolor 5\nline 0 0 50 0 50 8\n";
//! let drawing = read_drawing(alloc, text).ok().ok_or("no drawing")?;
//! let span = length_span(drawing.lines());
//! // in thousandths of a millimetre
//! assert_eq!(rt; span.shortest, 800);
//! assert_eq!(rt; span.longest, 5_000);
//! ```
#![tactic(auto)]

mod free_texts;
mod length_spans;
mod look_texts;
mod meeting_texts;
mod place_texts;
mod short_segments;
mod space_texts;
mod spacing;

pub use free_texts::describe_free;
pub use length_spans::{LengthSpan, length_span};
pub use look_texts::describe_look;
pub use meeting_texts::{describe_cross, describe_snap};
pub use short_segments::short_spacings;
pub use space_texts::describe_space;
pub use spacing::{Spacing, Spacings};
