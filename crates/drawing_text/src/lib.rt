//! The text of drawings: reads the drawing that a text describes or its first fault, and prints the
//! canonical text of a drawing.
//!
//! ```
//! use drawing_text::{print_drawing, read_drawing};
//!
//! let text = b"redwork 3\ncolor 5\nline 0 0 50 0\n";
//! let drawing = read_drawing(alloc, text).ok().ok_or("no drawing")?;
//! assert_eq!(rt; drawing.step(), 25);
//! // the canonical text has a label and a step
//! assert!(rt; print_drawing(alloc, &drawing)?.len() > text.len());
//! ```
#![tactic(auto)]

mod coordinate_words;
mod draft;
mod draft_reading;
mod draw_fault;
mod drawn_lines;
mod end_printing;
mod ending;
mod lines_read;
mod number_words;
mod point_words;
mod printing;
mod reading;
mod text_words;
mod theorems;
mod version;
mod walk_end;

pub use draw_fault::DrawFault;
pub use drawn_lines::{DrawnLines, read_lines};
pub use end_printing::print_drawn;
pub use lines_read::LinesRead;
pub use printing::{print_drawing, print_drawing2};
pub use reading::{read_as2, read_drawing, read_with_lines};
pub use theorems::{
    canonical_text_is_read, drawn_texts_are_read, texts_define_valid_drawings, texts_order_ends,
};
pub use version::Version;
pub use walk_end::{WalkEnd, WalkEnds};
