//! The picture of a drawing, with a grid, the numbers of its lines and pieces, its junctions, and the places where
//! lines should meet. The picture of a proof that no thread has fewer stitches: the walks of its certificate as they
//! are sewn, with the cuts as bands.
//!
//! ```
//! use drawing_picture::picture_of_drawing;
//! use drawing_text::read_lines;
//!
//! let text = b"redwork 3\ncolor 5\nline 0 0 50 0\n";
//! let read = read_lines(alloc, text).ok().ok_or("no drawing")?;
//! let svg = picture_of_drawing(alloc, &read.drawing, read.drawing.lines(), None)?;
//! assert!(rt; svg.as_slice().starts_with(b"<svg"));
//! ```
#![tactic(auto)]

mod band_texts;
mod bands;
mod certificate_check;
mod dots;
mod drawing_captions;
mod drawn_picture;
mod grid;
mod half_steps;
mod junction_marks;
mod label_order;
mod label_texts;
mod labels;
mod line_bands;
mod line_paths;
mod place_marks;
mod proof_captions;
mod proof_picture;
mod theorems;

pub use certificate_check::{ProofFault, picture_of_proof};
pub use drawn_picture::picture_of_drawing;
pub use theorems::{bands_show_loads, drawings_are_shown};
