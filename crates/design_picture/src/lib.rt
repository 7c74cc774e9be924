//! The picture of a design: an SVG text that a browser shows. It has the stitches in the colours of their threads,
//! with what is sewn again beside what was sewn before, and marks where pieces, threads, trims and stops are.
//!
//! ```
//! use design_model::{Command, Design, Point};
//! use design_picture::picture;
//!
//! let mut design = Design::new(alloc);
//! design.push(Command::Stitch(Point { x: 0, y: 0 }))?;
//! design.push(Command::Stitch(Point { x: 20, y: 0 }))?;
//! let svg = picture(alloc, &design, None, None)?;
//! assert!(rt; svg.as_slice().starts_with(b"<svg"));
//! ```
#![tactic(auto)]

mod arrow_squares;
mod block_line;
mod caption;
mod crowds;
mod hoop;
mod layers;
mod layout;
mod links;
mod marks;
mod pen;
mod plain;
mod sewn_stitches;
mod showing;
mod strokes;
mod theorems;
mod threads;

pub use block_line::{LINE_HEIGHT, put_block_start};
pub use caption::put_group_end;
pub use hoop::{Hoop, Rim};
pub use layers::{Layer, put_path_layer};
pub use layout::{Area, area_of, put_below_start, put_top};
pub use pen::Pen;
pub use plain::plain_picture;
pub use showing::{picture, put_below, put_design_top, put_over, put_seconds, put_threads};
pub use strokes::{BlockEnd, PieceStart, SewnStitch, Stroke, Strokes, put_strokes};
pub use theorems::strokes_show_acts;
