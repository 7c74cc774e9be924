//! What pictures are made of: SVG texts in parts, paths and marks, the colours and names of threads, and the
//! sheet that a picture is drawn on.
//!
//! ```
//! use design_model::{Bytes, Point};
//! use picture_parts::{Part, put, thread_name};
//!
//! let mut text = Bytes::new(alloc);
//! put(&mut text, b"<path d='M@h@'/>", &[Part::At(Point { x: 3, y: 4 }), Part::Number(9)])?;
//! assert!(rt; text.as_slice() == b"<path d='M3,4h9'/>".as_slice());
//! assert!(rt; thread_name(5) == b"Red".as_slice());
//! ```
#![tactic(auto)]

mod again_colours;
mod backwards;
mod colours;
mod escapes;
mod marks;
mod parts;
mod paths;
mod plain_sheet;
mod sheet;
mod sizes;
mod thread_names;

pub use again_colours::again_colour;
pub use colours::thread_colour;
pub use escapes::put_escaped;
pub use marks::{Mark, put_mark};
pub use parts::{Part, put, put_around};
pub use paths::{
    put_coloured_path, put_move, put_path_end, put_path_start, put_radii, put_straight,
};
pub use plain_sheet::{put_plain_foot, put_plain_head, put_plain_title};
pub use sheet::{Sheet, put_foot, put_head};
pub use sizes::{PictureSize, put_scale};
pub use thread_names::thread_name;
