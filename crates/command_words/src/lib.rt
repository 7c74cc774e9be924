//! The requests that the arguments of the program represent: commands, file names, and edits of a design. No
//! function allocates.
//!
//! ```
//! use command_words::{parse_integer, parse_natural, parse_point};
//! use design_model::Point;
//!
//! assert!(rt; parse_integer(60_000, b"-25") == Some(-25));
//! assert!(rt; parse_natural(1, 4, b"5") == None);
//! assert!(rt; parse_point(30_000, b"3,-4") == Some(Point { x: 3, y: -4 }));
//! ```
#![tactic(auto)]

mod edit_words;
mod names;
mod number_words;
mod request_words;
mod requests;

pub use edit_words::{Edit, parse_edit, parse_point};
pub use names::{FileNames, RouteNames, file_name, file_names, named_rest, only_name, route_names};
pub use number_words::{parse_integer, parse_natural};
pub use request_words::{MAX_SAMPLE, MAX_SIDE, request};
pub use requests::Request;
