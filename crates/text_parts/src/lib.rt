//! The parts of a text: the bytes between marks of one kind, the lines of a text, and the words of a line.
//!
//! ```
//! use text_parts::{equals_text, split_first};
//!
//! let (word, rest) = split_first(b"needle 3 4", b' ').ok_or("no blank")?;
//! assert!(rt; equals_text(word, "needle"));
//! assert!(rt; rest == b"3 4".as_slice());
//! ```
#![tactic(auto)]

mod splits;
mod words;

pub use splits::{length_before, line_length, split_first, split_line};
pub use words::equals_text;
