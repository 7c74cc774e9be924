//! The comments of a drawing text: which block or line each belongs to, and a text with comments before its lines.
//!
//! ```
//! use drawing_comments::{find_comments, has_no_line_comments};
//!
//! let comments = find_comments(alloc, b"redwork 3\ncolor 5\n# a stem\nline 0 0 40 40\n")?;
//! assert!(rt; !has_no_line_comments(&comments));
//! assert!(rt; comments.lines.as_slice()[0].as_slice() == b"# a stem\n".as_slice());
//! ```
#![tactic(auto)]

mod finding;
mod marks;
mod moving;
mod ordering;
mod text_comments;
mod theorems;
mod writing;

pub use finding::find_comments;
pub use moving::{comments_of_blocks, has_no_line_comments, spread_comments};
pub use ordering::{cut_comments, order_comments};
pub use text_comments::TextComments;
pub use theorems::{
    comments_keep_lines, cuts_keep_comments, found_are_comments, parts_keep_comments,
    sections_keep_comments, spoken_lines_decide,
};
pub use writing::put_comments;
