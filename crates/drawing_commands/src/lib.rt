//! The commands of `stitch_drawing`: their arguments, their plans, what they print, and `run`.
//!
//! ```
//! use drawing_commands::{Status, run};
//! use outside_io::{MemSink, MemStore};
//!
//! let mut words = Vec::new(alloc);
//! for word in ["look", "a.rw"] {
//!     words.push(String::from_str(alloc, word)?)?;
//! }
//! let mut store = MemStore::new(alloc);
//! store.put_file("a.rw", b"redwork 3\ncolor 5\nline 0 0 50 0\n")?;
//! let mut out = MemSink::new(alloc, 1_000)?;
//! let mut err = MemSink::new(alloc, 1_000)?;
//! let status = run(alloc, &words, &mut store, &mut out, &mut err);
//! assert!(rt; status == Status::Done);
//! assert!(rt; out.taken().starts_with(b"size 50 0 pieces 1\n"));
//! ```
#![tactic(auto)]

mod applied_edits;
mod bad_edit;
mod commands;
mod drawing_edit_words;
mod edit_comments;
mod edit_failures;
mod edited_files;
mod editing;
mod freeing;
mod looking;
mod meet_failures;
mod meeting;
mod mistake;
mod near_files;
mod orders_alone;
mod requests;
mod running;
mod space_failures;
mod space_words;
mod spacing;
mod text_commands;
mod text_reading;
mod usage;
mod version_one;
mod whole_files;

pub use mistake::{Misfit, Mistake};
pub use program_shell::Status;
pub use requests::{DrawingRequest, MAX_GAP, drawing_request};
pub use running::{NAME, run};
