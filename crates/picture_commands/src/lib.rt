//! The commands of `stitch_picture`: the picture of the design of a stitch file, of a drawing, or of the proof of a
//! certificate.
//!
//! ```
//! use outside_io::{MemSink, MemStore};
//! use picture_commands::run_picture;
//! use program_shell::Status;
//!
//! let mut words = Vec::new(alloc);
//! for word in ["a.rw", "a.svg"] {
//!     words.push(String::from_str(alloc, word)?)?;
//! }
//! let mut store = MemStore::new(alloc);
//! store.put_file("a.rw", b"redwork 3\ncolor 5\nline 0 0 50 0\n")?;
//! store.prepare("a.svg", 100_000)?;
//! let mut out = MemSink::new(alloc, 1_000)?;
//! let mut err = MemSink::new(alloc, 1_000)?;
//! let status = run_picture(alloc, &words, &mut store, &mut out, &mut err)?;
//! assert!(rt; status == Status::Done);
//! ```
#![tactic(auto)]

mod cloth_words;
mod drawing;
mod drawn;
mod mistake;
mod picture_names;
mod picture_run;
mod proving;
mod running;
mod size_words;
mod usage;
mod words;

pub use mistake::{Misfit, Mistake};
pub use picture_run::run_picture;
pub use running::{PROGRAM, run};
pub use words::{PictureRequest, request};
