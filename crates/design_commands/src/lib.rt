//! The commands of `stitch_design`: their arguments, their plans, what they print, and `run`.
//!
//! ```
//! use design_commands::{Status, run_design};
//! use outside_io::{MemSink, MemStore};
//!
//! let mut words = Vec::new(alloc);
//! words.push(String::from_str(alloc, "threads")?)?;
//! let mut store = MemStore::new(alloc);
//! let mut out = MemSink::new(alloc, 10_000)?;
//! let mut err = MemSink::new(alloc, 1_000)?;
//! let status = run_design(alloc, &words, &mut store, &mut out, &mut err)?;
//! assert!(rt; status == Status::Done);
//! assert!(rt; out.taken().ends_with(b"\n"));
//! ```
#![tactic(auto)]

mod commands;
mod comparing;
mod design_output;
mod design_run;
mod difference_texts;
mod edit_refusals;
mod editing;
mod limit_words;
mod listing;
mod look_texts;
mod looking;
mod mistake;
mod passing;
mod place_texts;
mod requests;
mod running;
mod thread_texts;
mod thumbnail_output;
mod usage;

pub use design_run::run_design;
pub use limit_words::MAX_LIMIT;
pub use mistake::{Misfit, Mistake};
pub use program_shell::Status;
pub use requests::{DesignRequest, request};
pub use running::{NAME, run};
