//! The commands of `stitch`: the steps of each over a store and two sinks.
//!
//! ```
//! use outside_io::{MemSink, MemStore};
//! use stitch_cli::{Status, run_stitch};
//!
//! let mut words = Vec::new(alloc);
//! for word in ["sample", "5", "a.rw"] {
//!     words.push(String::from_str(alloc, word)?)?;
//! }
//! let mut store = MemStore::new(alloc);
//! store.prepare("a.rw", 10_000)?;
//! let mut out = MemSink::new(alloc, 1_000)?;
//! let mut err = MemSink::new(alloc, 1_000)?;
//! let status = run_stitch(alloc, &words, &mut store, &mut out, &mut err)?;
//! assert!(rt; status == Status::Done);
//! assert!(rt; store.file("a.rw").is_some());
//! ```
#![tactic(auto)]

mod change_faults;
mod changes;
mod checking;
mod commands;
mod edits;
mod headline;
mod hooping;
mod migrating;
mod refits;
mod rewriting;
mod running;
mod sampling;
mod sewing;
mod showing;
mod stitch_run;
mod tracing;

pub use command_words::{Request, request};
pub use headline::outcomes_mean_headline;
pub use program_shell::{Failure, Output, Product, Status};
pub use program_texts::USAGE;
pub use route_texts::{PieceReport, Summary};
pub use running::{name, run};
pub use sample_drawings::sample_drawing;
pub use stitch_run::run_stitch;
