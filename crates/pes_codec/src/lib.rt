//! The formats PEC and PES: files whose design is in a PEC block.
//!
//! ```
//! use design_model::{Command, Design, Point};
//! use format_traits::Format;
//! use pes_codec::Pes;
//!
//! let mut design = Design::new(alloc);
//! design.push(Command::Stitch(Point { x: 3, y: 4 }))?;
//! let file = Pes::new(alloc).encode(alloc, &design).ok().ok_or("refused")?;
//! assert!(rt; file.as_slice().starts_with(b"#PES0001"));
//! ```
#![tactic(auto)]

mod block_format;
mod block_passing;
mod file_formats;
mod file_kind;
mod file_reading;
mod file_stage;
mod file_writing;
mod front;
mod theorems;

pub use block_format::BlockFormat;
pub use file_formats::{FileFormat, Pec, PecFiles, Pes, PesFiles};
pub use file_kind::FileKind;
pub use front::{OFFSET_END, PEC_BLOCK_OFFSET};
pub use theorems::{labels_and_threads_round_trip, written_reads_again};
