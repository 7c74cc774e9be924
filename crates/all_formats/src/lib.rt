//! The five formats of the programs, and the objects of them.
//!
//! ```
//! use all_formats::StitchFormats;
//! use format_traits::Format;
//!
//! let formats = StitchFormats::new(alloc)?;
//! assert!(rt; formats.dst.ext() == "dst");
//! assert_eq!(rt; formats.dst.limit(), 121);
//! ```
#![tactic(auto)]

mod making;
mod theorems;

pub use making::StitchFormats;
pub use theorems::{all_labels_and_threads_round_trip, all_written_reads_again};
