//! What all programs have in common: exit statuses, failures, the writing of outputs, and the lines about what failed.
//!
//! ```
//! use design_model::Bytes;
//! use outside_io::{MemSink, MemStore};
//! use program_shell::{Status, bytes_of, finish, only_report};
//!
//! let product = only_report(alloc, bytes_of(alloc, b"pieces 1\n")?);
//! let mut store = MemStore::new(alloc);
//! let mut out = MemSink::new(alloc, 100)?;
//! let mut err = MemSink::new(alloc, 100)?;
//! let status = finish(b"stitch", b"usage", Ok(product), &mut store, &mut out, &mut err);
//! assert!(rt; status == Status::Done);
//! assert!(rt; out.taken() == b"pieces 1\n".as_slice());
//! ```
#![tactic(auto)]

mod delivery;
mod failure;
mod file_texts;
mod finishing;
mod messages;
mod product;
mod putting;
mod starting;
mod status;

pub use failure::{Failure, Step, refusal, refused};
pub use file_texts::{describe_file, describe_part, describe_read_fault, refused_part};
pub use finishing::finish;
pub use product::{
    Made, Output, Product, bytes_of, one_output, only_report, text_bytes, two_outputs,
};
pub use starting::start;
pub use status::Status;
