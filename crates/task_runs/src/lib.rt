//! Tasks that a program runs over files and streams in memory: the arguments and files of a run as bytes, and the reply with
//! what the run left.
//!
//! ```
//! use task_runs::{TaskFile, pack_reply, read_task};
//!
//! assert!(rt; read_task(alloc, &[]).is_err());
//! let file = TaskFile { name: "a.rw", content: b"redwork 3\n" };
//! assert!(rt; pack_reply(alloc, 0, b"", b"", &[file])?.len() > 10);
//! ```
#![tactic(auto)]

mod changed_files;
mod faults;
mod file_lists;
mod growing_sink;
mod growing_store;
mod names;
mod numbers;
mod packing;
mod parts;
mod program;
mod reading;
mod running;
mod task;
mod task_fault;

pub use growing_sink::GrowingSink;
pub use growing_store::GrowingStore;
pub use packing::pack_reply;
pub use program::TaskProgram;
pub use reading::read_task;
pub use running::{each_change_is_listed, run_task, store_has_the_files};
pub use task::{Task, TaskFile};
pub use task_fault::TaskFault;
