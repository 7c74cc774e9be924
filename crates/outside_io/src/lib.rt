//! The outside of the program: stores of named files and sinks of bytes, as traits, in memory and real.
//! Entire files are read and written here.
//!
//! ```
//! use outside_io::{MemStore, read_whole, write_whole};
//!
//! let mut store = MemStore::new(alloc);
//! store.prepare("out.lst", 100)?;
//! assert!(rt; write_whole(&mut store, "out.lst", b"stitches").is_ok());
//! let bytes = read_whole(alloc, &mut store, "out.lst", 100).ok().ok_or("no file")?;
//! assert!(rt; bytes.as_slice() == b"stitches".as_slice());
//! ```
#![tactic(auto)]

mod arguments;
mod blame;
mod dir_store;
mod entries;
mod entry;
mod file_names;
mod limits;
mod links;
mod mem_sink;
mod mem_store;
mod new_file;
mod real_files;
mod sink;
mod std_sink;
mod store;
mod turns;
mod used_files;
mod whole_files;
mod writing;

pub use arguments::program_words;
pub use blame::{CallKind, FaultLog};
pub use dir_store::DirStore;
pub use file_names::is_name;
pub use limits::MAX_NAME;
pub use mem_sink::MemSink;
pub use mem_store::{MemStore, copy_from};
pub use sink::Sink;
pub use std_sink::StdSink;
pub use store::{Failed, ReadStop, Store};
pub use whole_files::{GetFault, READ_SIZE, read_next, read_whole, write_whole};
