//! The input files of all programs: bytes, designs, drawings and certificates. A file that is not read, or that is not
//! what it should be, is a failure with the text about its first fault.
//!
//! ```
//! use outside_io::MemStore;
//! use program_inputs::drawing_in;
//!
//! let mut store = MemStore::new(alloc);
//! store.put_file("a.rw", b"redwork 3\ncolor 5\nline 0 0 50 0\n")?;
//! let drawing = drawing_in(alloc, &mut store, "a.rw").ok().ok_or("no drawing")?;
//! assert_eq!(rt; drawing.line_count(), 1);
//! ```
#![tactic(auto)]

mod certificate_files;
mod drawing_files;
mod drawing_lines;
mod fault_failures;
mod format_indexes;
mod loading;
mod reading;

pub use certificate_files::cert_in;
pub use drawing_files::{drawing_as2_in, drawing_in};
pub use drawing_lines::lines_in;
pub use drawing_text::LinesRead;
pub use format_indexes::{Found, format_at, load_at, load_found};
pub use reading::read_input;
