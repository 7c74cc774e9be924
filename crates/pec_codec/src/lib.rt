//! The PEC block of PEC and PES files: a header of 528 bytes, records of two to four bytes, and blank
//! thumbnails. The y of a block points downwards, as that of a design.
//!
//! ```
//! use design_model::{Command, Design, Point};
//! use pec_codec::{read_block, write_block};
//!
//! let mut design = Design::new(alloc);
//! design.push(Command::Stitch(Point { x: 3, y: 4 }))?;
//! let block = write_block(alloc, &design).ok().ok_or("refused")?;
//! let read = read_block(alloc, block.as_slice(), 0).ok().ok_or("no block")?;
//! assert!(rt; read.design.commands().ends_with(&[Command::Stitch(Point { x: 3, y: 4 })]));
//! ```
#![tactic(auto)]

mod block;
mod block_reader;
mod coordinate;
mod header;
mod pec_records;
mod reading;
mod record_decoding;
mod record_encoding;
mod theorems;
mod writing;

pub use block::{HEADER_LENGTH, LABELS_LENGTH, LIMIT, MAX_STOPS, THUMBNAIL_LENGTH};
pub use block_reader::BlockReader;
pub use reading::read_block;
pub use theorems::blocks_read_back;
pub use writing::write_block;
