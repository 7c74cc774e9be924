//! The Melco EXP format: units of two or four bytes, without a header and without an end. The file's
//! y points upwards, a design's downwards.
//!
//! ```
//! use design_model::{Command, Design, Point, counts};
//! use exp_codec::Exp;
//! use format_traits::Format;
//!
//! let mut design = Design::new(alloc);
//! design.push(Command::Stitch(Point { x: 3, y: 4 }))?;
//! let file = Exp::new(alloc).encode(alloc, &design).ok().ok_or("refused")?;
//! let read = Exp::new(alloc).decode(alloc, file.as_slice()).ok().ok_or("not read")?;
//! assert_eq!(rt; counts(&read.design).needles, 1);
//! ```
#![tactic(auto)]

mod exp;
mod theorems;
mod unit_writer;
mod units;
mod writing;

pub use exp::{Exp, ExpCodec, LIMIT};
pub use theorems::written_reads_again;
