//! Embroidery designs: points, commands, the acts computed from them, lengths of lines. What all crates share: lists that grow, whole
//! numbers in texts, the error of a lack of memory, the greatest length of a file, and lemmas on plain lists.
//!
//! ```
//! use design_model::{Command, Design, Point, counts, extent, width};
//!
//! let mut design = Design::new(alloc);
//! design.push(Command::Stitch(Point { x: -5, y: 0 }))?;
//! design.push(Command::Stitch(Point { x: 20, y: 8 }))?;
//! design.push(Command::Trim)?;
//! assert_eq!(rt; counts(&design).needles, 2);
//! assert_eq!(rt; width(extent(&design)), 25);
//! ```
#![tactic(auto)]

mod act;
mod act_lists;
mod act_scanner;
mod backwards;
mod block_needles;
mod bounds;
mod command;
mod decimals;
mod design;
mod design_counts;
mod design_extent;
mod items;
mod lengths;
mod limits;
mod lists;
mod memory;
mod point;
mod tally;
mod thread_state;
mod whole_number;

pub use act::{Act, NumberedAct};
pub use act_lists::acts;
pub use act_scanner::ActScanner;
pub use backwards::{byte_before, number_before};
pub use block_needles::block_counts;
pub use bounds::{Extent, height, width};
pub use command::Command;
pub use decimals::put_decimal;
pub use design::{Design, MAX_COMMANDS, MAX_LABEL, MAX_THREADS, ModelFault};
pub use design_counts::counts;
pub use design_extent::{extent, extent_over};
pub use items::{Bytes, Items, Numbers};
pub use lengths::{length_between, square_between};
pub use limits::MAX_FILE;
pub use lists::{Acts, Commands, Points};
pub use memory::Memory;
pub use point::{JUMP_LIMIT, NEEDLE_LIMIT, Point};
pub use tally::Counts;
pub use thread_state::ThreadState;
pub use whole_number::{MAX_WHOLE, Whole, are_digits, capped_value, parse_whole, signed};
