//! Values that tests of several crates make.
//!
//! ```
//! use design_model::{Command, Point};
//! use test_values::design_of;
//!
//! let design = design_of(alloc, &[Command::Stitch(Point { x: 3, y: 4 }), Command::Trim])?;
//! assert_eq!(rt; design.commands().len(), 2);
//! ```
#![tactic(auto)]

mod large_designs;
mod repeated_bytes;
mod sewn_designs;

pub use large_designs::large;
pub use repeated_bytes::repeated;
pub use sewn_designs::design_of;
