//! The fit of a design in a hoop.
//!
//! ```
//! use design_model::{Command, Design, Point};
//! use hoop_check::{Fit, fits};
//!
//! let mut design = Design::new(alloc);
//! design.push(Command::Stitch(Point { x: 0, y: 0 }))?;
//! design.push(Command::Stitch(Point { x: 1200, y: 900 }))?;
//! assert!(rt; fits(&design, 1000, 1300) == Fit::Turned);
//! ```
#![tactic(auto)]

mod fitting;

pub use fitting::{Fit, fits};
