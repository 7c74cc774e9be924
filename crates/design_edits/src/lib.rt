//! Edits of a design in place: shifts, turns, mirrorings and other threads. No edit allocates.
//!
//! ```
//! use design_edits::{recolour, shift};
//! use design_model::{Command, Design, Point};
//!
//! let mut design = Design::new(alloc);
//! design.push(Command::Stitch(Point { x: 3, y: 4 }))?;
//! assert!(rt; shift(&mut design, 10, -4).is_ok());
//! assert!(rt; recolour(&mut design, 0, 20).is_ok());
//! assert!(rt; design.commands()[0] == Command::Stitch(Point { x: 13, y: 0 }));
//! assert_eq!(rt; design.thread(0), 20);
//! ```
#![tactic(auto)]

mod axis;
mod colours;
mod edit_fault;
mod inverses;
mod motion;
mod moving;

pub use axis::Axis;
pub use colours::recolour;
pub use edit_fault::EditFault;
pub use inverses::{
    an_opposite_shift_restores, four_quarter_turns_restore, two_mirrorings_restore,
};
pub use motion::{MAX_SHIFT, Motion};
pub use moving::{mirror, shift, turn};
