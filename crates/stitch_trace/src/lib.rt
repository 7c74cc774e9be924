//! Traces a design: makes a drawing in which each link between two needle points is drawn once, in chains
//! that become lines and are cut into sections.
//!
//! ```
//! use design_model::{Command, Design, Point};
//! use stitch_trace::trace;
//!
//! // a stitch and the stitch back are one line
//! let mut design = Design::new(alloc);
//! for x in [0, 20, 0] {
//!     design.push(Command::Stitch(Point { x, y: 0 }))?;
//! }
//! let drawing = trace(alloc, &design).ok().ok_or("refused")?;
//! assert_eq!(rt; drawing.line_count(), 1);
//! ```
#![tactic(auto)]

mod chains;
mod drawing_of_strands;
mod links;
mod needle_moves;
mod new_links;
mod strands;
mod theorems;
mod trace_fault;
mod traced_drawing;

pub use links::Link;
pub use needle_moves::NeedleMove;
pub use strands::{Chains, Strand};
pub use theorems::{counts_are_limits, links_are_drawn, new_links_are_distinct};
pub use trace_fault::TraceFault;
pub use traced_drawing::trace;
