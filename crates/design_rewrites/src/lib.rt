//! Designs whose acts are rewritten one after another: what the result of such a rewrite is, and the one loop over the acts.
//!
//! ```
//! use design_model::{Act, Design, Point};
//! use design_rewrites::put_act;
//!
//! // a float to a needle, and the needle
//! let mut design = Design::new(alloc);
//! let act = Act::Needle { at: Point { x: 9, y: 9 }, float: true };
//! assert!(rt; put_act(&mut design, act).is_ok());
//! assert_eq!(rt; design.commands().len(), 2);
//! ```
#![tactic(auto)]

mod act_edit;
mod commands_out;
mod rewrite_fault;
mod rewriting;
mod theorems;
mod threads;

pub use act_edit::ActEdit;
pub use commands_out::{put_act, put_command};
pub use rewrite_fault::RewriteFault;
pub use rewriting::{rewrite, rewrite_onto};
pub use theorems::{acts_of_commands_stay, design_acts_are_in_order};
pub use threads::{is_thread_end, next_needle};
