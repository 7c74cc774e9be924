//! Edits of a design, one after another: what they make of it, and the arguments that they are written as.
//!
//! ```
//! use design_model::{Command, Design, Point};
//! use edited_designs::edit_by_arguments;
//!
//! let mut design = Design::new(alloc);
//! design.push(Command::Stitch(Point { x: 0, y: 0 }))?;
//! design.push(Command::Stitch(Point { x: 20, y: 0 }))?;
//! let mut words = Vec::new(alloc);
//! words.push(String::from_str(alloc, "scale=150")?)?;
//! let edited = edit_by_arguments(alloc, design, &words).ok().ok_or("refused")?;
//! assert!(rt; edited.commands()[1] == Command::Stitch(Point { x: 30, y: 0 }));
//! ```
#![tactic(auto)]

mod applied;
mod design_edit;
mod design_fault;
mod edit_arguments;
mod edit_keys;
mod edit_mistakes;
mod in_order;

pub use applied::edit_design;
pub use design_edit::DesignEdit;
pub use design_fault::{BadDesignEdit, DesignFault};
pub use edit_arguments::{
    are_design_edits, draws_thumbnails, parse_design_edit, parse_design_edits,
};
pub use edit_keys::{DEFAULT_TIE, EditKey, MAX_MERGE, edit_key};
pub use edit_mistakes::{EditMistake, edit_mistake, first_mistaken_edit};
pub use in_order::{edit_by_arguments, edit_in_order};
