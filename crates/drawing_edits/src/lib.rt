//! Edits of a drawing: shifts, turns, mirrorings, centring, another longest step, starts and ends at points, and
//! another order of the pieces.
//!
//! ```
//! use design_edits::{Axis, Motion};
//! use design_model::Point;
//! use drawing_edits::{DrawingEdit, edit_drawing};
//! use drawing_text::read_drawing;
//!
//! let text = b"redwork 3\ncolor 5\nline 0 0 50 0\n";
//! let drawing = read_drawing(alloc, text).ok().ok_or("no drawing")?;
//! let edited = edit_drawing(alloc, &drawing, DrawingEdit::Step(50)).ok().ok_or("refused")?;
//! assert_eq!(rt; edited.step(), 50);
//! ```
#![tactic(auto)]

mod drawing_edit;
mod drawing_extent;
mod edit_fault;
mod end_theorems;
mod line_cuts;
mod line_lists;
mod moved_lines;
mod order_theorems;
mod piece_orders;
mod placed_ends;
mod redraw_theorems;
mod redrawing;

pub use drawing_edit::{DrawingEdit, edit_drawing};
pub use edit_fault::EditFault;
pub use end_theorems::{edits_keep_ends_by_block, placed_ends_are_kept, redrawn_has_ends};
pub use order_theorems::{orders_keep_lines, pieces_come_before, pieces_in_order_are_pieces};
pub use redraw_theorems::{
    lines_in_order_are_drawn, lines_within_limits_are_drawn, valid_drawings_are_redrawn,
};
pub use redrawing::{draw_lines, joined_with_ends};
