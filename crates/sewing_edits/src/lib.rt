//! Edits of what a design sews: threads tied and bared, long floats cut, short trims carried over, near needles left out,
//! stitches sewn there and back, and designs scaled and centred.
//!
//! ```
//! use design_model::{Command, Design, Point};
//! use sewing_edits::{bare, tie};
//!
//! let mut design = Design::new(alloc);
//! for x in [0, 20, 40] {
//!     design.push(Command::Stitch(Point { x, y: 0 }))?;
//! }
//! let tied = tie(alloc, &design, 10).ok().ok_or("refused")?;
//! assert!(rt; tied.commands().len() > 3);
//! assert!(rt; bare(alloc, &tied).ok().ok_or("refused")?.commands() == design.commands());
//! ```
#![tactic(auto)]

mod bare_threads;
mod beans;
mod carried_trims;
mod centres;
mod empty_blocks;
mod float_cuts;
mod float_theorems;
mod merges;
mod needle_theorems;
mod scales;
mod thread_edits;
mod tie_points;
mod tie_theorems;
mod tied_threads;

pub use bare_threads::bare;
pub use beans::{MAX_BEAN, bean};
pub use carried_trims::carry;
pub use centres::centre;
pub use empty_blocks::drop_empty;
pub use float_cuts::{MAX_REACH, cut};
pub use float_theorems::{
    carry_keeps_needles, carry_keeps_order, carry_leaves_no_near_trim, cut_keeps_needles,
    cut_keeps_order, cut_leaves_no_long_float,
};
pub use merges::merge;
pub use needle_theorems::{
    bean_keeps_order, bean_keeps_points, merge_keeps_ends, merge_keeps_order,
    merge_leaves_no_short_stitch, needled_blocks_stay, scales_to_nearest,
};
pub use scales::{MAX_SCALE, ScaleFault, scale};
pub use tie_points::{MAX_TIE, MIN_TIE};
pub use tie_theorems::{
    all_ends_are_tied, bare_forgets_tie, bare_keeps_order, points_get_few_needles,
    ties_are_near_ends, ties_keep_order, ties_lengthen_no_stitch, tying_twice_is_once,
};
pub use tied_threads::tie;
