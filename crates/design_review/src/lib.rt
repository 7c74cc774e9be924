//! What a design has before it is sewn: for each block its needles and its thread, and the places that were probably not
//! meant: stitches that are too short or too long, floats, needles in one hole, threads that aren't tied, blocks without a
//! needle, stops at which the frame moves. And the first difference of two designs: of their acts, or of the threads of
//! their blocks.
//!
//! ```
//! use design_model::{Command, Design, Point};
//! use design_review::{ReviewLimits, review};
//!
//! let mut design = Design::new(alloc);
//! design.push(Command::Stitch(Point { x: 0, y: 0 }))?;
//! design.push(Command::Stitch(Point { x: 130, y: 0 }))?;
//! let limits = ReviewLimits { short: 0, long: 121, float: 0, tie: 0, hole: 0 };
//! // one place: the long stitch
//! assert_eq!(rt; review(alloc, limits, &design)?.len(), 1);
//! ```
#![tactic(auto)]

mod acts_compared;
mod crowds;
mod difference;
mod frame_moves;
mod key_windows;
mod limits;
mod needle_keys;
mod needle_points;
mod open_block;
mod place;
mod reported_holes;
mod reviewing;
mod sameness_law;
mod sewn;
mod sewn_blocks;
mod straight_lengths;
mod thread_needles;
mod threads_compared;
mod ties;

pub use acts_compared::act_difference;
pub use difference::{ActDifference, ThreadDifference};
pub use limits::ReviewLimits;
pub use open_block::{BlockSummaries, BlockSummary};
pub use place::{DesignPlace, DesignPlaces};
pub use reviewing::review;
pub use sameness_law::no_difference_is_sameness;
pub use sewn_blocks::block_summaries;
pub use thread_needles::{ThreadNeedle, ThreadNeedles};
pub use threads_compared::thread_difference;
pub use ties::{backwards, is_tied};
