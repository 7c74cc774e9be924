//! Packings of odd cuts, which prove walks least; certificates that contain them; and the checks of both.
//!
//! ```
//! use drawing_text::read_drawing;
//! use line_graph::{Pass, pieces};
//! use odd_cuts::check_walk;
//!
//! let text = b"redwork 3\ncolor 5\nline 0 0 50 0\n";
//! let drawing = read_drawing(alloc, text).ok().ok_or("no drawing")?;
//! let pieces = pieces(alloc, &drawing)?;
//! // there and back
//! let walk = [Pass { line: 0, back: false }, Pass { line: 0, back: true }];
//! assert!(rt; check_walk(&pieces.as_slice()[0], &walk) == Ok(4));
//! ```
#![tactic(auto)]

mod certificate;
mod cut;
mod cut_check;
mod fault_theorems;
mod faults;
mod flags;
mod held_junctions;
mod line_indexes;
mod line_loads;
mod passed_lines;
mod theorems;
mod walk_check;

pub use certificate::{Cert, PieceCert, PieceCerts};
pub use cut::{Cut, Cuts};
pub use cut_check::check_cuts;
pub use fault_theorems::{cut_faults_are_exact, walk_faults_are_exact};
pub use faults::{CutFault, WalkFault};
pub use theorems::{
    packings_are_over_lines, packings_bound_walks, packings_keep_their_total, packings_prove_least,
};
pub use walk_check::check_walk;
