//! The design that sews the walks of a certificate, and the verdict on a drawing, a design and a certificate.
//!
//! ```
//! use drawing_text::read_drawing;
//! use odd_cuts::Cert;
//! use design_model::{Design, Items};
//! use route_verdict::{Verdict, judge};
//!
//! let text = b"redwork 3\ncolor 5\nline 0 0 50 0\n";
//! let drawing = read_drawing(alloc, text).ok().ok_or("no drawing")?;
//! let none = Cert { pieces: Items::new(alloc) };
//! assert!(rt; judge(alloc, &drawing, &Design::new(alloc), &none)? != Verdict::Yes);
//! ```
#![tactic(auto)]

mod act_order;
mod judging;
mod piece_reasons;
mod sewing;
mod sewing_ways;
mod theorems;
mod verdict;
mod walk_needles;

pub use judging::judge;
pub use sewing::sew;
pub use sewing_ways::Sewing;
pub use theorems::{correct_routes_are_accepted, yes_is_least_redwork};
pub use verdict::{Reason, Verdict};
