//! The texts about routes: the reports of `route`, `double` and `sample`, and the reasons of a failed check.
//!
//! ```
//! use route_texts::describe_reason;
//! use route_verdict::Reason;
//!
//! let text = describe_reason(alloc, Reason::Pieces { found: 1, drawn: 2 })?;
//! assert!(rt; text.len() > 0);
//! ```
#![tactic(auto)]

mod piece_sums;
mod reasons;
mod sewing_reports;
mod summary;

pub use piece_sums::summary_of;
pub use reasons::describe_reason;
pub use sewing_reports::{PieceReport, describe_sewing};
pub use summary::{Summary, describe_summary};
