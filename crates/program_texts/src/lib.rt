//! The texts about designs and drawings that the programs print: reports, the text of each refusal, the usage text of
//! `stitch`, and what the programs beside it say of an argument that isn't understood.
//!
//! ```
//! use line_graph::DrawKind;
//! use program_texts::{kind_text, version_text};
//!
//! assert!(rt; kind_text(DrawKind::NoJunction) == "not a junction");
//! assert!(rt; version_text(b"stitch_design").starts_with(b"stitch_design "));
//! ```
#![tactic(auto)]

mod companion_usage;
mod design_reports;
mod design_texts;
mod drawing_texts;
mod migration_reports;
mod tracing_reports;
mod usage_text;

pub use companion_usage::{
    MAX_NAME, MAX_USAGE, MAX_WHY, UsageText, usage_after, usage_alone, version_text,
};
pub use design_reports::{describe_loaded, describe_written};
pub use design_texts::{
    describe_command, describe_no_place, describe_too_large, describe_write_fault,
};
pub use drawing_texts::{
    describe_draw_fault, describe_kind, describe_step, describe_trace_fault, kind_text,
};
pub use migration_reports::describe_migration;
pub use tracing_reports::describe_tracing;
pub use usage_text::{USAGE, usage};
