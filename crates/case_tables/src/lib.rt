//! Cases of tests as data: the files before, commands one after another, and the expected results of each.
#![tactic(auto)]

mod cases;
mod checks;
mod commands;
mod doubles;
mod held_parts;
mod macros;
mod routes;
mod starts_and_ends;
mod traces;
mod versions;

pub use cases::{Case, CaseStep, ExpectedText, FailingCalls, FileContent};
pub use checks::{JUDGED, READ_IN_ORDER, SAMPLED};
pub use doubles::DOUBLED;
pub use held_parts::has_part;
pub use routes::{CLOSED, MEETING, NOT_ROUTED, PATTERN};
pub use starts_and_ends::ENDED;
pub use traces::TRACED;
pub use versions::{NOT_MIGRATED, VERSIONS};
