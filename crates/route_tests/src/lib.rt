//! Tests of routes: walks, cuts, certificates and their texts, verdicts, and the checks of moats that a test of
//! lifting needs.
#![tactic(auto)]

mod moat_checks;
#[cfg(test)]
mod tests;

pub use moat_checks::have_small_loads;
