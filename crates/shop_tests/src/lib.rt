//! Tests of entire commands of `stitch_design`, over a shop's files in memory, and of the edits of designs.
#![tactic(auto)]

mod needles;
mod old_files;
#[cfg(test)]
mod tests;

pub use needles::{carried, sewn};
pub use old_files::old_pec;
