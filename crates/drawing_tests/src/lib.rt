//! Tests of drawings: the number of their sections, drawings cut into pieces, their texts, samples and traces, and
//! where lines should meet.
#![tactic(auto)]

mod point_lists;
#[cfg(test)]
mod tests;

pub use point_lists::points_of;
