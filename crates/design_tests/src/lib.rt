//! Tests of designs, of their pictures, edits, refits and hoops, and of the outside that they are read from.
#![tactic(auto)]

mod stitches;
#[cfg(test)]
mod tests;

pub use stitches::stitch;
