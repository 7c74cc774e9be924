//! Tests of entire commands of `stitch`: cases over a store in memory, and over real files. Also the public names, each
//! from its crate.
#![tactic(auto)]

mod padded_text;
pub mod public_functions;
pub mod public_types;
#[cfg(test)]
mod tests;

pub use padded_text::padded;
