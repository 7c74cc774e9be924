//! Tests of the formats on bytes from their tables: files are written, read at once and in chunks, and refused.
#![tactic(auto)]

mod squares;
#[cfg(test)]
mod tests;

pub use squares::square;
