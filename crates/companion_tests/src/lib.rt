//! Tests of entire commands of `stitch_drawing` and `stitch_picture`, over a store in memory.
#![tactic(auto)]

mod contents;
#[cfg(test)]
mod tests;

pub use contents::file_content;
