use design_model::{Items, Point};

/// The segments of a line that are shorter than half a step: its block and its line by index, how many there
/// are, where the first one begins, and the lengths of the shortest and of the longest, in thousandths of a
/// millimetre.
#[derive(Clone, Copy)]
pub struct Spacing {
    pub block: u32,
    pub line: usize,
    pub stitches: usize,
    pub first: Point,
    pub shortest: u128,
    pub longest: u128,
}

/// Short segments, counted by line, in the order of the lines.
pub type Spacings = Items<Spacing>;
