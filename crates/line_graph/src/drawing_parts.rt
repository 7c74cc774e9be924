use crate::limits::MAX_BLOCKS;
use arrayvec::ArrayVec;
use design_model::MAX_LABEL;
use line_sections::{Line, Spot};

/// The parts of a drawing, finished or in the making.
#[derive(Drop)]
pub struct DrawingParts {
    pub label: ArrayVec<u8, MAX_LABEL>,
    pub step: u32,
    pub threads: ArrayVec<u8, MAX_BLOCKS>,
    pub lines: Vec<Line>,
    pub starts: Vec<Spot>,
    pub ends: Vec<Spot>,
}
