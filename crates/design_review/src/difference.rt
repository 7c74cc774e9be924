use design_model::Act;

/// The first act in which two designs differ, numbered from 1. A design that has ended has none.
#[derive(Clone, Copy, Debug)]
pub struct ActDifference {
    pub number: usize,
    pub first: Option<Act>,
    pub second: Option<Act>,
}

/// The first block in which the threads of two designs differ, numbered from 1.
#[derive(Clone, Copy, Debug)]
pub struct ThreadDifference {
    pub block: u64,
    pub first: u8,
    pub second: u8,
}
