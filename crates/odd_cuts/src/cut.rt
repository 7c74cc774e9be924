use design_model::{Items, Numbers};

/// A set of junctions of a piece, by index, and its weight in halves of a step.
#[derive(Drop)]
pub struct Cut {
    pub weight: u32,
    pub members: Numbers,
}

/// The cuts of a piece.
pub type Cuts = Items<Cut>;
