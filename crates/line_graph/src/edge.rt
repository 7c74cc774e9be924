use design_model::Items;

/// An edge: a line of a piece, between two of its junctions. `a` is the junction at the line's first point,
/// `b` the one at its last. `cost` counts steps.
#[derive(Clone, Copy, PartialEq)]
pub struct Edge {
    pub a: u32,
    pub b: u32,
    pub cost: u32,
}

/// The edges of a piece.
pub type Edges = Items<Edge>;
