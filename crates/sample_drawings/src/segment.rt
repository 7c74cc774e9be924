use design_model::{Items, Point};

/// A straight segment from one point to another, in tenths of a millimetre.
#[derive(Clone, Copy)]
pub struct Segment {
    pub from: Point,
    pub to: Point,
}

/// Straight segments, in order.
pub type Segments = Items<Segment>;
