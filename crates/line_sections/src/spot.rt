use design_model::Point;

/// A spot: a point in a colour block, as the block's index and a point in tenths of a millimetre.
#[derive(Clone, Copy, PartialEq, Eq, Hash)]
pub struct Spot {
    pub block: u32,
    pub at: Point,
}
