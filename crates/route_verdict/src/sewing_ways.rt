/// A way to sew the pieces of a drawing.
#[derive(Clone, Copy)]
pub enum Sewing {
    /// By walks of the least cost.
    Route,
    /// By walks that pass each line once in each direction, whose certificate has no cuts.
    Double,
}
