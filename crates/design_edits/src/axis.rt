/// An axis of coordinates: `X` to the right, `Y` downwards.
#[derive(Clone, Copy)]
pub enum Axis {
    X,
    Y,
}
