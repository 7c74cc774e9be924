use design_model::{Point, Points};

/// A place to be visited. It is entered at the nearest of its points, `first` and `others`, and left there, or at
/// `leaves` if that is given. Points are in tenths of a millimetre.
#[derive(Drop)]
pub(crate) struct Visit {
    pub first: Point,
    pub others: Points,
    pub leaves: Option<Point>,
}
