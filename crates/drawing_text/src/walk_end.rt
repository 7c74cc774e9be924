use line_graph::Spot;

/// A text line that names a start or an end: the number of the text line, which of the two it is, and the
/// spot.
#[derive(Clone, Copy)]
pub struct WalkEnd {
    pub number: u32,
    pub is_start: bool,
    pub spot: Spot,
}

/// The starts and ends that the lines of a text name, in order.
pub type WalkEnds = design_model::Items<WalkEnd>;
