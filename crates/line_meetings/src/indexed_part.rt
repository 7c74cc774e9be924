use drawing_review::LineSegment;

/// A part of lines, and its index in a list of parts.
#[derive(Clone, Copy)]
pub struct IndexedPart {
    pub index: usize,
    pub part: LineSegment,
}
