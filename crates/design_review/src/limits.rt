/// The limits of a review: `hole` is a number of needles, and the others are lengths in tenths of a millimetre. A limit of 0
/// looks for no place of its kind.
#[derive(Clone, Copy, Debug, PartialEq)]
pub struct ReviewLimits {
    /// Stitches that are shorter are places.
    pub short: u32,
    /// Stitches that are longer are places.
    pub long: u32,
    /// Floats that are longer are places.
    pub float: u32,
    /// How far the needles of a tie are at most from the end of a thread.
    pub tie: u32,
    /// As many needles in one hole are a place.
    pub hole: u32,
}
