/// A summary of stitches. Lengths are in thousandths of a millimetre.
#[derive(Clone, Copy)]
pub struct StitchSummary {
    /// The number of stitches.
    pub stitches: u64,
    /// The length of the shortest stitch, or 0 if there is none.
    pub shortest: u128,
    /// The length of the longest stitch, or 0 if there is none.
    pub longest: u128,
    /// The number of stitches that are shorter than 1 mm.
    pub short: u64,
    /// The length of all stitches.
    pub thread: u128,
}
