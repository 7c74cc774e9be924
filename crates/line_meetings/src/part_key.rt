/// What tells the places of parts apart: the block's index, and the ranks of the part's ends.
#[derive(Clone, Copy, PartialEq, Eq, Hash)]
pub struct PartKey {
    pub block: u32,
    pub a: u32,
    pub b: u32,
}
