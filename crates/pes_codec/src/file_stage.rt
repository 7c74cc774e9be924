/// The stage of a PEC or PES file that is fed in chunks.
#[derive(Clone, Copy)]
pub enum FileStage {
    /// In the front.
    Front,
    /// After a front that is not recognised.
    Refused,
    /// After the front: before the block, or in it.
    Behind,
}
