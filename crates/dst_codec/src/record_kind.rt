/// The kind of a record of three bytes, by the flags of its third byte.
#[derive(Clone, Copy)]
pub enum RecordKind {
    /// The needle goes down after the move.
    Stitch,
    /// The hoop moves with the needle up.
    Jump,
    /// A colour stop.
    Stop,
    /// A sequin, which is not read.
    Sequin,
    /// The end of the design.
    End,
}
