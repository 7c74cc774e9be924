use format_traits::ReadFault;

/// The stage of a reader of records in its file.
#[derive(Clone, Copy)]
pub enum RecordStage {
    /// Before the end of the header; the number is the offset of the end of the bytes that were read.
    Header(u64),
    /// Between records; true where a file that ends here has an end.
    Records(bool),
    /// After the end.
    Over,
    /// After the first refusal.
    Refused(ReadFault),
}
