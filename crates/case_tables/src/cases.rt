/// The content of a file.
#[derive(Clone, Copy)]
pub enum FileContent {
    /// Exactly these bytes.
    Bytes(&'static [u8]),
    /// A text, filled with spaces up to that length, and then n times these bytes.
    Padded(&'static [u8], usize, usize, &'static [u8]),
    /// A content of n bytes, with these bytes at that offset.
    PartAt(usize, usize, &'static [u8]),
    /// The content of the file of that name.
    SameAs(&'static str),
    /// No such file exists.
    Missing,
}

/// The expected report.
#[derive(Clone, Copy)]
pub enum ExpectedText {
    /// Exactly this text.
    Exactly(&'static str),
    /// A text that ends with this.
    EndsWith(&'static str),
}

/// The calls that fail, by their numbers: calls of the store, counted over the entire case, and puts on
/// standard output and on standard error. They count from 1: 0 means that none fails.
#[derive(Clone, Copy)]
pub struct FailingCalls {
    pub store: u64,
    pub out: u64,
    pub err: u64,
}

/// A command, whose arguments are separated by spaces, with its exit status and the expected results.
#[derive(Clone, Copy)]
pub struct CaseStep {
    pub words: &'static str,
    pub fails: FailingCalls,
    pub status: u8,
    pub out: ExpectedText,
    pub err: &'static str,
    pub after: &'static [(&'static str, FileContent)],
}

/// The files before, and commands one after another.
#[derive(Clone, Copy)]
pub struct Case {
    pub before: &'static [(&'static str, FileContent)],
    pub steps: &'static [CaseStep],
}
