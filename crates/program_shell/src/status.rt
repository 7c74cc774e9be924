/// The exit status of the program.
#[derive(Clone, Copy, Debug)]
pub enum Status {
    /// The command is done.
    Done = 0,
    /// An input, a limit or a check refused. No file was changed.
    Refused = 1,
    /// The arguments request nothing that the program does. No file was changed.
    Usage = 2,
    /// A file or a stream failed, or an input file does not exist.
    Fault = 3,
    /// Out of memory. No file was changed.
    Memory = 4,
}
