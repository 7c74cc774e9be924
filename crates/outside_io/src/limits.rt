/// The maximum length of a file name in bytes.
pub const MAX_NAME: usize = 4_096;
