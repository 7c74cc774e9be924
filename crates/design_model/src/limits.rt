/// The greatest length of a file that is read, in bytes: 64 MiB.
pub const MAX_FILE: u64 = 67_108_864;
