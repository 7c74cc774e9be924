//! Comparisons as functions: an `assert_eq!` in place makes the proof of its test several times as long.
use std::fmt::Debug;
use std::process::Abort;

/// Compares what was found with what is wanted.
pub fn compare<T: PartialEq + Debug + Drop>(rt: &impl Abort, found: T, wanted: T) {
    assert_eq!(rt; found, wanted);
}

/// Compares what was found in a row of a table with what is wanted, and names the row where they differ.
pub fn compare_row<R: Copy + PartialEq + Debug, T: PartialEq + Debug + Drop>(
    rt: &impl Abort,
    row: R,
    found: T,
    wanted: T,
) {
    compare(rt, (row, found), (row, wanted));
}
