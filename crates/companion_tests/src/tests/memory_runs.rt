//! What runs over files in memory share: sinks, and the lines that runs print.
use outside_io::MemSink;
use std::alloc::Global;
use std::test::Fail;

/// Returns a sink of that room, in which the put of that number fails.
pub fn sink(alloc: Global, room: u32, fails: u64) -> Result<MemSink, Fail> {
    let mut sink = MemSink::new(alloc, room)?;
    sink.fail_at(fails)?;
    Ok(sink)
}

/// Returns whether a text is a line, with the usage text after it where the status says so.
pub fn is_report(text: &[u8], line: &str, status: u8, usage: &str) -> bool {
    if status != 2 {
        return text == line.as_bytes();
    }
    text.len().checked_sub(line.len()) == Some(usage.len())
        && text.starts_with(line.as_bytes())
        && text.ends_with(usage.as_bytes())
}
