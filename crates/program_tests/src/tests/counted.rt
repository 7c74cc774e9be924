//! Stores and sinks in memory that count their failed calls.
use outside_io::{Failed, MemSink, MemStore, ReadStop, Sink, Store};

/// A store or a sink, and how many of its calls failed.
#[derive(Drop)]
pub struct Counted<T: Drop> {
    pub inner: T,
    pub faults: u64,
}

impl Store for Counted<MemStore> {
    ghost use Rattle.outside_io.specs.MemStores.{store_view};

    ghost view = { λ c. store_view c.inner };

    fn read_at(&mut self, name: &str, at: u64, buf: &mut [u8]) -> Result<usize, ReadStop> {
        let read = self.inner.read_at(name, at, buf);
        let failed = read == Err(ReadStop::Failed);
        self.faults = self.faults.saturating_add(u64::from(failed));
        read
    }

    fn create(&mut self, name: &str) -> Result<(), Failed> {
        let made = self.inner.create(name);
        self.faults = self.faults.saturating_add(u64::from(made.is_err()));
        made
    }

    fn append(&mut self, name: &str, bytes: &[u8]) -> Result<(), Failed> {
        let added = self.inner.append(name, bytes);
        self.faults = self.faults.saturating_add(u64::from(added.is_err()));
        added
    }
}

impl Sink for Counted<MemSink> {
    ghost use Rattle.outside_io.specs.MemSinks.{sink_view};

    ghost view = { λ c. sink_view c.inner };

    fn put(&mut self, bytes: &[u8]) -> Result<(), Failed> {
        let put = self.inner.put(bytes);
        self.faults = self.faults.saturating_add(u64::from(put.is_err()));
        put
    }
}
