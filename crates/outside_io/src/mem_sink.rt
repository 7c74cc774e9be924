ghost use Rattle.outside_io.specs.Causes.{PutCause, TookBytes};
ghost use Rattle.outside_io.specs.Counts.{next_count};
ghost use Rattle.outside_io.specs.MemSinks.{MemPuts, empty_sink, put_failure_added, put_fails, sink_view};
ghost use Rattle.std.specs.Prelude.{◌≡◌, OnOk, OnErr, IfOk};

use crate::sink::Sink;
use crate::store::Failed;
use design_model::Memory;
use std::alloc::Global;
use std::marker::Model;

/// Bytes in memory, which are visible to contracts. The sink counts its puts from 1 and fails those whose
/// numbers are listed. A put allocates nothing: the bytes stay within the room. A failed put adds nothing.
#[derive(Drop)]
pub struct MemSink {
    bytes: Vec<u8>,
    room: usize,
    failing: Vec<u64>,
    calls: u64,
    faults: u64,
}

impl Model for MemSink {
    ghost use Rattle.std.specs.Prelude.{◌≤◌, vec_len, vec_capacity};
    ghost use Rattle.outside_io.specs.MemSinks.{MemSinkValue};

    ghost Value = { MemSinkValue };

    ghost view = { λ s. record {
      bytes = s.bytes.items;
      room = s.room;
      failing = s.failing.items;
      calls = s.calls;
      faults = s.faults;
    } };

    ghost invariant = { λ s. (vec_len s.bytes ≤ s.room) × (s.room ≤ vec_capacity s.bytes) };
}

impl MemSink {
    /// Returns a sink without bytes, faults and puts that shall fail. Allocates the room, a number of bytes,
    /// at once.
    pub fn new(alloc: Global, room: u32) -> Result<Self, Memory>
        ensures { IfOk result (λ sink. sink ≡ empty_sink room) }
    {
        Ok(MemSink {
            bytes: Vec::with_capacity(alloc, room as usize)?,
            room: room as usize,
            failing: Vec::new(alloc),
            calls: 0,
            faults: 0,
        })
    }

    /// Returns the bytes taken.
    pub fn taken(&self) -> &[u8]
        ensures { result.now ≡ self.now.bytes }
    {
        self.bytes.as_slice()
    }

    /// Adds a number to those of the puts that shall fail. An error changes nothing.
    pub fn fail_at(&mut self, call: u64) -> Result<(), Memory>
        ensures ok { OnOk result (self.new ≡ put_failure_added self.old call) }
        ensures err { OnErr result (self.new ≡ self.old) }
    {
        self.failing.push(call)?;
        Ok(())
    }

    /// Counts a put, and returns whether it shall fail.
    fn begins_to_refuse(&mut self, bytes: &[u8]) -> bool
        ensures refused { result ≡ put_fails self.old bytes.now }
        ensures counted { self.new ≡ record self.old { calls = next_count self.old.calls } }
    {
        self.calls = self.calls.saturating_add(1);
        self.failing.contains(&self.calls) || bytes.len() > self.room - self.bytes.len()
    }
}

impl Sink for MemSink {
    ghost view = { sink_view };

    /// Adds the bytes, without allocating.
    fn put(&mut self, bytes: &[u8]) -> Result<(), Failed>
        ensures took { TookBytes (sink_view self.old) (sink_view self.new) bytes.now result }
        ensures cause { PutCause (sink_view self.old) (sink_view self.new) result }
        ensures exact { MemPuts self.old self.new bytes.now result }
    {
        if self.begins_to_refuse(bytes) {
            self.faults = self.faults.saturating_add(1);
            return Err(Failed);
        }
        match self.bytes.extend_from_slice(bytes) {
            Ok(()) => Ok(()),
            Err(_) => unreachable!(),
        }
    }
}
