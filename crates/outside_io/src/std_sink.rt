ghost use Rattle.outside_io.specs.Causes.{PutCause, TookBytes};
ghost use Rattle.outside_io.specs.Streams.{StreamPuts};
ghost use Rattle.outside_io.specs.Views.{hidden_bytes};
ghost use Rattle.std.specs.Prelude.{◌≡◌};

use crate::sink::Sink;
use crate::store::Failed;
use crate::writing::write_all;
use std::io::Write;
use std::marker::Model;
use std::rt::{Stderr, Stdout};

/// A stream of the system, as standard output, whose bytes are hidden from contracts. The bytes of its writer
/// grow by what is put, if they are known.
#[derive(Drop)]
pub struct StdSink<W: Write + Drop> {
    writer: W,
    faults: u64,
}

impl<W: Write + Drop> Model for StdSink<W> {
    ghost use Rattle.outside_io.specs.Streams.{StreamValue};

    ghost Value = { StreamValue };

    ghost view = { λ s. record { held = W.contents s.writer; faults = s.faults } };
}

impl<W: Write + Drop> StdSink<W> {
    /// Returns a sink over that stream, without faults.
    pub fn new(writer: W) -> Self
        ensures { result ≡ record { held = W.contents writer; faults = 0 } }
    {
        StdSink { writer, faults: 0 }
    }
}

impl StdSink<Stdout> {
    /// Returns a sink over standard output, without faults.
    pub fn out(rt: &HostRuntime) -> Self
        ensures { result.faults ≡ 0 }
    {
        StdSink::new(rt.stdout())
    }
}

impl StdSink<Stderr> {
    /// Returns a sink over standard error, without faults.
    pub fn err(rt: &HostRuntime) -> Self
        ensures { result.faults ≡ 0 }
    {
        StdSink::new(rt.stderr())
    }
}

impl<W: Write + Drop> Sink for StdSink<W> {
    ghost view = { λ s. hidden_bytes s.faults };

    fn put(&mut self, bytes: &[u8]) -> Result<(), Failed>
        ensures took { TookBytes (hidden_bytes self.old.faults)
            (hidden_bytes self.new.faults) bytes.now result }
        ensures cause { PutCause (hidden_bytes self.old.faults)
            (hidden_bytes self.new.faults) result }
        ensures exact { StreamPuts self.old self.new bytes.now result }
    {
        if write_all(&mut self.writer, bytes) {
            return Ok(());
        }
        self.faults = self.faults.saturating_add(1);
        Err(Failed)
    }
}
