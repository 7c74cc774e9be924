ghost use Rattle.task_runs.specs.GrowingSinks.{empty_growing_sink, growing_view};
ghost use Rattle.outside_io.specs.Causes.{PutCause, TookBytes};
ghost use Rattle.std.specs.Prelude.{◌≡◌};

use design_model::{Bytes, Memory};
use outside_io::{Failed, Sink};
use std::alloc::Global;
use std::marker::Model;

/// Bytes in memory, which are visible to contracts. A put fails only where there is no memory for its bytes, and then
/// adds nothing.
#[derive(Drop)]
pub struct GrowingSink {
    bytes: Bytes,
    faults: u64,
}

impl Model for GrowingSink {
    ghost use Rattle.task_runs.specs.GrowingSinks.{GrowingSinkValue};

    ghost Value = { GrowingSinkValue };

    ghost view = { λ s. record { bytes = s.bytes; faults = s.faults } };
}

impl GrowingSink {
    /// Returns a sink without bytes and faults, which has no memory allocated.
    pub fn new(alloc: Global) -> Self
        ensures { result ≡ empty_growing_sink }
    {
        GrowingSink {
            bytes: Bytes::new(alloc),
            faults: 0,
        }
    }

    /// Returns the bytes taken.
    pub fn taken(&self) -> &[u8]
        ensures { result.now ≡ self.now.bytes }
    {
        self.bytes.as_slice()
    }
}

impl Sink for GrowingSink {
    ghost view = { growing_view };

    /// Adds all the bytes, or none.
    fn put(&mut self, bytes: &[u8]) -> Result<(), Failed>
        ensures took { TookBytes (growing_view self.old) (growing_view self.new) bytes.now result }
        ensures cause { PutCause (growing_view self.old) (growing_view self.new) result }
    {
        match self.bytes.append(bytes) {
            Ok(()) => Ok(()),
            Err(Memory) => {
                self.faults = self.faults.saturating_add(1);
                Err(Failed)
            }
        }
    }
}
