ghost use Rattle.outside_io.specs.Blames.{store_call, no_faults, with_failed_call};
ghost use Rattle.outside_io.specs.Causes.{CallFailed};
ghost use Rattle.outside_io.specs.Views.{hidden_files};
ghost use Rattle.std.specs.Prelude.{◌≡◌, ◌≤◌, length};

use crate::limits::MAX_NAME;
use arrayvec::ArrayVec;
use std::marker::Model;

/// The kind of a call to a store.
#[derive(Clone, Copy)]
pub enum CallKind {
    /// A `read_at`.
    Read,
    /// A `create` or an `append`.
    Write,
}

/// A log of failed calls: their number, up to the maximum count, and the last of them.
#[derive(Drop)]
pub struct FaultLog {
    count: u64,
    kind: Option<CallKind>,
    name: ArrayVec<u8, MAX_NAME>,
}

impl Model for FaultLog {
    ghost use Rattle.outside_io.specs.Blames.{FaultLogValue, blame_of};

    ghost Value = { FaultLogValue };

    ghost view = { λ log. record {
      count = log.count;
      last = blame_of log.kind log.name.items;
    } };
}

impl FaultLog {
    /// Returns the log without failed calls.
    pub fn new() -> Self
        ensures { result ≡ no_faults }
    {
        FaultLog {
            count: 0,
            kind: None,
            name: ArrayVec::new(),
        }
    }

    /// Records a failed call of that kind on that file name.
    pub fn note(&mut self, kind: CallKind, name: &str)
        requires { length name.now ≤ MAX_NAME }
        ensures value { self.new ≡ with_failed_call self.old (store_call kind name.now) }
        ensures cause { CallFailed (hidden_files self.old) (hidden_files self.new)
            (store_call kind name.now) }
    {
        self.count = self.count.saturating_add(1);
        self.kind = Some(kind);
        self.name.clear();
        self.name.try_extend_from_slice(name.as_bytes()).unwrap();
    }
}
