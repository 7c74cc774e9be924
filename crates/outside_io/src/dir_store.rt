ghost use Rattle.outside_io.specs.Blames.{LogsFailedCall, no_faults, read_call, write_call};
ghost use Rattle.outside_io.specs.Causes.{AppendsBytes, ReadsAt, WritesFile};
ghost use Rattle.outside_io.specs.Files.{IsFileName};
ghost use Rattle.outside_io.specs.Views.{hidden_files};
ghost use Rattle.std.specs.Prelude.{◌≡◌, []};

use crate::blame::{CallKind, FaultLog};
use crate::real_files::RealFiles;
use crate::store::{Failed, ReadStop, Store};
use std::alloc::Global;
use std::marker::Model;
use std::rt::Files;

/// Real files, which are hidden from contracts. Each error of the system is a fault, including a missing file
/// and out of memory. A file that is read in order is opened once. A created file replaces the old one at the
/// next call of the store, after the bytes that this call appends are on disk. To create a regular file that was
/// read or made under another name is a fault: nothing that a run has read is lost by a second name.
#[derive(Drop)]
pub struct DirStore<'a, R: Files> {
    files: RealFiles<'a, R>,
    log: FaultLog,
}

impl<'a, R: Files> Model for DirStore<'a, R> {
    ghost use Rattle.outside_io.specs.Blames.{FaultLogValue};

    ghost Value = { FaultLogValue };

    ghost view = { λ s. s.log };
}

impl<'a, R: Files> DirStore<'a, R> {
    /// Returns a store over the files of the system, without faults.
    pub fn new(alloc: Global, rt: &'a R) -> Self
        ensures { result ≡ no_faults }
    {
        DirStore {
            files: RealFiles::new(alloc, rt),
            log: FaultLog::new(),
        }
    }
}

impl<'a, R: Files> Store for DirStore<'a, R> {
    ghost view = { hidden_files };

    fn read_at(&mut self, name: &str, at: u64, buf: &mut [u8]) -> Result<usize, ReadStop>
        requires { IsFileName name.now }
        ensures reads { ReadsAt name.now at (hidden_files self.old) (hidden_files self.new)
            buf.new result }
        ensures exact { LogsFailedCall (read_call name.now) self.old self.new result }
    {
        match self.files.read_at(name, at, buf) {
            Ok(count) => Ok(count),
            Err(_) => {
                self.log.note(CallKind::Read, name);
                Err(ReadStop::Failed)
            }
        }
    }

    fn create(&mut self, name: &str) -> Result<(), Failed>
        requires { IsFileName name.now }
        ensures writes { WritesFile name.now [] (hidden_files self.old)
            (hidden_files self.new) result }
        ensures exact { LogsFailedCall (write_call name.now) self.old self.new result }
    {
        match self.files.create(name) {
            Ok(()) => Ok(()),
            Err(_) => {
                self.log.note(CallKind::Write, name);
                Err(Failed)
            }
        }
    }

    fn append(&mut self, name: &str, bytes: &[u8]) -> Result<(), Failed>
        requires { IsFileName name.now }
        ensures appends { AppendsBytes name.now bytes.now (hidden_files self.old)
            (hidden_files self.new) result }
        ensures exact { LogsFailedCall (write_call name.now) self.old self.new result }
    {
        match self.files.append(name, bytes) {
            Ok(()) => Ok(()),
            Err(_) => {
                self.log.note(CallKind::Write, name);
                Err(Failed)
            }
        }
    }
}
