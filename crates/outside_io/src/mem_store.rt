ghost use Rattle.design_model.specs.declared.limits.TheConstants.{MAX_FILE};
ghost use Rattle.outside_io.specs.Causes.{AppendsBytes, ReadsAt, WritesFile};
ghost use Rattle.outside_io.specs.Counts.{next_count};
ghost use Rattle.outside_io.specs.Files.{ChangesOnlyFile, FileExists, IsFileName};
ghost use Rattle.outside_io.specs.MemStores.{MemAppends, MemCreates, MemReads, empty_store, failure_added, file_set, files_of, is_next_call_listed, room_raised, store_view, visible_files};
ghost use Rattle.std.specs.Prelude.{◌≡◌, ℕ, ◌≤◌, List, [], ◌++◌, length, IfSome, IfNone, OnOk, OnErr, min, take, drop};

use crate::blame::{CallKind, FaultLog};
use crate::entries::{add_to_file, content_of, make_file, raise_room, set_file};
use crate::entry::Entry;
use crate::store::{Failed, ReadStop, Store};
use design_model::Memory;
use std::alloc::Global;
use std::marker::Model;

/// Files in memory, which are visible to contracts. The store counts its calls of `Store` from 1 and fails
/// those whose numbers are listed. A call of `Store` allocates nothing: a name has room, which is a number of
/// bytes, and its file grows within it. A failed call changes no file.
#[derive(Drop)]
pub struct MemStore {
    alloc: Global,
    entries: Vec<Entry>,
    failing: Vec<u64>,
    calls: u64,
    log: FaultLog,
}

impl Model for MemStore {
    ghost use Rattle.outside_io.specs.MemStores.{MemStoreValue};

    ghost Value = { MemStoreValue };

    ghost view = { λ s. record {
      entries = s.entries.items;
      failing = s.failing.items;
      calls = s.calls;
      faults = s.log.count;
      blame = s.log.last;
    } };
}

impl MemStore {
    /// Returns a store without files, room, faults and calls that shall fail.
    pub fn new(alloc: Global) -> Self
        ensures { result ≡ empty_store }
    {
        MemStore {
            alloc,
            entries: Vec::new(alloc),
            failing: Vec::new(alloc),
            calls: 0,
            log: FaultLog::new(),
        }
    }

    /// Sets one file, and raises the room of its name to its length. An error changes nothing.
    pub fn put_file(&mut self, name: &str, bytes: &[u8]) -> Result<(), Memory>
        ensures ok { OnOk result (self.new ≡ file_set self.old name.now bytes.now) }
        ensures file { OnOk result (files_of self.new name.now ≡ Some bytes.now) }
        ensures others { ChangesOnlyFile (visible_files self.old) (visible_files self.new) name.now }
        ensures err { OnErr result (self.new ≡ self.old) }
    {
        set_file(self.alloc, &mut self.entries, name.as_bytes(), bytes)?;
        Ok(())
    }

    /// Raises the room of a name to `room` bytes. Files are unchanged. An error changes nothing.
    pub fn prepare(&mut self, name: &str, room: u32) -> Result<(), Memory>
        requires { room ≤ MAX_FILE }
        ensures ok { OnOk result (self.new ≡ room_raised self.old name.now room) }
        ensures files { (other : List ℕ) → files_of self.new other ≡ files_of self.old other }
        ensures err { OnErr result (self.new ≡ self.old) }
    {
        raise_room(
            self.alloc,
            &mut self.entries,
            name.as_bytes(),
            room as usize,
        )?;
        Ok(())
    }

    /// Returns the content of the named file.
    pub fn file(&self, name: &str) -> Option<&[u8]>
        ensures some { IfSome result (λ content. files_of self.now name.now ≡ Some content.now) }
        ensures none { IfNone result (files_of self.now name.now ≡ None) }
    {
        content_of(self.entries.as_slice(), name.as_bytes())
    }

    /// Adds a number to those of the calls that shall fail. An error changes nothing.
    pub fn fail_at(&mut self, call: u64) -> Result<(), Memory>
        ensures ok { OnOk result (self.new ≡ failure_added self.old call) }
        ensures err { OnErr result (self.new ≡ self.old) }
    {
        self.failing.push(call)?;
        Ok(())
    }

    /// Counts a call, and returns whether its number is listed.
    fn begins_to_fail(&mut self) -> bool
        ensures listed { result ≡ is_next_call_listed self.old.failing self.old.calls }
        ensures counted { self.new ≡ record self.old { calls = next_count self.old.calls } }
    {
        self.calls = self.calls.saturating_add(1);
        self.failing.contains(&self.calls)
    }
}

impl Store for MemStore {
    ghost view = { store_view };

    /// Reads as many bytes as fit into the buffer or remain in the file, whichever is fewer.
    fn read_at(&mut self, name: &str, at: u64, buf: &mut [u8]) -> Result<usize, ReadStop>
        requires name { IsFileName name.now }
        requires offset { at ≤ MAX_FILE }
        ensures reads { ReadsAt name.now at (store_view self.old) (store_view self.new)
            buf.new result }
        ensures exact { MemReads self.old self.new name.now at buf.old buf.new result }
    {
        if self.begins_to_fail() {
            self.log.note(CallKind::Read, name);
            return Err(ReadStop::Failed);
        }
        match content_of(self.entries.as_slice(), name.as_bytes()) {
            Some(content) => Ok(copy_from(content, at, buf)),
            None => Err(ReadStop::Missing),
        }
    }

    /// Makes the file empty, if the name has room.
    fn create(&mut self, name: &str) -> Result<(), Failed>
        requires name { IsFileName name.now }
        ensures writes { WritesFile name.now [] (store_view self.old) (store_view self.new) result }
        ensures exact { MemCreates self.old self.new name.now result }
    {
        if self.begins_to_fail() || !make_file(&mut self.entries, name.as_bytes()) {
            self.log.note(CallKind::Write, name);
            return Err(Failed);
        }
        Ok(())
    }

    /// Appends the bytes, if they fit into the room of the name.
    fn append(&mut self, name: &str, bytes: &[u8]) -> Result<(), Failed>
        requires name { IsFileName name.now }
        requires there { FileExists (store_view self.old).files name.now }
        ensures appends { AppendsBytes name.now bytes.now (store_view self.old)
            (store_view self.new) result }
        ensures exact { MemAppends self.old self.new name.now bytes.now result }
    {
        if self.begins_to_fail() || !add_to_file(&mut self.entries, name.as_bytes(), bytes) {
            self.log.note(CallKind::Write, name);
            return Err(Failed);
        }
        Ok(())
    }
}

/// Copies bytes of the content from the offset on, up to the length of the buffer, and returns their number.
pub fn copy_from(content: &[u8], at: u64, buffer: &mut [u8]) -> usize
    requires { at ≤ MAX_FILE }
    ensures count { result ≡ min (length buffer.old) (length (drop at content.now)) }
    ensures bytes { take result buffer.new ≡ take result (drop at content.now) }
    ensures whole { buffer.new ≡ take result (drop at content.now) ++ drop result buffer.old }
    ensures length { length buffer.new ≡ length buffer.old }
{
    let from = (at as usize).min(content.len());
    let rest = &content[from..];
    let count = rest.len().min(buffer.len());
    buffer[..count].copy_from_slice(&rest[..count]);
    count
}
