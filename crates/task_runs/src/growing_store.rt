ghost use Rattle.design_model.specs.declared.limits.TheConstants.{MAX_FILE};
ghost use Rattle.outside_io.specs.Blames.{write_call};
ghost use Rattle.outside_io.specs.Causes.{AppendsBytes, CallFailed, ReadsAt, WritesFile};
ghost use Rattle.outside_io.specs.Files.{AppendsToFile, ChangesOnlyFile, FileExists, FileHolds, IsFileName};
ghost use Rattle.outside_io.specs.MemStores.{files_of};
ghost use Rattle.std.specs.Prelude.{◌≡◌, ◌≤◌, [], IfNone, IfOk, IfSome, IsSome, List, None, OnOk, Some, map, string_bytes, ℕ};
ghost use Rattle.task_runs.specs.NameLists.{ListsFiles};
ghost use Rattle.task_runs.specs.TaskStores.{KeepsFiles, files_now, store_of, task_store_view};
ghost use Rattle.task_runs.specs.TaskValues.{file_value};

use crate::file_lists::content_in;
use crate::names::{add_name, names_of};
use crate::task::TaskFile;
use design_model::{Items, MAX_FILE, Memory};
use outside_io::{CallKind, Failed, FaultLog, MemStore, ReadStop, Store, copy_from};
use std::alloc::Global;
use std::marker::Model;

/// Files in memory, which are visible to contracts: those that were given are lent, and what is written is kept
/// beside them. A call fails only where there is no memory, or where a file would be longer than `MAX_FILE`.
#[derive(Drop)]
pub struct GrowingStore<'a> {
    alloc: Global,
    given: &'a [TaskFile<'a>],
    written: MemStore,
    names: Items<String>,
    log: FaultLog,
}

impl<'a> Model for GrowingStore<'a> {
    ghost use Rattle.std.specs.Prelude.{map, string_bytes};
    ghost use Rattle.task_runs.specs.FileLists.{content_in};
    ghost use Rattle.task_runs.specs.NameLists.{ListsFiles, ListsRooms};
    ghost use Rattle.task_runs.specs.TaskStores.{TaskStoreValue};
    ghost use Rattle.task_runs.specs.TaskValues.{file_value};

    ghost Value = { TaskStoreValue };

    ghost view = { λ s. record {
      given = map file_value s.given.now;
      written = s.written;
      log = s.log;
    } };

    ghost invariant = { λ s. ListsRooms (map string_bytes s.names) s.written
        × ListsFiles (map string_bytes s.names) (content_in (map file_value s.given.now)) };
}

impl<'a> GrowingStore<'a> {
    /// Returns the store of these files, which are lent, before anything is written.
    pub fn lending(alloc: Global, given: &'a [TaskFile<'a>]) -> Result<Self, Memory>
        ensures { IfOk result (λ store. store ≡ store_of (map file_value given.now)) }
    {
        Ok(GrowingStore {
            alloc,
            given,
            written: MemStore::new(alloc),
            names: names_of(alloc, given)?,
            log: FaultLog::new(),
        })
    }

    /// Returns the content of the named file.
    pub fn file(&self, name: &str) -> Option<&[u8]>
        ensures some { IfSome result (λ content. files_now self.now name.now ≡ Some content.now) }
        ensures none { IfNone result (files_now self.now name.now ≡ None) }
    {
        match self.written.file(name) {
            Some(content) => Some(content),
            None => content_in(self.given, name),
        }
    }

    /// Returns names, among which each is that has a file.
    pub fn names(&self) -> &[String]
        ensures { ListsFiles (map string_bytes result.now) (files_now self.now) }
    {
        self.names.as_slice()
    }

    /// Keeps a file that was given among those that are written, if it isn't there. An error changes nothing.
    fn keep_given(&mut self, name: &str) -> Result<(), Memory>
        requires { IsSome (files_now self.old name.now) }
        ensures files { KeepsFiles self.old self.new }
        ensures there { OnOk result (IsSome (files_of self.new.written name.now)) }
    {
        if self.written.file(name).is_some() {
            return Ok(());
        }
        let Some(content) = content_in(self.given, name) else {
            return Ok(());
        };
        add_name(self.alloc, &mut self.names, name)?;
        self.written.put_file(name, content)?;
        Ok(())
    }

    /// Raises the room of a name to this number of bytes, if there is memory and a file may have so many.
    fn make_room(&mut self, name: &str, room: usize)
        ensures written { (other : List ℕ)
            → files_of self.new.written other ≡ files_of self.old.written other }
        ensures given { self.new.given ≡ self.old.given }
        ensures log { self.new.log ≡ self.old.log }
    {
        if room <= MAX_FILE as usize {
            let _ = self.raise_room(name, room as u32);
        }
    }

    fn raise_room(&mut self, name: &str, room: u32) -> Result<(), Memory>
        requires { room ≤ MAX_FILE }
        ensures written { (other : List ℕ)
            → files_of self.new.written other ≡ files_of self.old.written other }
        ensures given { self.new.given ≡ self.old.given }
        ensures log { self.new.log ≡ self.old.log }
    {
        add_name(self.alloc, &mut self.names, name)?;
        self.written.prepare(name, room)?;
        Ok(())
    }

    /// Makes the file of a name empty, in room that is made for it.
    fn create_written(&mut self, name: &str) -> Result<(), Failed>
        requires { IsFileName name.now }
        ensures holds { OnOk result (FileHolds (task_store_view self.new).files name.now []) }
        ensures others { ChangesOnlyFile (task_store_view self.old).files
            (task_store_view self.new).files name.now }
        ensures log { self.new.log ≡ self.old.log }
    {
        self.make_room(name, 0);
        self.written.create(name)
    }

    /// Appends bytes to what was written under a name, in room that is made for them.
    fn append_written(&mut self, name: &str, bytes: &[u8]) -> Result<(), Failed>
        requires name { IsFileName name.now }
        requires there { IsSome (files_of self.old.written name.now) }
        ensures added { OnOk result (AppendsToFile (task_store_view self.old).files
            (task_store_view self.new).files name.now bytes.now) }
        ensures others { ChangesOnlyFile (task_store_view self.old).files
            (task_store_view self.new).files name.now }
        ensures log { self.new.log ≡ self.old.log }
    {
        let room = self.length_written(name).saturating_add(bytes.len());
        self.make_room(name, room);
        self.written.append(name, bytes)
    }

    /// Appends bytes to a file, which is kept among those that are written.
    fn append_kept(&mut self, name: &str, bytes: &[u8]) -> Result<(), Failed>
        requires name { IsFileName name.now }
        requires there { IsSome (files_now self.old name.now) }
        ensures added { OnOk result (AppendsToFile (task_store_view self.old).files
            (task_store_view self.new).files name.now bytes.now) }
        ensures others { ChangesOnlyFile (task_store_view self.old).files
            (task_store_view self.new).files name.now }
        ensures log { self.new.log ≡ self.old.log }
    {
        match self.keep_given(name) {
            Ok(()) => self.append_written(name, bytes),
            Err(Memory) => Err(Failed),
        }
    }

    /// Returns the length of what was written under a name, or 0 where nothing was.
    fn length_written(&self, name: &str) -> usize {
        match self.written.file(name) {
            Some(content) => content.len(),
            None => 0,
        }
    }

    /// Returns a failure, after it was noted.
    fn failed(&mut self, name: &str) -> Failed
        requires { IsFileName name.now }
        ensures files { (task_store_view self.new).files ≡ (task_store_view self.old).files }
        ensures cause { CallFailed (task_store_view self.old) (task_store_view self.new)
            (write_call name.now) }
    {
        self.log.note(CallKind::Write, name);
        Failed
    }
}

impl<'a> Store for GrowingStore<'a> {
    ghost view = { task_store_view };

    fn read_at(&mut self, name: &str, at: u64, buf: &mut [u8]) -> Result<usize, ReadStop>
        requires name { IsFileName name.now }
        requires offset { at ≤ MAX_FILE }
        ensures reads { ReadsAt name.now at (task_store_view self.old) (task_store_view self.new)
            buf.new result }
    {
        match self.file(name) {
            Some(content) => Ok(copy_from(content, at, buf)),
            None => Err(ReadStop::Missing),
        }
    }

    /// Makes the file empty, in the room that it has.
    fn create(&mut self, name: &str) -> Result<(), Failed>
        requires name { IsFileName name.now }
        ensures writes { WritesFile name.now [] (task_store_view self.old) (task_store_view self.new) result }
    {
        match self.create_written(name) {
            Ok(()) => Ok(()),
            Err(Failed) => Err(self.failed(name)),
        }
    }

    /// Appends the bytes, in room that is made for them.
    fn append(&mut self, name: &str, bytes: &[u8]) -> Result<(), Failed>
        requires name { IsFileName name.now }
        requires there { FileExists (task_store_view self.old).files name.now }
        ensures appends { AppendsBytes name.now bytes.now (task_store_view self.old)
            (task_store_view self.new) result }
    {
        match self.append_kept(name, bytes) {
            Ok(()) => Ok(()),
            Err(Failed) => Err(self.failed(name)),
        }
    }
}
