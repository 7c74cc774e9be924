ghost use Rattle.std.specs.Prelude.{◌≤◌, length};

use crate::limits::MAX_NAME;
use crate::links::{failed_as, regular_path};
use crate::writing::write_all;
use arrayvec::ArrayVec;
use std::alloc::Global;
use std::fs::{File, Metadata, OpenFile};
use std::io::ErrorKind;
use std::os::unix::fs::MetadataExt;
use std::path::{Path, PathBuf};
use std::rt::Files;
use std::{fs, io};

/// The maximum number of programs that can create files in one folder at the same time.
const MAX_BESIDE: u32 = 10_000;

/// A created file, which takes its bytes in one call.
#[derive(Drop)]
pub(crate) struct NewFile<F: Drop> {
    name: ArrayVec<u8, MAX_NAME>,
    file: F,
    to: Option<Replacement>,
}

/// The replacement of a file: a new file beside it is renamed to its path once the bytes are on disk. Until
/// then the old file is unchanged.
#[derive(Drop)]
struct Replacement {
    beside: PathBuf,
    place: PathBuf,
}

/// Creates the named file. If no new file can be created beside the old one, the old one is made empty at
/// once. Such are files that are not regular, have several names or another owner than new files have. A file
/// in a folder that accepts no new file is another.
pub(crate) fn begin<R: Files>(alloc: Global, rt: &R, name: &str) -> io::Result<NewFile<R::File>>
    requires { length name.now ≤ MAX_NAME }
{
    let new = begin_beside(alloc, rt, name);
    if is_refused(&new) {
        return begin_in_place(rt, name);
    }
    match new? {
        Some(new) => Ok(new),
        None => begin_in_place(rt, name),
    }
}

fn begin_in_place<R: Files>(rt: &R, name: &str) -> io::Result<NewFile<R::File>>
    requires { length name.now ≤ MAX_NAME }
{
    let file = fs::create(rt, name)?;
    Ok(named(name, file, None))
}

fn named<F: Drop>(name: &str, file: F, to: Option<Replacement>) -> NewFile<F>
    requires { length name.now ≤ MAX_NAME }
{
    let mut kept = ArrayVec::new();
    kept.try_extend_from_slice(name.as_bytes()).unwrap();
    NewFile {
        name: kept,
        file,
        to,
    }
}

/// Returns whether the folder accepts no new file, or none with a name of that length.
fn is_refused<T>(answer: &io::Result<T>) -> bool {
    failed_as(answer, ErrorKind::PermissionDenied) || failed_as(answer, ErrorKind::InvalidFilename)
}

fn begin_beside<R: Files>(alloc: Global, rt: &R, name: &str) -> io::Result<Option<NewFile<R::File>>>
    requires { length name.now ≤ MAX_NAME }
{
    let Some(place) = regular_path(alloc, rt, name)? else {
        return Ok(None);
    };
    let old = old_file(rt, place.as_str())?;
    let (beside, file) = file_beside(alloc, rt, place.as_path())?;
    let new = named(name, file, Some(Replacement { beside, place }));
    match new.takes_after(old) {
        Ok(true) => Ok(Some(new)),
        Ok(false) => {
            new.forget(rt);
            Ok(None)
        }
        Err(error) => {
            new.forget(rt);
            Err(error)
        }
    }
}

/// Returns the metadata of the writable file at that path, if there is one.
fn old_file<R: Files>(rt: &R, path: &str) -> io::Result<Option<Metadata>> {
    let mut options = File::options();
    options.write(true);
    let opened = options.open(rt, path);
    if failed_as(&opened, ErrorKind::NotFound) {
        return Ok(None);
    }
    Ok(Some(opened?.metadata()?))
}

/// Creates an empty file beside that path, under the first free name.
fn file_beside<R: Files>(alloc: Global, rt: &R, path: Path<'_>) -> io::Result<(PathBuf, R::File)> {
    for number in 0..MAX_BESIDE {
        let name = format!(in alloc; ".stitch-{number}")?;
        let beside = path.with_file_name(alloc, name.as_str())?;
        let created = File::create_new(rt, beside.as_str());
        if !failed_as(&created, ErrorKind::AlreadyExists) {
            return Ok((beside, created?));
        }
    }
    Err(ErrorKind::AlreadyExists.into())
}

impl<F: io::Read + io::Write + io::Seek + OpenFile + Drop> NewFile<F> {
    /// Returns whether the file was created under that name.
    pub(crate) fn is_named(&self, name: &str) -> bool {
        self.name.as_slice() == name.as_bytes()
    }

    /// Returns the metadata of the new file.
    pub(crate) fn metadata(&self) -> io::Result<Metadata> {
        self.file.metadata()
    }

    /// Writes these bytes, then replaces the old file. An error leaves the old file unchanged.
    pub(crate) fn take_place<R: Files>(mut self, rt: &R, bytes: &[u8]) -> io::Result<()> {
        match self.write_and_move(rt, bytes) {
            Ok(()) => Ok(()),
            Err(error) => {
                self.forget(rt);
                Err(error)
            }
        }
    }

    fn write_and_move<R: Files>(&mut self, rt: &R, bytes: &[u8]) -> io::Result<()> {
        if !write_all(&mut self.file, bytes) {
            return Err(ErrorKind::WriteZero.into());
        }
        match &self.to {
            Some(to) => {
                self.file.sync_all()?;
                fs::rename(rt, to.beside.as_str(), to.place.as_str())
            }
            None => Ok(()),
        }
    }

    /// Copies the permissions of the old file. Returns false for a file that has several names, or another
    /// owner or group.
    fn takes_after(&self, old: Option<Metadata>) -> io::Result<bool> {
        let Some(old) = old else {
            return Ok(true);
        };
        let new = self.file.metadata()?;
        if old.nlink() > 1 || old.uid() != new.uid() || old.gid() != new.gid() {
            return Ok(false);
        }
        if old.permissions() != new.permissions() {
            self.file.set_permissions(old.permissions())?;
        }
        Ok(true)
    }

    /// Removes the new file that is beside the old one.
    pub(crate) fn forget<R: Files>(self, rt: &R) {
        if let Some(to) = &self.to {
            let _ = fs::remove_file(rt, to.beside.as_str());
        }
    }
}
