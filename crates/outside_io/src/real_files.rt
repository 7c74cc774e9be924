ghost use Rattle.std.specs.Prelude.{◌≤◌, length, IfOk};

use crate::limits::MAX_NAME;
use crate::new_file::{NewFile, begin};
use crate::turns::read_some;
use crate::used_files::UsedFiles;
use crate::writing::write_all;
use arrayvec::ArrayVec;
use std::alloc::Global;
use std::fs::{File, OpenFile};
use std::io::{ErrorKind, Read, Seek, SeekFrom, Write};
use std::rt::Files;
use std::{fs, io};

/// An open file that was read from its beginning up to an offset, where reading can continue.
#[derive(Drop)]
struct OpenedFile<F: Drop> {
    name: ArrayVec<u8, MAX_NAME>,
    file: F,
    at: u64,
}

/// The files of the system: the one that is open for reading, the one that is begun, and those used so far.
#[derive(Drop)]
pub(crate) struct RealFiles<'a, R: Files> {
    alloc: Global,
    rt: &'a R,
    opened: Option<OpenedFile<R::File>>,
    begun: Option<NewFile<R::File>>,
    used: UsedFiles,
}

impl<'a, R: Files> RealFiles<'a, R> {
    /// Returns the files of the system, none of which is used.
    pub(crate) fn new(alloc: Global, rt: &'a R) -> Self {
        RealFiles {
            alloc,
            rt,
            opened: None,
            begun: None,
            used: UsedFiles::new(alloc),
        }
    }

    /// Completes a pending file, then reads from the named file at that offset. After an error no file is open.
    pub(crate) fn read_at(&mut self, name: &str, at: u64, buf: &mut [u8]) -> io::Result<usize>
        requires { length name.now ≤ MAX_NAME }
        ensures { IfOk result (λ count. count ≤ length buf.new) }
    {
        let read = self.read_from(name, at, buf);
        if read.is_err() {
            self.opened = None;
        }
        read
    }

    /// Completes a pending file, then continues in the open file if it is at that offset, else opens the file.
    fn read_from(&mut self, name: &str, at: u64, buf: &mut [u8]) -> io::Result<usize>
        requires { length name.now ≤ MAX_NAME }
        ensures { IfOk result (λ count. count ≤ length buf.new) }
    {
        settle(self.rt, &mut self.begun)?;
        if let Some(reading) = &mut self.opened {
            if reading.at == at && reading.name.as_slice() == name.as_bytes() {
                return read_on(reading, buf);
            }
        }
        self.open_and_read(name, at, buf)
    }

    // A function of its own: inlined, the space for the name of the opened file would be cleared at each read.
    /// Opens a file and reads from it at that offset. A file that returned bytes is kept open.
    #[cold]
    #[inline(never)]
    fn open_and_read(&mut self, name: &str, at: u64, buf: &mut [u8]) -> io::Result<usize>
        requires { length name.now ≤ MAX_NAME }
        ensures { IfOk result (λ count. count ≤ length buf.new) }
    {
        let mut reading = open_at(self.rt, name, at)?;
        self.used.note(name, &reading.file.metadata()?)?;
        let count = read_on(&mut reading, buf)?;
        if count > 0 {
            self.opened = Some(reading);
        }
        Ok(count)
    }

    /// Completes a pending file, then begins the named one, unless it was used under another name.
    pub(crate) fn create(&mut self, name: &str) -> io::Result<()>
        requires { length name.now ≤ MAX_NAME }
    {
        self.opened = None;
        settle(self.rt, &mut self.begun)?;
        refuse_second_name(self.rt, &self.used, name)?;
        let new = begin(self.alloc, self.rt, name)?;
        let noted = note_made(&mut self.used, name, &new);
        if noted.is_err() {
            new.forget(self.rt);
            return noted;
        }
        self.begun = Some(new);
        Ok(())
    }

    /// Appends all the bytes to the named file, and completes a pending file.
    pub(crate) fn append(&mut self, name: &str, bytes: &[u8]) -> io::Result<()> {
        self.opened = None;
        match self.begun.take() {
            Some(new) if new.is_named(name) => return new.take_place(self.rt, bytes),
            Some(new) => new.take_place(self.rt, &[])?,
            None => {}
        }
        append_to(self.rt, name, bytes)
    }
}

/// Notes that a file was made under a name.
fn note_made<F: Read + Write + Seek + OpenFile + Drop>(
    used: &mut UsedFiles,
    name: &str,
    new: &NewFile<F>,
) -> io::Result<()> {
    used.note(name, &new.metadata()?)
}

/// Fails if the named file is there and was read or made under another name.
fn refuse_second_name<R: Files>(rt: &R, used: &UsedFiles, name: &str) -> io::Result<()> {
    match fs::metadata(rt, name) {
        Ok(file) if used.has_under_another_name(name, &file) => Err(
            ErrorKind::AlreadyExists.into(),
        ),
        Ok(_) | Err(_) => Ok(()),
    }
}

/// Completes a pending file, if there is one: it replaces the old file.
fn settle<R: Files>(rt: &R, begun: &mut Option<NewFile<R::File>>) -> io::Result<()> {
    match begun.take() {
        Some(new) => new.take_place(rt, &[]),
        None => Ok(()),
    }
}

/// Reads from the current offset of an open file.
fn read_on<F: Read + Drop>(reading: &mut OpenedFile<F>, buf: &mut [u8]) -> io::Result<usize>
    ensures { IfOk result (λ count. count ≤ length buf.new) }
{
    let count = read_some(&mut reading.file, buf)?;
    reading.at = reading.at.saturating_add(count as u64);
    Ok(count)
}

fn open_at<R: Files>(rt: &R, name: &str, at: u64) -> io::Result<OpenedFile<R::File>>
    requires { length name.now ≤ MAX_NAME }
{
    let mut file = fs::open(rt, name)?;
    if at > 0 {
        file.seek(SeekFrom::Start(at))?;
    }
    let mut kept = ArrayVec::new();
    kept.try_extend_from_slice(name.as_bytes()).unwrap();
    Ok(OpenedFile {
        name: kept,
        file,
        at,
    })
}

/// Appends all the bytes to an existing file.
fn append_to<R: Files>(rt: &R, name: &str, bytes: &[u8]) -> io::Result<()> {
    let mut options = File::options();
    options.append(true);
    let mut file = options.open(rt, name)?;
    if write_all(&mut file, bytes) {
        Ok(())
    } else {
        Err(ErrorKind::WriteZero.into())
    }
}
