ghost use Rattle.design_model.specs.declared.limits.TheConstants.{MAX_FILE};
ghost use Rattle.outside_io.specs.Files.{IsFileName};
ghost use Rattle.std.specs.Prelude.{◌≤◌};

use super::comparisons::{compare, compare_row};
use design_model::Bytes;
use outside_io::{DirStore, Failed, GetFault, ReadStop, Store, read_whole};
use std::alloc::{AllocError, Global};
use std::os::unix::fs::symlink;
use std::process::Abort;
use std::rt::Files;
use std::test::Fail;
use std::{fs, io};

const FOLDER: &str = "outside_io_test";

const NAME: &str = "outside_io_test/a";

const TWO_FOLDER: &str = "outside_io_two";

const FIRST: &str = "outside_io_two/a";

const SECOND: &str = "outside_io_two/b";

const KEPT_FOLDER: &str = "outside_io_kept";

const KEPT: &str = "outside_io_kept/a";

const LINK: &str = "outside_io_kept/link";

const OTHER: &str = "outside_io_kept/b";

/// Bytes that differ from their neighbours, and whose order shows over more than one read.
pub fn pattern(alloc: Global, count: usize) -> Result<Vec<u8>, AllocError> {
    let mut bytes = Vec::new(alloc);
    for place in 0..count {
        bytes.push((place % 251) as u8)?;
    }
    Ok(bytes)
}

/// Compares the content of a file, if it has at most `limit` bytes, or the fault of reading it with what is wanted.
pub fn compare_whole<S: Store>(
    rt: &impl Abort,
    alloc: Global,
    store: &mut S,
    name: &str,
    limit: u64,
    wanted: Result<&[u8], &GetFault>,
)
    requires name { IsFileName name.now }
    requires limit { limit ≤ MAX_FILE }
{
    let got = read_whole(alloc, store, name, limit);
    compare_row(rt, limit, got.as_ref().map(Bytes::as_slice), wanted);
}

/// Compares what is read of a file at an offset, at most three bytes, with the given bytes.
fn compare_bytes<S: Store>(rt: &impl Abort, store: &mut S, name: &str, at: u16, wanted: &[u8])
    requires name { IsFileName name.now }
{
    let mut buffer = [0u8; 3];
    let count = store.read_at(name, u64::from(at), &mut buffer);
    compare_row(rt, at, count, Ok(wanted.len()));
    compare_row(rt, at, buffer.get(..wanted.len()), Some(wanted));
}

/// Makes a file twice, the second time in two parts.
fn make_file<R: Abort + Files>(
    rt: &R,
    store: &mut DirStore<'_, R>,
    name: &str,
    first: &[u8],
    second: &[u8],
)
    requires name { IsFileName name.now }
{
    compare(rt, store.create(name), Ok(()));
    compare(rt, store.append(name, b"emptied"), Ok(()));
    compare(rt, store.create(name), Ok(()));
    compare(rt, store.append(name, first), Ok(()));
    compare(rt, store.append(name, second), Ok(()));
}

/// Compares what is read of a file that is made in two parts with the given bytes.
fn compare_made<R: Abort + Files>(rt: &R, alloc: Global, name: &str, bytes: &[u8])
    requires name { IsFileName name.now }
{
    let (first, second) = bytes.split_at_checked(9_000).unwrap_or((bytes, &[]));
    let mut store = DirStore::new(alloc, rt);
    make_file(rt, &mut store, name, first, second);
    compare_whole(rt, alloc, &mut store, name, 10_000, Ok(bytes));
    compare_bytes(rt, &mut store, name, 9_998, &[209, 210]);
}

/// Makes a folder anew.
fn make_folder(rt: &HostRuntime, name: &str) -> io::Result<()> {
    let _ = fs::remove_dir_all(rt, name);
    fs::create_dir(rt, name)
}

#[test]
fn real_files_are_made_and_read(rt: HostRuntime) -> Result<(), Fail> {
    let bytes = pattern(rt.alloc(), 10_000)?;
    make_folder(&rt, FOLDER)?;
    compare_made(&rt, rt.alloc(), NAME, bytes.as_slice());
    Ok(fs::remove_dir_all(&rt, FOLDER)?)
}

/// Compares the faults of each call over a real name under which no file can be.
fn compare_failed<R: Abort + Files>(rt: &R, alloc: Global, store: &mut DirStore<'_, R>, name: &str)
    requires name { IsFileName name.now }
{
    compare(rt, store.append(name, b"x"), Err(Failed));
    compare(rt, store.create(name), Err(Failed));
    compare_whole(rt, alloc, store, name, 9, Err(&GetFault::Failed));
}

/// Compares the fault of a read of a folder, and the answers of two devices of which one is always full.
fn compare_devices<R: Abort + Files>(rt: &R, store: &mut DirStore<'_, R>) {
    let got = store.read_at("/", 0, &mut [7u8; 2]);
    compare(rt, got, Err(ReadStop::Failed));
    compare(rt, store.append("/dev/full", b"x"), Err(Failed));
    compare(rt, store.append("/dev/null", b"x"), Ok(()));
    compare_bytes(rt, store, "/dev/null", 0, &[]);
}

#[test]
fn a_real_fault_is_told_as_one(rt: HostRuntime) {
    let mut store = DirStore::new(rt.alloc(), &rt);
    compare_failed(&rt, rt.alloc(), &mut store, "outside_io_no_folder/a");
    compare_failed(&rt, rt.alloc(), &mut store, "/");
    compare_devices(&rt, &mut store);
}

/// Makes a file of the given bytes, and another of all but the first 100 of them.
fn make_both<R: Abort + Files>(
    rt: &R,
    store: &mut DirStore<'_, R>,
    first: &str,
    second: &str,
    bytes: &[u8],
)
    requires first { IsFileName first.now }
    requires second { IsFileName second.now }
{
    compare(rt, store.create(first), Ok(()));
    compare(rt, store.create(second), Ok(()));
    compare(rt, store.append(first, bytes), Ok(()));
    let (_, rest) = bytes.split_at_checked(100).unwrap_or((bytes, &[]));
    compare(rt, store.append(second, rest), Ok(()));
}

/// Compares what is read of both files in turn.
fn compare_turns<S: Store>(rt: &impl Abort, store: &mut S, first: &str, second: &str)
    requires first { IsFileName first.now }
    requires second { IsFileName second.now }
{
    compare_bytes(rt, store, first, 0, &[0, 1, 2]);
    compare_bytes(rt, store, second, 2, &[102, 103, 104]);
    compare_bytes(rt, store, first, 4, &[4, 5, 6]);
    compare_bytes(rt, store, first, 8, &[8, 9, 10]);
    compare_bytes(rt, store, second, 59_899, &[10]);
    compare_bytes(rt, store, second, 59_900, &[]);
    compare_bytes(rt, store, first, 59_900, &[162, 163, 164]);
}

/// Makes both files, and compares what is read of them.
fn compare_both<R: Abort + Files>(
    rt: &R,
    store: &mut DirStore<'_, R>,
    first: &str,
    second: &str,
    bytes: &[u8],
)
    requires first { IsFileName first.now }
    requires second { IsFileName second.now }
{
    make_both(rt, store, first, second, bytes);
    compare_turns(rt, store, first, second);
}

#[test]
fn two_real_files_are_read_in_turn(rt: HostRuntime) -> Result<(), Fail> {
    let bytes = pattern(rt.alloc(), 60_000)?;
    make_folder(&rt, TWO_FOLDER)?;
    let mut store = DirStore::new(rt.alloc(), &rt);
    compare_both(&rt, &mut store, FIRST, SECOND, bytes.as_slice());
    Ok(fs::remove_dir_all(&rt, TWO_FOLDER)?)
}

/// Returns whether a real file has the given bytes.
fn has(rt: &HostRuntime, name: &str, bytes: &[u8]) -> bool {
    match fs::read(rt, name) {
        Ok(found) => found.as_slice() == bytes,
        Err(_) => false,
    }
}

/// Makes a real file anew by one of its two names, and returns of each step whether it went well: the file is made, has
/// its old bytes, takes the new ones, has them, and is put back.
fn make_anew(rt: &HostRuntime, store: &mut DirStore<'_, HostRuntime>, name: &str) -> [bool; 5]
    requires name { IsFileName name.now }
{
    let made = store.create(name).is_ok();
    let kept = has(rt, KEPT, b"old");
    let taken = store.append(name, b"new").is_ok();
    let replaced = has(rt, KEPT, b"new");
    let back = fs::write(rt, KEPT, b"old").is_ok();
    [made, kept, taken, replaced, back]
}

/// Makes a real file anew by a store of its own.
fn made_anew(rt: &HostRuntime, name: &str) -> [bool; 5]
    requires name { IsFileName name.now }
{
    let mut store = DirStore::new(rt.alloc(), rt);
    make_anew(rt, &mut store, name)
}

/// Makes a real file and then the other, by which the first is empty, and returns of each step whether it went well.
fn make_two(
    rt: &HostRuntime,
    store: &mut DirStore<'_, HostRuntime>,
    name: &str,
    other: &str,
) -> [bool; 4]
    requires name { IsFileName name.now }
    requires other { IsFileName other.now }
{
    let made = store.create(name).is_ok();
    let next = store.create(other).is_ok();
    let empty = has(rt, name, b"");
    [made, next, empty, store.append(other, b"new").is_ok()]
}

/// Makes the folder with a file and a link to it.
fn make_kept(rt: &HostRuntime) -> io::Result<()> {
    make_folder(rt, KEPT_FOLDER)?;
    fs::write(rt, KEPT, b"old")?;
    symlink(rt, "a", LINK)
}

/// Removes the folder with the files that are to be in it, and no other.
fn remove_kept(rt: &HostRuntime) -> io::Result<()> {
    fs::remove_file(rt, KEPT)?;
    fs::remove_file(rt, LINK)?;
    fs::remove_file(rt, OTHER)?;
    fs::remove_dir(rt, KEPT_FOLDER)
}

#[test]
fn a_real_file_stays_until_the_new_one_is_down(rt: HostRuntime) -> Result<(), Fail> {
    make_kept(&rt)?;
    compare(&rt, made_anew(&rt, KEPT), [true; 5]);
    compare(&rt, made_anew(&rt, LINK), [true; 5]);
    compare(&rt, fs::symlink_metadata(&rt, LINK)?.is_symlink(), true);
    let mut store = DirStore::new(rt.alloc(), &rt);
    compare(&rt, make_two(&rt, &mut store, KEPT, OTHER), [true; 4]);
    drop(store);
    Ok(remove_kept(&rt)?)
}
