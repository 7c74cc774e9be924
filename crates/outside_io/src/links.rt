use std::alloc::Global;
use std::fs::Metadata;
use std::io::ErrorKind;
use std::path::{Path, PathBuf};
use std::rt::Files;
use std::{fs, io};

/// The maximum number of links followed.
const MAX_LINKS: usize = 40;

/// The kind of file at a path.
enum Found {
    /// A link to another path.
    Link,
    /// A regular file, or no file.
    Regular,
    /// Any other file.
    Special,
}

/// Returns the path to which the links of a name lead, if a regular file or no file is there. There is no
/// path for any other file, as a pipe or a file that is named by its descriptor.
pub(crate) fn regular_path<R: Files>(
    alloc: Global,
    rt: &R,
    name: &str,
) -> io::Result<Option<PathBuf>> {
    let mut path = PathBuf::from_str(alloc, name)?;
    for _ in 0..MAX_LINKS {
        match found_at(rt, path.as_str())? {
            Found::Link => path = linked(alloc, rt, path.as_path())?,
            Found::Regular => return Ok(Some(path)),
            Found::Special => return Ok(None),
        }
    }
    Err(ErrorKind::FilesystemLoop.into())
}

fn found_at<R: Files>(rt: &R, path: &str) -> io::Result<Found> {
    if path.starts_with("/proc/") || path.starts_with("/dev/fd/") {
        return Ok(Found::Special);
    }
    let seen = fs::symlink_metadata(rt, path);
    if failed_as(&seen, ErrorKind::NotFound) {
        return Ok(Found::Regular);
    }
    Ok(found_in(&seen?))
}

fn found_in(seen: &Metadata) -> Found {
    if seen.is_symlink() {
        Found::Link
    } else if seen.is_file() {
        Found::Regular
    } else {
        Found::Special
    }
}

/// Returns whether the call failed with an error of that kind.
pub(crate) fn failed_as<T>(answer: &io::Result<T>, kind: ErrorKind) -> bool {
    match answer {
        Ok(_) => false,
        Err(error) => error.kind() == kind,
    }
}

/// Returns the target of the link at a path, relative to the folder of the link.
fn linked<R: Files>(alloc: Global, rt: &R, path: Path<'_>) -> io::Result<PathBuf> {
    let said = rt.read_link(alloc, path.as_str())?;
    let mut folder = path.to_path_buf(alloc)?;
    folder.pop();
    folder.push(said)?;
    Ok(folder)
}
