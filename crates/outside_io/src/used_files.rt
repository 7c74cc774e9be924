use std::alloc::Global;
use std::fs::Metadata;
use std::io;
use std::os::unix::fs::MetadataExt;

/// A regular file, known by its device and inode, and the name under which it was read or made.
#[derive(Drop)]
struct UsedFile {
    device: u64,
    inode: u64,
    name: String,
}

/// The regular files that a run has read or made.
#[derive(Drop)]
pub(crate) struct UsedFiles {
    alloc: Global,
    files: Vec<UsedFile>,
}

impl UsedFiles {
    pub(crate) fn new(alloc: Global) -> Self {
        UsedFiles {
            alloc,
            files: Vec::new(alloc),
        }
    }

    /// Notes that a file was read or made under a name. Files that are not regular are passed over.
    pub(crate) fn note(&mut self, name: &str, file: &Metadata) -> io::Result<()> {
        if file.is_file() && !self.is_noted(name, file) {
            self.files.push(UsedFile {
                device: file.dev(),
                inode: file.ino(),
                name: String::from_str(self.alloc, name)?,
            })?;
        }
        Ok(())
    }

    /// Returns whether a file was read or made under another name.
    pub(crate) fn has_under_another_name(&self, name: &str, file: &Metadata) -> bool {
        for used in self.files.as_slice() {
            if used.is(file) && used.name.as_str() != name {
                return true;
            }
        }
        false
    }

    fn is_noted(&self, name: &str, file: &Metadata) -> bool {
        for used in self.files.as_slice() {
            if used.is(file) && used.name.as_str() == name {
                return true;
            }
        }
        false
    }
}

impl UsedFile {
    fn is(&self, file: &Metadata) -> bool {
        self.device == file.dev() && self.inode == file.ino()
    }
}
