//! Which file a store is, whatever its name.

use std::fs::{File, Metadata};
use std::os::unix::fs::MetadataExt;
use std::{fs, io};

/// A file that stood at a name once, whatever name it has now.
#[derive(Clone, Copy, Debug, PartialEq, Eq)]
pub struct FileId {
    device: u64,
    inode: u64,
}

/// Which file a call may open.
#[derive(Clone, Copy, Debug)]
pub enum Wanted {
    /// The one at the path, which is made if there is none.
    MadeIfMissing,
    /// The one at the path.
    Any,
    /// This one, which has to be at the path still.
    Only(FileId),
}

impl Wanted {
    /// Whether it may be this file.
    pub(crate) fn allows(self, file: FileId) -> bool {
        match self {
            Wanted::Only(first) => first == file,
            Wanted::Any | Wanted::MadeIfMissing => true,
        }
    }
}

fn id_of(found: &Metadata) -> FileId {
    FileId {
        device: found.dev(),
        inode: found.ino(),
    }
}

/// The file that is open here.
pub(crate) fn file_of(open: &File) -> io::Result<FileId> {
    Ok(id_of(&open.metadata()?))
}

/// The file that is at the path now.
pub(crate) fn file_at(rt: &HostRuntime, path: &str) -> io::Result<FileId> {
    Ok(id_of(&fs::metadata(rt, path)?))
}

fn is_there(rt: &HostRuntime, path: &str, wanted: Wanted) -> bool {
    match file_at(rt, path) {
        Ok(file) => wanted.allows(file),
        Err(_) => false,
    }
}

/// Whether a call may open the path, which makes the file if there is none.
pub(crate) fn may_be_opened(rt: &HostRuntime, path: &str, wanted: Wanted) -> bool {
    match wanted {
        Wanted::MadeIfMissing => true,
        Wanted::Any | Wanted::Only(_) => is_there(rt, path, wanted),
    }
}
