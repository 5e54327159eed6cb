//! Files that one process at a time writes.

use crate::identity::FileId;
use std::fs::{File, OpenFile};
use std::io::{self, ErrorKind};
use std::rt::Files;

/// A file that can be locked against other processes.
pub trait LockFile {
    /// Locks the file against other processes that lock it, until it is closed. It does not wait.
    ///
    /// # Errors
    ///
    /// `WouldBlock` if another process holds the lock. Any other error if the file cannot be locked.
    fn lock_alone(&self) -> io::Result<()>;
}

impl LockFile for File {
    fn lock_alone(&self) -> io::Result<()> {
        match self.try_lock() {
            Ok(()) => Ok(()),
            Err(error) => Err(io::Error::from(error)),
        }
    }
}

// Returns the error of a file that another process writes.
fn in_use() -> io::Error {
    io::Error::from(ErrorKind::WouldBlock)
}

/// Takes a file with a name for this process. A file system without locks lets it pass.
///
/// Returns `WouldBlock` if another process has taken it, or has given the name to another file.
pub(crate) fn take_file<F: OpenFile + LockFile, R: Files>(
    rt: &R,
    file: &F,
    name: &str,
) -> io::Result<()> {
    match file.lock_alone() {
        Err(error) if error.kind() == ErrorKind::WouldBlock => return Err(error),
        _ => {}
    }
    let id = FileId::of(&file.metadata()?);
    if id.is(FileId::at(rt, name)) {
        Ok(())
    } else {
        Err(in_use())
    }
}
