//! The part that a run left which was ended before its file was whole.

use crate::lock::{LockFile, take_file};
use crate::opening::{open_part, remove_empty};
use std::alloc::Global;
use std::fs::{self, OpenFile};
use std::io::{self, ErrorKind};
use std::rt::Files;

/// How many parts of earlier runs are kept beside each other.
const MAX_LEFT: u32 = 10_000;

// Gives a part of an earlier run the first free name, and returns that.
fn rename_part<R: Files>(rt: &R, alloc: Global, part: &str) -> io::Result<String> {
    for number in 1..=MAX_LEFT {
        let name = format!(in alloc; "{part}.{number}")?;
        if fs::symlink_metadata(rt, name.as_str()).is_err() {
            fs::rename(rt, part, name.as_str())?;
            return Ok(name);
        }
    }
    Err(io::Error::other("too many parts of earlier runs stand there"))
}

/// Sets the part that an earlier run left aside, and returns the name under which it is kept. `None` if there is none, or
/// an empty one, which is removed.
///
/// Returns `WouldBlock` if another process writes the part.
pub(crate) fn set_aside<R: Files>(rt: &R, alloc: Global, part: &str) -> io::Result<Option<String>>
where
    R::File: LockFile,
{
    let file = match open_part(rt, part) {
        Ok(file) => file,
        Err(error) if error.kind() == ErrorKind::NotFound => return Ok(None),
        Err(error) => return Err(error),
    };
    take_file(rt, &file, part)?;
    let found = file.metadata()?;
    if found.len() == 0 {
        remove_empty(rt, &found, part)?;
        return Ok(None);
    }
    Ok(Some(rename_part(rt, alloc, part)?))
}
