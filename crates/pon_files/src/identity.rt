//! Which file a name is of, whatever its name.

ghost use Rattle.std.specs.Prelude.{◌≡◌, ◌↔◌, Some, true};

use std::fs::{self, Metadata};
use std::os::unix::fs::MetadataExt;
use std::rt::Files;

/// The identity of a file: its device, and its number there. Names of one file, hard links too, have the same.
#[derive(Clone, Copy)]
pub(crate) struct FileId {
    device: u64,
    number: u64,
}

impl FileId {
    /// Returns the identity of the file that this is about.
    pub(crate) fn of(found: &Metadata) -> Self {
        FileId {
            device: found.dev(),
            number: found.ino(),
        }
    }

    /// Returns the identity of the file with a name; a link is followed. `None` if there is no such file.
    pub(crate) fn at<R: Files>(rt: &R, name: &str) -> Option<Self> {
        match fs::metadata(rt, name) {
            Ok(found) => Some(FileId::of(&found)),
            Err(_) => None,
        }
    }

    /// Returns whether this is the other file.
    pub(crate) fn is(self, other: Option<FileId>) -> bool
        ensures { (result ≡ true) ↔ (other ≡ Some self) }
    {
        match other {
            Some(other) => self.device == other.device && self.number == other.number,
            None => false,
        }
    }
}
