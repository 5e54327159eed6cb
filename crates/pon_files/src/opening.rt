//! How parts are opened and removed: none that has bytes is ever emptied.

ghost use Rattle.std.specs.Prelude.{◌≡◌, false, true};
ghost use Rattle.std.specs.Fs.{asks_create, asks_create_new, asks_truncate, metadata_len};

use std::fs::{self, Metadata, OpenOptions};
use std::io;
use std::rt::Files;

// Returns how a new part is opened: where a file stands, it is not.
fn for_new_part() -> OpenOptions
    ensures new { asks_create_new result ≡ true }
    ensures keeps { asks_truncate result ≡ false }
{
    let mut how = OpenOptions::new();
    how.write(true).create_new(true);
    how
}

// Returns how a part is opened that is there: it keeps its bytes, and none is created.
fn for_part() -> OpenOptions
    ensures there { asks_create result ≡ false }
    ensures keeps { asks_truncate result ≡ false }
{
    let mut how = OpenOptions::new();
    how.write(true);
    how
}

// Opens a part without emptying it.
fn open_keeping<R: Files>(rt: &R, how: &OpenOptions, part: &str) -> io::Result<R::File>
    requires keeps { asks_truncate how.now ≡ false }
{
    how.open(rt, part)
}

/// Creates a part to be written.
///
/// Returns `AlreadyExists` if a file stands there, which keeps its bytes.
pub(crate) fn create_part<R: Files>(rt: &R, part: &str) -> io::Result<R::File> {
    open_keeping(rt, &for_new_part(), part)
}

/// Opens a part that is there to be written. It keeps its bytes.
///
/// Returns `NotFound` if there is none.
pub(crate) fn open_part<R: Files>(rt: &R, part: &str) -> io::Result<R::File> {
    open_keeping(rt, &for_part(), part)
}

/// Removes a part of an earlier run, which must be empty.
pub(crate) fn remove_empty<R: Files>(rt: &R, found: &Metadata, part: &str) -> io::Result<()>
    requires empty { metadata_len found.now ≡ 0 }
{
    fs::remove_file(rt, part)
}
