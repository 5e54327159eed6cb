//! The folder of the segments of a recording.

ghost use Rattle.std.specs.Ordering.{nat_cmp};
ghost use Rattle.std.specs.Prelude.{◌≡◌, IsSorted};
ghost use Rattle.pon_files.specs.SegmentNumbers.{oldest_beyond};

use crate::lock::{LockFile, take_file};
use crate::segment_names::{UNFINISHED, WHOLE, numbers_in, segment_path};
use std::alloc::{AllocError, Global};
use std::fs::{self, OpenFile, OpenOptions};
use std::io::{self, BufReader};
use std::rt::Files;

/// The name of the file in a folder that is locked while a run records there.
const LOCK: &str = ".lock";

/// A folder in which this process alone records.
#[derive(Drop)]
pub(crate) struct SegmentFolder<F> {
    path: String,
    // The locked file.
    lock: F,
}

// Returns the names of the files of a folder, each ended by a byte 0.
fn names_in<R: Files>(rt: &R, alloc: Global, path: &str) -> io::Result<String> {
    let path = format!(in alloc; "{path}/")?;
    let dir = rt.open_dir(path.as_str())?;
    io::read_to_string(alloc, BufReader::new(alloc, dir)?)
}

// Returns the numbers beyond the newest `keep`, at least one, of rising numbers.
fn oldest_beyond(rising: &[u32], keep: usize) -> &[u32]
    requires { IsSorted nat_cmp rising.now }
    ensures { result.now ≡ oldest_beyond rising.now keep }
{
    let beyond = rising.len().saturating_sub(keep.max(1));
    &rising[..beyond]
}

impl<F: OpenFile + LockFile> SegmentFolder<F> {
    /// Takes a folder for this process.
    ///
    /// Returns `WouldBlock` if another process records in it.
    pub(crate) fn take<R: Files<File = F>>(rt: &R, alloc: Global, path: &str) -> io::Result<Self> {
        let name = format!(in alloc; "{path}/{LOCK}")?;
        let mut how = OpenOptions::new();
        how.write(true).create(true);
        let lock = how.open(rt, name.as_str())?;
        take_file(rt, &lock, name.as_str())?;
        let path = String::from_str(alloc, path)?;
        Ok(SegmentFolder { path, lock })
    }
}

impl<F: OpenFile> SegmentFolder<F> {
    /// Returns the same folder, which is taken for this process until both are let go.
    pub(crate) fn try_copy(&self, alloc: Global) -> io::Result<Self> {
        Ok(SegmentFolder {
            path: String::from_str(alloc, self.path.as_str())?,
            lock: self.lock.try_clone()?,
        })
    }
}

impl<F> SegmentFolder<F> {
    /// Returns the path of the segment of this number. `Err` only if memory is refused.
    pub(crate) fn path_of(&self, alloc: Global, number: u32) -> Result<String, AllocError> {
        segment_path(alloc, self.path.as_str(), number)
    }

    /// Returns the greatest number of a segment, whole or not. `None` if there is no segment.
    pub(crate) fn greatest<R: Files>(&self, rt: &R, alloc: Global) -> io::Result<Option<u32>> {
        let names = names_in(rt, alloc, self.path.as_str())?;
        let whole = numbers_in(alloc, names.as_bytes(), WHOLE)?;
        let unfinished = numbers_in(alloc, names.as_bytes(), UNFINISHED)?;
        Ok(greatest_of(whole.as_slice()).max(greatest_of(unfinished.as_slice())))
    }

    /// Removes the oldest whole segments beyond the newest `keep`, at least one.
    pub(crate) fn remove_beyond<R: Files>(
        &self,
        rt: &R,
        alloc: Global,
        keep: usize,
    ) -> io::Result<()> {
        let names = names_in(rt, alloc, self.path.as_str())?;
        let mut numbers = numbers_in(alloc, names.as_bytes(), WHOLE)?;
        numbers.as_mut_slice().sort(alloc)?;
        for number in oldest_beyond(numbers.as_slice(), keep) {
            fs::remove_file(rt, self.path_of(alloc, *number)?.as_str())?;
        }
        Ok(())
    }
}

// Returns the greatest of these numbers. `None` if there is none.
fn greatest_of(numbers: &[u32]) -> Option<u32> {
    let mut greatest = None;
    for number in numbers {
        greatest = greatest.max(Some(*number));
    }
    greatest
}
