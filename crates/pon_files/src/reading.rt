//! Files that are read.

use pon_device::DeviceFault;
use pon_job::{Failure, Named};
use std::alloc::Global;
use std::fs::{self, OpenFile};
use std::io::{self, ErrorKind};
use std::rt::Files;

// Opens a file, unless it is a folder, which could be opened and not be read.
fn open_file<R: Files>(rt: &R, name: &str) -> io::Result<R::File> {
    let file = fs::open(rt, name)?;
    if file.metadata()?.is_dir() {
        return Err(io::Error::from(ErrorKind::IsADirectory));
    }
    Ok(file)
}

/// Opens a file that is read.
///
/// # Errors
///
/// `Read` if it cannot be opened or is a folder, and `Memory` if memory is refused.
pub fn open_input<R: Files>(rt: &R, alloc: Global, named: Named<'_>) -> Result<R::File, Failure> {
    match open_file(rt, named.name()) {
        Ok(file) => Ok(file),
        Err(error) => Err(Failure::of(alloc, DeviceFault::Read, named, &error)),
    }
}
