//! Files that are written at once.

ghost use Rattle.std.specs.Prelude.{◌≡◌, OnOk};
ghost use Rattle.pon_files.specs.declared.part.Progress.TheVariants.{Named as HasName};

use crate::lock::LockFile;
use crate::part::PartFile;
use crate::target::{Output, Target, target_of};
use pon_device::DeviceFault;
use pon_job::Failure;
use std::alloc::Global;
use std::fs::{self, OpenFile};
use std::io::{self, Write};
use std::rt::Files;

// Writes bytes to a part, and gives it the name of its file.
fn fill<F: OpenFile + Write, R: Files>(
    rt: &R,
    file: &mut PartFile<F>,
    bytes: &[u8],
) -> io::Result<()>
    ensures { OnOk result (file.new ≡ HasName) }
{
    file.write_all(bytes)?;
    file.keep(rt)
}

// Writes bytes as the file at a path. After an error its part is removed.
fn write_whole<R: Files>(rt: &R, alloc: Global, path: &str, bytes: &[u8]) -> io::Result<()>
where
    R::File: LockFile,
{
    let mut file = PartFile::<R::File>::create(rt, alloc, path)?;
    let filled = fill(rt, &mut file, bytes);
    if filled.is_err() {
        file.discard(rt);
    }
    filled
}

// Writes bytes to what is no regular file.
fn write_direct<R: Files>(rt: &R, name: &str, bytes: &[u8]) -> io::Result<()> {
    let mut file = fs::create(rt, name)?;
    file.write_all(bytes)?;
    file.flush()
}

/// Checks a file, as [`target_of`] does, and writes bytes as this file: a regular file, or that which a link leads to, is
/// replaced by a whole one, and what is no regular file is written as it is. After an error a regular file is as before, and
/// no part of it is left.
///
/// # Errors
///
/// As [`target_of`]. `Write` also if the file cannot be created, written, synced or renamed.
pub fn write_file<R: Files>(
    rt: &R,
    alloc: Global,
    output: &Output<'_>,
    bytes: &[u8],
) -> Result<(), Failure>
where
    R::File: LockFile,
{
    let written = match target_of(rt, alloc, output)? {
        Target::Part { path, .. } => write_whole(rt, alloc, path.as_str(), bytes),
        Target::Direct => write_direct(rt, output.named.name(), bytes),
    };
    match written {
        Ok(()) => Ok(()),
        Err(error) => Err(Failure::of(alloc, DeviceFault::Write, output.named, &error)),
    }
}
