//! A file that an earlier run left unfinished, and that gets its name after all.

ghost use Rattle.std.specs.Prelude.{◌≡◌, OnOk};
ghost use Rattle.pon_files.specs.declared.part.Progress.TheVariants.{Named as HasName};

use crate::lock::LockFile;
use crate::part::PartFile;
use pon_device::DeviceFault;
use pon_job::{Failure, Named};
use std::alloc::Global;
use std::fs::OpenFile;
use std::io::{self, Write};
use std::rt::Files;

// Cuts a part to its first bytes, and gives it the name of its file.
fn finish<F: OpenFile + Write, R: Files>(rt: &R, part: &mut PartFile<F>, len: u64) -> io::Result<()>
    ensures { OnOk result (part.new ≡ HasName) }
{
    part.cut(len)?;
    part.keep(rt)
}

// Takes the part that an earlier run left of a file, and finishes it.
fn take_and_finish<R: Files>(rt: &R, alloc: Global, name: &str, len: u64) -> io::Result<()>
where
    R::File: LockFile,
{
    let mut part = PartFile::<R::File>::take_over(rt, alloc, name)?;
    finish(rt, &mut part, len)
}

/// Gives the part that an earlier run left of the recording `name` that name, cut to its first `len` bytes.
///
/// # Errors
///
/// `Write` if there is no such part, another process writes it, or it cannot be cut, synced or renamed. `Memory` if memory is
/// refused.
pub fn finish_recording<R: Files>(
    rt: &R,
    alloc: Global,
    name: &str,
    len: u64,
) -> Result<(), Failure>
where
    R::File: LockFile,
{
    match take_and_finish(rt, alloc, name, len) {
        Ok(()) => Ok(()),
        Err(error) => {
            let named = Named::Recording(name);
            Err(Failure::of(alloc, DeviceFault::Write, named, &error))
        }
    }
}
