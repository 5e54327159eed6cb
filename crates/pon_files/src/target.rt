//! Where a file is written: what is checked before anything is.

use crate::inputs::Inputs;
use crate::part::part_of;
use pon_device::DeviceFault;
use pon_job::{Failure, Named};
use std::alloc::{AllocError, Global};
use std::fs;
use std::io::ErrorKind;
use std::rt::Files;

/// A file to be written, and the files that are read meanwhile, none of which it may be.
#[derive(Clone, Copy, Debug, PartialEq, Eq)]
pub struct Output<'a> {
    /// The file, by what it is for. A regular file is replaced when the new one is whole.
    pub named: Named<'a>,
    /// Whether a file that exists is refused.
    pub no_clobber: bool,
    /// The files that are read.
    pub inputs: Inputs<'a>,
}

/// Where a file is written.
#[derive(Drop)]
pub enum Target {
    /// In this part, which gets the name of the file at this path when it is whole.
    Part { path: String, part: String },
    /// In what exists and is no regular file, as it is.
    Direct,
}

/// Returns the failure of an output that is refused for this reason.
pub(crate) fn refused(text: Result<String, AllocError>) -> Failure {
    match text {
        Ok(text) => Failure {
            fault: DeviceFault::Write,
            text: Some(text),
        },
        Err(error) => Failure::from(error),
    }
}

// Returns the path of a file without links and dots. `None` if there is no such path.
fn path_of<R: Files>(rt: &R, alloc: Global, name: &str) -> Result<Option<String>, Failure> {
    match rt.canonicalize(alloc, name) {
        Ok(path) => Ok(Some(path.into_string())),
        Err(error) if error.kind() == ErrorKind::OutOfMemory => {
            Err(Failure::from(DeviceFault::Memory))
        }
        Err(_) => Ok(None),
    }
}

// Refuses a file that is read; `shown` is what the text calls it.
fn check_not_read<R: Files>(
    rt: &R,
    alloc: Global,
    output: &Output<'_>,
    shown: &str,
    name: &str,
) -> Result<(), Failure> {
    match output.inputs.source_at(rt, name) {
        Some(source) => Err(refused(format!(in alloc; "{shown} is {source}"))),
        None => Ok(()),
    }
}

// Refuses a file that exists if it is not to be replaced.
fn check_not_there<R: Files>(rt: &R, alloc: Global, output: &Output<'_>) -> Result<(), Failure> {
    let named = output.named;
    if output.no_clobber && fs::symlink_metadata(rt, named.name()).is_ok() {
        return Err(refused(format!(in alloc; "{named}: exists")));
    }
    Ok(())
}

// Refuses a part that is no regular file.
fn check_part<R: Files>(
    rt: &R,
    alloc: Global,
    named: Named<'_>,
    part: &str,
) -> Result<(), Failure> {
    match fs::symlink_metadata(rt, part) {
        Ok(found) if !found.is_file() => Err(refused(format!(in alloc;
            "{named}: {part} is no regular file"
        ))),
        _ => Ok(()),
    }
}

// Returns the target of an output that is written as a part of the file at this path.
fn part_target<R: Files>(
    rt: &R,
    alloc: Global,
    output: &Output<'_>,
    path: String,
) -> Result<Target, Failure> {
    let part = part_of(alloc, path.as_str())?;
    let named = output.named;
    check_part(rt, alloc, named, part.as_str())?;
    let shown = format!(in alloc; "{named}: {part}")?;
    check_not_read(rt, alloc, output, shown.as_str(), part.as_str())?;
    Ok(Target::Part { path, part })
}

// Returns the path at which a file is to stand: a link is followed. One that leads nowhere is refused, since the file would
// take its place.
fn path_to_write<R: Files>(rt: &R, alloc: Global, named: Named<'_>) -> Result<String, Failure> {
    let name = named.name();
    if let Some(path) = path_of(rt, alloc, name)? {
        return Ok(path);
    }
    if fs::symlink_metadata(rt, name).is_ok() {
        return Err(refused(format!(in alloc; "{named}: a link to a file that is not there")));
    }
    Ok(String::from_str(alloc, name)?)
}

/// Checks a file to be written before anything is. Returns where it is written: a regular file, or a new one, in its part;
/// what exists and is no regular file as it is; the file that a link leads to in place of the link.
///
/// # Errors
///
/// `Write` if the file or its part is one that is read, by whatever name; if the part is no regular file; if the file is a
/// link that leads nowhere; and if it exists and is not to be replaced. `Memory` if memory is refused.
pub fn target_of<R: Files>(rt: &R, alloc: Global, output: &Output<'_>) -> Result<Target, Failure> {
    let named = output.named;
    check_not_there(rt, alloc, output)?;
    let shown = format!(in alloc; "{named}")?;
    check_not_read(rt, alloc, output, shown.as_str(), named.name())?;
    match fs::metadata(rt, named.name()) {
        Ok(found) if !found.is_file() => Ok(Target::Direct),
        // No part stands beside an empty name, which cannot be created.
        Err(_) if named.name().is_empty() => Ok(Target::Direct),
        _ => part_target(rt, alloc, output, path_to_write(rt, alloc, named)?),
    }
}

impl Target {
    /// Removes the part of a file that holds nothing yet.
    pub fn discard<R: Files>(&self, rt: &R) {
        if let Target::Part { part, .. } = self {
            let _ = fs::remove_file(rt, part.as_str());
        }
    }
}
