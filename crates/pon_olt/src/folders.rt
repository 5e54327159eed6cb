//! The recordings in a folder.

use pon_device::DeviceFault;
use pon_job::{Failure, Named};
use std::alloc::{AllocError, Global};
use std::io::{self, BufReader, Read};
use std::rt::Files;

/// The end of the name of a recording in a folder.
const RECORDING_END: &str = ".rec";

/// The end of the name of a recording in a folder that its run left unfinished.
const PART_END: &str = ".rec.part";

// Returns the failure of a folder, for this reason.
fn failure_of(alloc: Global, folder: &str, reason: &str) -> Failure {
    let named = Named::Recording(folder);
    Failure {
        fault: DeviceFault::Read,
        text: format!(in alloc; "{named}: {reason}").ok(),
    }
}

// Reads the names in a folder, each of which ends with a NUL.
fn names_in<R: Files>(rt: &R, alloc: Global, folder: &str) -> io::Result<String> {
    let folder = format!(in alloc; "{folder}/")?;
    let dir = rt.open_dir(folder.as_str())?;
    io::read_to_string(alloc, BufReader::new(alloc, dir)?)
}

// Returns the paths of the files of a folder whose names end so, in the order of their names.
fn paths_of(
    alloc: Global,
    folder: &str,
    names: &str,
    end: &str,
) -> Result<Vec<String>, AllocError> {
    let mut paths = Vec::new(alloc);
    for name in names.split('\0') {
        if name.ends_with(end) {
            let path = format!(in alloc; "{folder}/{name}")?;
            paths.push(path)?;
        }
    }
    paths.sort()?;
    Ok(paths)
}

// Reads the names in a folder. Returns `Read` if it cannot be read.
fn read_names<R: Files>(rt: &R, alloc: Global, folder: &str) -> Result<String, Failure> {
    match names_in(rt, alloc, folder) {
        Ok(names) => Ok(names),
        Err(error) => {
            let named = Named::Recording(folder);
            Err(Failure::of(alloc, DeviceFault::Read, named, &error))
        }
    }
}

/// Returns the paths of the files of a folder whose names end in `.rec.part`, in the order of their names.
///
/// # Errors
///
/// `Read` if the folder cannot be read.
pub(crate) fn parts_in<R: Files>(
    rt: &R,
    alloc: Global,
    folder: &str,
) -> Result<Vec<String>, Failure> {
    let names = read_names(rt, alloc, folder)?;
    Ok(paths_of(alloc, folder, &names, PART_END)?)
}

/// Returns the paths of the files of a folder whose names end in `.rec`, in the order of their names; there may be none.
///
/// # Errors
///
/// `Read` if the folder cannot be read.
pub(crate) fn recordings_in<R: Files>(
    rt: &R,
    alloc: Global,
    folder: &str,
) -> Result<Vec<String>, Failure> {
    let names = read_names(rt, alloc, folder)?;
    Ok(paths_of(alloc, folder, &names, RECORDING_END)?)
}

/// Returns the paths of the files of a folder whose names end in `.rec`, in the order of their names.
///
/// # Errors
///
/// `Read` if the folder cannot be read, or has no such file.
pub(crate) fn files_in<R: Files>(
    rt: &R,
    alloc: Global,
    folder: &str,
) -> Result<Vec<String>, Failure> {
    let paths = recordings_in(rt, alloc, folder)?;
    if paths.is_empty() {
        return Err(failure_of(alloc, folder, "no file in it ends in .rec"));
    }
    Ok(paths)
}
