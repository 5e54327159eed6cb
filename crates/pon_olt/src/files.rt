//! The recordings that the command line names.

use pon_device::{DeviceFault, StdRead};
use pon_files::open_input;
use pon_job::{Failure, Named};
use pon_record::Version;
use std::alloc::{AllocError, Global};
use std::io::{self, BufReader, Read};
use std::rt::Files;

/// Opens the recording in the file `name`. Returns `Read` if it cannot be opened, and `Memory` if memory is refused.
pub(crate) fn open_recording<R: Files>(
    rt: &R,
    alloc: Global,
    name: &str,
) -> Result<StdRead<BufReader<R::File>>, Failure> {
    let file = open_input(rt, alloc, Named::Recording(name))?;
    let input = BufReader::new(alloc, file).map_err(|_| AllocError)?;
    Ok(StdRead::new(input))
}

// Reads the bytes of a recording that may be migrated: a file that does not begin as one of version 1 is read no further.
fn read_first_version<F: Read>(file: &mut F, bytes: &mut Vec<u8>) -> io::Result<()> {
    let magic = Version::One.magic();
    file.by_ref().take(magic.len() as u64).read_to_end(bytes)?;
    if bytes.as_slice() == magic.as_slice() {
        file.read_to_end(bytes)?;
    }
    Ok(())
}

/// Reads the recording in the file `name`, of version 1; of another file the first bytes, in which its fault is. Returns
/// `Read` if it cannot be opened or read, and `Memory` if memory is refused.
pub(crate) fn first_version_in<R: Files>(
    rt: &R,
    alloc: Global,
    name: &str,
) -> Result<Vec<u8>, Failure> {
    let named = Named::Recording(name);
    let mut file = open_input(rt, alloc, named)?;
    let mut bytes = Vec::new(alloc);
    match read_first_version(&mut file, &mut bytes) {
        Ok(()) => Ok(bytes),
        Err(error) => Err(Failure::of(alloc, DeviceFault::Read, named, &error)),
    }
}
