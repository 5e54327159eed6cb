//! The migration of a recording in a file.

use crate::files::first_version_in;
use pon_device::{DeviceFault, StdWrite, write_text};
use pon_files::{Inputs, LockFile, Output, write_file};
use pon_job::{Failure, Migration, Named};
use pon_record::{ReadFault, chapter_count, migrate};
use std::alloc::{AllocError, Global};
use std::io;
use std::rt::Files;

// Prints a line of text.
fn print_line<R: Print>(rt: &R, line: Result<String, AllocError>) -> Result<(), DeviceFault> {
    let line = line?;
    write_text(&mut StdWrite::new(io::writer(rt)), line.as_bytes())
}

// Returns the file that a migration writes.
fn output_of<'a>(migration: &Migration<'a>) -> Output<'a> {
    Output {
        named: Named::Recording(migration.out),
        no_clobber: migration.no_clobber,
        inputs: Inputs {
            settings: None,
            lines: None,
            recording: Some(migration.file),
        },
    }
}

/// Migrates a recording to the file that is to be written, and prints the number of its chapters, or the fault of the
/// recording, without such a file. Returns `true` if the recording was migrated.
pub(crate) fn migrate_file<R: Files + Print>(
    rt: &R,
    alloc: Global,
    migration: &Migration<'_>,
) -> Result<bool, Failure>
where
    R::File: LockFile,
{
    let bytes = first_version_in(rt, alloc, migration.file)?;
    let fault = match migrate(alloc, &bytes) {
        Ok(recording) => {
            write_file(rt, alloc, &output_of(migration), &recording)?;
            let chapters = chapter_count(&recording);
            print_line(rt, format!(in alloc; "migrated chapters {chapters}\n"))?;
            return Ok(true);
        }
        Err(ReadFault::Memory) => return Err(Failure::from(DeviceFault::Memory)),
        Err(ReadFault::BadFormat { at }) => format!(in alloc; "badformat {at}\n"),
        Err(ReadFault::Truncated { at, .. }) => format!(in alloc; "truncated {at}\n"),
    };
    print_line(rt, fault)?;
    Ok(false)
}
