//! The files of one recording that is read, one after another.

ghost use Rattle.std.specs.Prelude.{None};

use crate::files::open_recording;
use crate::folders::files_in;
use pon_audit::KeptEnds;
use pon_device::{DevRead, DeviceFault, Failed, StdRead};
use pon_files::open_input;
use pon_job::{Failure, Named};
use pon_joined::{Joined, NextFile};
use std::alloc::{AllocError, Global};
use std::cell::Cell;
use std::fs;
use std::io::BufReader;
use std::rt::Files;

/// The files of one recording, in their order.
#[derive(Drop)]
pub(crate) struct RecordingFiles {
    files: Vec<String>,
    has_no_memory: Cell<bool>,
}

/// The files of a recording that are not opened yet.
#[derive(Drop)]
pub(crate) struct FilesLeft<'a, R> {
    rt: &'a R,
    alloc: Global,
    recording: &'a RecordingFiles,
    opened: usize,
}

impl<R: Files> NextFile<StdRead<BufReader<R::File>>> for FilesLeft<'_, R> {
    ghost contents = { λ _. None };

    fn next_file(&mut self) -> Result<Option<StdRead<BufReader<R::File>>>, Failed> {
        let Some(name) = self.recording.files.get(self.opened) else {
            return Ok(None);
        };
        match open_recording(self.rt, self.alloc, name.as_str()) {
            Ok(reader) => {
                self.opened += 1;
                Ok(Some(reader))
            }
            Err(failure) => {
                self.recording
                    .has_no_memory
                    .set(failure.fault == DeviceFault::Memory);
                Err(Failed)
            }
        }
    }
}

// Adds the files of an argument: the file, or those of a folder.
fn push_files<R: Files>(
    rt: &R,
    alloc: Global,
    name: &str,
    files: &mut Vec<String>,
) -> Result<(), Failure> {
    let is_folder = match fs::metadata(rt, name) {
        Ok(found) => found.is_dir(),
        Err(_) => false,
    };
    if !is_folder {
        files.push(String::from_str(alloc, name)?)?;
        return Ok(());
    }
    for file in files_in(rt, alloc, name)? {
        files.push(file)?;
    }
    Ok(())
}

impl RecordingFiles {
    /// Names the recording in one file. `Err` only if memory is refused.
    pub(crate) fn in_file(alloc: Global, name: &str) -> Result<RecordingFiles, AllocError> {
        let mut files = Vec::new(alloc);
        files.push(String::from_str(alloc, name)?)?;
        Ok(RecordingFiles::of(files))
    }

    /// Names the recording in these files, in this order.
    pub(crate) fn of(files: Vec<String>) -> RecordingFiles {
        RecordingFiles {
            files,
            has_no_memory: Cell::new(false),
        }
    }

    /// Names the recording in several files, in this order; a folder stands for its files whose names end in `.rec`.
    pub(crate) fn in_files<R: Files>(
        rt: &R,
        alloc: Global,
        names: &[&str],
    ) -> Result<RecordingFiles, Failure> {
        let mut files = Vec::new(alloc);
        for name in names {
            push_files(rt, alloc, name, &mut files)?;
        }
        Ok(RecordingFiles::of(files))
    }

    /// The files, in their order.
    pub(crate) fn files(&self) -> &[String] {
        self.files.as_slice()
    }

    /// The name of the recording: that of its first file.
    pub(crate) fn name(&self) -> &str {
        match self.files.first() {
            Some(name) => name.as_str(),
            None => "",
        }
    }

    /// Returns which ends an audit of the recording keeps at first: those of the ports, which take little memory, if all files
    /// can be read again should they not suffice.
    pub(crate) fn kept_at_first<R: Files>(&self, rt: &R) -> KeptEnds {
        for name in &self.files {
            if !is_file(rt, name.as_str()) {
                return KeptEnds::OfChapters;
            }
        }
        KeptEnds::OfPorts
    }

    /// Opens the recording. Returns `Read` if its first file cannot be opened or read.
    pub(crate) fn open<'a, R: Files>(
        &'a self,
        rt: &'a R,
        alloc: Global,
    ) -> Result<Joined<FilesLeft<'a, R>, StdRead<BufReader<R::File>>>, Failure> {
        self.has_no_memory.set(false);
        let left = FilesLeft {
            rt,
            alloc,
            recording: self,
            opened: 0,
        };
        match Joined::open(alloc, left) {
            Ok(reader) => Ok(reader),
            Err(fault) => Err(self.failure(rt, alloc, fault)),
        }
    }

    /// Returns the failure of a job that reads the recording, which names the file that cannot be opened.
    pub(crate) fn failure<R: Files>(&self, rt: &R, alloc: Global, fault: DeviceFault) -> Failure {
        if self.has_no_memory.get() {
            return Failure::from(DeviceFault::Memory);
        }
        if fault == DeviceFault::Read {
            for name in &self.files {
                if let Some(failure) = unopened(rt, alloc, name.as_str()) {
                    return failure;
                }
            }
        }
        Failure::in_reading(alloc, fault, Named::Recording(self.name()))
    }
}

// Returns whether a name is that of a file that can be read again.
fn is_file<R: Files>(rt: &R, name: &str) -> bool {
    match fs::metadata(rt, name) {
        Ok(found) => found.is_file(),
        Err(_) => false,
    }
}

/// Returns whether an audit that kept these ends is to be made again with those of all chapters: they did not suffice, or
/// memory was refused.
pub(crate) fn asks_for_all(kept: KeptEnds, failure: &Failure) -> bool {
    kept == KeptEnds::OfPorts && failure.fault == DeviceFault::Memory
}

// Returns why a file cannot be opened. `None` if it can, or is a pipe.
fn unopened<R: Files>(rt: &R, alloc: Global, name: &str) -> Option<Failure> {
    let is_other = match fs::metadata(rt, name) {
        Ok(found) => !found.is_file() && !found.is_dir(),
        Err(_) => false,
    };
    if is_other {
        return None;
    }
    open_input(rt, alloc, Named::Recording(name)).err()
}
