//! The recording that earlier runs left, after which ports go on.

use crate::folders::{files_in, parts_in, recordings_in};
use crate::joining::{RecordingFiles, asks_for_all};
use pon_audit::{KeptEnds, Verdict};
use pon_device::DeviceFault;
use pon_files::{LockFile, finish_recording};
use pon_job::{Failure, Named};
use pon_record::MAGIC_BYTES;
use pon_resume::{ReadEnds, read_ends};
use std::alloc::Global;
use std::fs;
use std::rt::Files;
use std::thread::Threads;

/// The end of the name of a file that its run left unfinished.
const PART: &str = ".part";

/// The files of a recording, in their order: one, or those of a folder with the parts that a run left there.
#[derive(Drop)]
pub(crate) struct LeftRecording {
    files: RecordingFiles,
}

// Returns the number of bytes of a file.
fn len_of<R: Files>(rt: &R, alloc: Global, name: &str) -> Result<u64, Failure> {
    match fs::metadata(rt, name) {
        Ok(found) => Ok(found.len()),
        Err(error) => Err(Failure::of(alloc, DeviceFault::Read, Named::Recording(name), &error)),
    }
}

// Returns whether a name is that of a folder.
fn is_folder<R: Files>(rt: &R, name: &str) -> bool {
    match fs::metadata(rt, name) {
        Ok(found) => found.is_dir(),
        Err(_) => false,
    }
}

// Returns the files of a folder: whole recordings, and then the parts that are more than magic bytes.
fn left_in<R: Files>(rt: &R, alloc: Global, folder: &str) -> Result<Vec<String>, Failure> {
    let parts = parts_in(rt, alloc, folder)?;
    if parts.is_empty() {
        return files_in(rt, alloc, folder);
    }
    let mut files = recordings_in(rt, alloc, folder)?;
    for part in parts {
        if len_of(rt, alloc, part.as_str())? > MAGIC_BYTES as u64 {
            files.push(part)?;
        }
    }
    Ok(files)
}

impl LeftRecording {
    /// Finds the files of the recording in a file or in a folder. Returns `Read` if a folder cannot be read, or has none.
    pub(crate) fn find<R: Files>(rt: &R, alloc: Global, name: &str) -> Result<Self, Failure> {
        let files = if is_folder(rt, name) {
            RecordingFiles::of(left_in(rt, alloc, name)?)
        } else {
            RecordingFiles::in_file(alloc, name)?
        };
        Ok(LeftRecording { files })
    }

    /// The first file that its run left unfinished; `None` if there is none.
    pub(crate) fn part(&self) -> Option<&str> {
        for name in self.files.files() {
            if name.ends_with(PART) {
                return Some(name.as_str());
            }
        }
        None
    }

    // Audits the recording, keeps these ends of its chapters, and reads where it ends.
    fn read_keeping<R: Files + Threads + Sync>(
        &self,
        rt: &R,
        alloc: Global,
        kept: KeptEnds,
    ) -> Result<ReadEnds, Failure> {
        let mut reader = self.files.open(rt, alloc)?;
        let mut again = self.files.open(rt, alloc)?;
        match read_ends(rt, alloc, kept, &mut reader, &mut again) {
            Ok(ends) => Ok(ends),
            Err(fault) => Err(self.files.failure(rt, alloc, fault)),
        }
    }

    /// Audits the recording, in little memory if that suffices, and reads where it ends. Returns `Read` if a file cannot be
    /// read.
    pub(crate) fn read_ends<R: Files + Threads + Sync>(
        &self,
        rt: &R,
        alloc: Global,
    ) -> Result<ReadEnds, Failure> {
        let kept = self.files.kept_at_first(rt);
        match self.read_keeping(rt, alloc, kept) {
            Ok(ends) => Ok(ends),
            Err(failure) if asks_for_all(kept, &failure) => {
                self.read_keeping(rt, alloc, KeptEnds::OfChapters)
            }
            Err(failure) => Err(failure),
        }
    }

    /// Gives each part its name, after a recording with this verdict is cut to its whole chapters. Returns `Write` if one cannot
    /// be cut, synced or renamed.
    pub(crate) fn finish<R: Files>(
        &self,
        rt: &R,
        alloc: Global,
        verdict: &Verdict,
    ) -> Result<(), Failure>
    where
        R::File: LockFile,
    {
        // Where the bytes of a file begin among those of the recording: all but the first are joined without magic bytes.
        let mut begins = 0;
        let mut magic = 0;
        for name in self.files.files() {
            let len = len_of(rt, alloc, name.as_str())?.saturating_sub(magic);
            if let Some(whole) = name.strip_suffix(PART) {
                let kept = len.min(bytes_before(verdict, begins));
                finish_recording(rt, alloc, whole, kept.saturating_add(magic))?;
            }
            begins = len.saturating_add(begins);
            magic = MAGIC_BYTES as u64;
        }
        Ok(())
    }
}

// Returns how many bytes after this one of a recording with this verdict are of whole chapters.
fn bytes_before(verdict: &Verdict, begins: u64) -> u64 {
    match *verdict {
        Verdict::Truncated { at } => (at as u64).saturating_sub(begins),
        _ => u64::MAX,
    }
}
