//! A file that is written beside its name, and gets the name when it is whole.

ghost use Rattle.std.specs.Prelude.{◌≡◌, IfOk, OnErr, OnOk};

use crate::leftover::set_aside;
use crate::lock::{LockFile, take_file};
use crate::opening::{create_part, open_part};
use std::alloc::{AllocError, Global};
use std::fs::{self, OpenFile};
use std::io::{self, Write};
use std::marker::Model;
use std::rt::Files;

/// The end of the name of a file that is not whole yet.
const PART: &str = ".part";

/// Returns the name of the part of the file `name`. `Err` only if memory is refused.
pub(crate) fn part_of(alloc: Global, name: &str) -> Result<String, AllocError> {
    format!(in alloc; "{name}{PART}")
}

/// How far a part is.
#[derive(Clone, Copy, Debug, PartialEq, Eq)]
pub enum Progress {
    /// It is being written.
    Open,
    /// All that was written is on the disk.
    Synced,
    /// It has the name of its file.
    Named,
}

/// A file that is written as its part, FILE.part for a file FILE, and gets its name when it is whole. The part is locked
/// against other processes meanwhile. Contracts see it as its progress.
#[derive(Drop)]
pub struct PartFile<F> {
    file: F,
    name: String,
    part: String,
    left: Option<String>,
    progress: Progress,
}

impl<F> Model for PartFile<F> {
    ghost use Rattle.pon_files.specs.declared.part.Progress.{Progress};

    ghost Value = { Progress };

    ghost view = { λ p. p.progress };
}

impl<F> PartFile<F> {
    /// The name of the part.
    pub fn part(&self) -> &str {
        self.part.as_str()
    }

    /// The name under which the part of an earlier run is kept. `None` if none was there.
    pub fn left(&self) -> Option<&str> {
        match &self.left {
            Some(left) => Some(left.as_str()),
            None => None,
        }
    }
}

impl<F: Write> Write for PartFile<F> {
    fn write(&mut self, buf: &[u8]) -> io::Result<usize> {
        self.progress = Progress::Open;
        self.file.write(buf)
    }

    fn flush(&mut self) -> io::Result<()> {
        self.file.flush()
    }
}

// Creates a part, and takes it for this process.
fn begin_part<R: Files>(rt: &R, part: &str) -> io::Result<R::File>
where
    R::File: LockFile,
{
    let file = create_part(rt, part)?;
    take_file(rt, &file, part)?;
    Ok(file)
}

impl<F: OpenFile + Write + LockFile> PartFile<F> {
    /// Creates the part of the file `name`, and takes it for this process. A part that an earlier run left is kept under
    /// the first free name FILE.part.1, FILE.part.2 ... The file itself is unchanged.
    ///
    /// # Errors
    ///
    /// `WouldBlock` if another process writes the part. Any other error if the part cannot be created, one that was left
    /// cannot be renamed, or memory is refused.
    pub fn create<R: Files<File = F>>(rt: &R, alloc: Global, name: &str) -> io::Result<Self>
        ensures { IfOk result (λ p. p ≡ Progress.Open) }
    {
        let name = String::from_str(alloc, name)?;
        let part = part_of(alloc, name.as_str())?;
        let left = set_aside(rt, alloc, part.as_str())?;
        let file = begin_part(rt, part.as_str())?;
        Ok(PartFile {
            file,
            name,
            part,
            left,
            progress: Progress::Open,
        })
    }
}

impl<F: OpenFile + Write + LockFile> PartFile<F> {
    /// Takes the part that an earlier run left of the file `name` for this process. It keeps its bytes.
    ///
    /// # Errors
    ///
    /// `NotFound` if there is no part, and `WouldBlock` if another process writes it. Any other error if it cannot be opened,
    /// or memory is refused.
    pub(crate) fn take_over<R: Files<File = F>>(
        rt: &R,
        alloc: Global,
        name: &str,
    ) -> io::Result<Self>
        ensures { IfOk result (λ p. p ≡ Progress.Open) }
    {
        let name = String::from_str(alloc, name)?;
        let part = part_of(alloc, name.as_str())?;
        let file = open_part(rt, part.as_str())?;
        take_file(rt, &file, part.as_str())?;
        Ok(PartFile {
            file,
            name,
            part,
            left: None,
            progress: Progress::Open,
        })
    }
}

impl<F: OpenFile + Write> PartFile<F> {
    /// Cuts the part to its first `len` bytes, if it has more.
    ///
    /// # Errors
    ///
    /// If the part cannot be cut.
    pub(crate) fn cut(&mut self, len: u64) -> io::Result<()> {
        self.progress = Progress::Open;
        if self.file.metadata()?.len() > len {
            self.file.set_len(len)?;
        }
        Ok(())
    }

    // Waits until all that was written is on the disk.
    fn sync(&mut self) -> io::Result<()>
        ensures ok { OnOk result (self.new ≡ Progress.Synced) }
        ensures err { OnErr result (self.new ≡ self.old) }
    {
        self.file.sync_all()?;
        self.progress = Progress::Synced;
        Ok(())
    }

    // Gives the part the name of its file.
    fn rename<R: Files>(&mut self, rt: &R) -> io::Result<()>
        requires synced { self.old ≡ Progress.Synced }
        ensures ok { OnOk result (self.new ≡ Progress.Named) }
        ensures err { OnErr result (self.new ≡ self.old) }
    {
        fs::rename(rt, self.part.as_str(), self.name.as_str())?;
        self.progress = Progress::Named;
        Ok(())
    }

    /// Writes the part to the disk, and then gives it the name of its file, in place of an earlier file.
    ///
    /// # Errors
    ///
    /// If the part cannot be synced or renamed; then the earlier file is unchanged.
    pub fn keep<R: Files>(&mut self, rt: &R) -> io::Result<()>
        ensures { OnOk result (self.new ≡ Progress.Named) }
    {
        self.sync()?;
        self.rename(rt)
    }
}

impl<F: Drop> PartFile<F> {
    /// Removes the part; the file itself is unchanged.
    pub fn discard<R: Files>(self, rt: &R) {
        let _ = fs::remove_file(rt, self.part.as_str());
    }
}
