//! A segment of a recording, which goes on in the next one.

ghost use Rattle.std.specs.Prelude.{◌≡◌, IfOk, IfSome, OnOk, is_ok, true};
ghost use Rattle.pon_files.specs.SegmentNumbers.{next_free, next_present};
ghost use Rattle.pon_files.specs.declared.part.Progress.TheVariants.{Named as HasName};

use crate::lock::LockFile;
use crate::part::PartFile;
use crate::segment_folder::SegmentFolder;
use crate::segment_numbers::SegmentNumbers;
use pon_device::DeviceFault;
use pon_job::{Failure, Named};
use pon_recorder::Held;
use std::alloc::{AllocError, Global};
use std::fs::OpenFile;
use std::io::{self, Write};
use std::rt::Files;

/// When a recording goes on in the next segment, and how many segments stay.
#[derive(Clone, Copy, Debug, PartialEq, Eq)]
pub(crate) struct SegmentRules {
    /// The number of maps of one port after which a segment ends.
    pub(crate) maps: u64,
    /// How many whole segments are kept, at least one. `None` for all.
    pub(crate) keep: Option<usize>,
}

/// A segment of a recording that is being written: the part NNNNNN.rec.part of a file NNNNNN.rec in a folder.
#[derive(Drop)]
pub struct SegmentFile<F> {
    pub(crate) part: PartFile<F>,
    folder: SegmentFolder<F>,
    numbers: SegmentNumbers,
    rules: SegmentRules,
}

impl<F: Write> Write for SegmentFile<F> {
    fn write(&mut self, buf: &[u8]) -> io::Result<usize> {
        self.part.write(buf)
    }

    fn flush(&mut self) -> io::Result<()> {
        self.part.flush()
    }
}

impl<F: OpenFile + Write + LockFile> SegmentFile<F> {
    /// Creates the part of a segment.
    pub(crate) fn create<R: Files<File = F>>(
        rt: &R,
        alloc: Global,
        folder: SegmentFolder<F>,
        numbers: SegmentNumbers,
        rules: SegmentRules,
    ) -> io::Result<Self>
        ensures { IfOk result (λ s. (s.numbers ≡ numbers) × (s.rules ≡ rules)) }
    {
        let path = folder.path_of(alloc, numbers.present)?;
        let part = PartFile::create(rt, alloc, path.as_str())?;
        Ok(SegmentFile {
            part,
            folder,
            numbers,
            rules,
        })
    }

    /// Creates the part of the next segment. This one has a chapter, or will not be kept.
    ///
    /// `None` if its number would be too great, or it cannot be created.
    pub(crate) fn next<R: Files<File = F>>(
        &self,
        rt: &R,
        alloc: Global,
        has_chapters: bool,
    ) -> Option<Self>
        ensures { IfSome result (λ s. (s.rules ≡ self.now.rules)
            × (s.numbers.present ≡ next_present self.now.numbers has_chapters)
            × (s.numbers.free ≡ next_free self.now.numbers has_chapters)) }
    {
        let numbers = self.numbers.next(has_chapters)?;
        let folder = self.folder.try_copy(alloc).ok()?;
        SegmentFile::create(rt, alloc, folder, numbers, self.rules).ok()
    }
}

impl<F> SegmentFile<F> {
    /// Returns the path of the segment.
    pub(crate) fn path(&self, alloc: Global) -> Result<String, AllocError> {
        self.folder.path_of(alloc, self.numbers.present)
    }
}

impl<F: OpenFile + Write> SegmentFile<F> {
    /// The number of maps of one port after which the segment ends.
    pub(crate) fn most_maps(&self) -> u64
        ensures { result ≡ self.now.rules.maps }
    {
        self.rules.maps
    }

    // Removes the oldest whole segments beyond those that are kept. Those that cannot be removed now stay until the next
    // segment ends.
    fn remove_oldest<R: Files>(&self, rt: &R, alloc: Global)
        requires named { self.now.part ≡ HasName }
    {
        if let Some(keep) = self.rules.keep {
            let _removed = self.folder.remove_beyond(rt, alloc, keep);
        }
    }

    /// Cuts the part to its whole chapters, writes it to the disk and gives it its name; then removes the oldest whole
    /// segments beyond those that are kept.
    ///
    /// Errors if the part cannot be cut, synced or renamed; then no segment is removed.
    pub(crate) fn end<R: Files>(&mut self, rt: &R, alloc: Global, held: Held) -> io::Result<()>
        ensures { OnOk result (self.new.part ≡ HasName) }
    {
        self.part.cut(held.bytes)?;
        self.part.keep(rt)?;
        self.remove_oldest(rt, alloc);
        Ok(())
    }
}

impl<F: OpenFile + Write + Drop> SegmentFile<F> {
    /// Ends the segment of a recording that lacks a chapter: its whole chapters get its name. Without one its part is
    /// removed.
    pub(crate) fn salvage<R: Files>(mut self, rt: &R, alloc: Global, held: Held) -> io::Result<()> {
        if held.chapters == 0 {
            self.part.discard(rt);
            return Ok(());
        }
        self.end(rt, alloc, held)
    }

    // Ends the segment of a recording that ended so.
    fn end_as<R: Files>(
        mut self,
        rt: &R,
        alloc: Global,
        held: Held,
        recorded: Result<(), DeviceFault>,
    ) -> io::Result<()> {
        match recorded {
            Ok(()) => self.end(rt, alloc, held),
            Err(_) => self.salvage(rt, alloc, held),
        }
    }

    /// Ends the segment of a recording that ended so and goes on in the next segment. Standard error says why it cannot be
    /// ended well.
    ///
    /// Returns the fault of the recording, and `Write` if the part cannot be cut, synced or renamed.
    pub(crate) fn close<R: Files + Eprint>(
        self,
        rt: &R,
        alloc: Global,
        held: Held,
        recorded: Result<(), DeviceFault>,
    ) -> Result<(), DeviceFault>
        ensures { OnOk result (is_ok recorded ≡ true) }
    {
        let name = self.path(alloc);
        let ended = self.end_as(rt, alloc, held, recorded);
        recorded?;
        if let Err(error) = ended {
            let name = match &name {
                Ok(name) => name.as_str(),
                Err(_) => "",
            };
            Failure::of(alloc, DeviceFault::Write, Named::Recording(name), &error).print(rt);
            return Err(DeviceFault::Write);
        }
        Ok(())
    }
}
