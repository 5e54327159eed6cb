//! The last chapter of each port.

ghost use Rattle.std.specs.Prelude.{◌≡◌, ◌++◌, ◌∷◌, [], IfOk, IfSome, List};
ghost use Rattle.std.specs.Option.{option_copied};
ghost use Rattle.pon_record.specs.Chapters.{PlacedChapter};
ghost use Rattle.pon_audit.specs.Openings.{FitsRecording};
ghost use Rattle.pon_resume.specs.LastChapters.{AreLast, IsOfPort, last_of};
ghost use Rattle.pon_resume.specs.Resuming.{GoesOnAfter};

use crate::after::resume_after;
use crate::not_resumed::NotResumed;
use pon_port::Port;
use pon_record::RawChapter;
use pon_units::{MAX_PORTS, PortNo};
use std::alloc::{AllocError, Global};
use std::marker::Model;

/// The last whole chapter of each port of a recording. Contracts see the list of the 64 ports, each with its last chapter
/// if it has one.
#[derive(Drop)]
pub struct LastChapters {
    chapters: Vec<Option<RawChapter>>,
}

impl Model for LastChapters {
    ghost use Rattle.std.specs.Prelude.{List, Option};
    ghost use Rattle.pon_record.specs.Chapters.{PlacedChapter};
    ghost use Rattle.pon_resume.specs.LastChapters.{IsOfPorts};

    ghost Value = { List (Option PlacedChapter) };

    ghost view = { λ l. l.chapters.items };

    ghost invariant = { λ l. IsOfPorts l.chapters.items };
}

impl LastChapters {
    /// Makes the last chapters of a recording that has none.
    ///
    /// # Errors
    ///
    /// `AllocError` only if memory is refused.
    pub fn new(alloc: Global) -> Result<LastChapters, AllocError>
        ensures { IfOk result (AreLast []) }
    {
        let mut chapters = Vec::with_capacity(alloc, MAX_PORTS)?;
        for _port in 0..MAX_PORTS {
            chapters.push(None)?;
        }
        Ok(LastChapters { chapters })
    }

    /// Keeps a further chapter as the last one of its port.
    pub fn keep(&mut self, chapter: RawChapter)
        requires { FitsRecording chapter.body }
        ensures { (earlier : List PlacedChapter) → AreLast earlier self.old
            → AreLast (earlier ++ chapter ∷ []) self.new }
    {
        let port = usize::from(chapter.port.get());
        self.chapters[port] = Some(chapter);
    }

    /// Returns the last chapter of a port; `None` if it has none.
    pub fn of(&self, port: PortNo) -> Option<&RawChapter>
        ensures chapter { option_copied result ≡ last_of self.now port }
        ensures of_port { IfSome result (λ c. IsOfPort port c.now) }
    {
        self.chapters[usize::from(port.get())].as_ref()
    }

    /// Opens the port that goes on after the last chapter of a port: with the next number, the state at the end of that
    /// chapter, and no entries. `None` if the recording has no chapter of the port.
    ///
    /// # Errors
    ///
    /// As for [`resume_after`].
    pub fn resume(&self, alloc: Global, port: PortNo) -> Result<Option<Port>, NotResumed>
        ensures { GoesOnAfter (last_of self.now port) result }
    {
        match self.of(port) {
            Some(chapter) => Ok(Some(resume_after(alloc, chapter)?)),
            None => Ok(None),
        }
    }
}
