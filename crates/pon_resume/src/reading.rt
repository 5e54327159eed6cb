//! Reads the last chapter of each port.

ghost use Rattle.std.specs.Prelude.{◌≡◌, IfOk, IfSome, List, Some, ℕ};
ghost use Rattle.pon_record.specs.Chapters.{PlacedChapter};
ghost use Rattle.pon_record.specs.Streams.{StandsAfter};
ghost use Rattle.pon_audit.specs.Openings.{FitsRecording};
ghost use Rattle.pon_audit.specs.Streams.{TellsFailure};
ghost use Rattle.pon_resume.specs.Ends.{AreLastIn, GivesNext, OpensAt};

use crate::last::LastChapters;
use pon_device::{DevRead, DeviceFault};
use pon_record::{ChapterReader, RawChapter, StreamFault};
use std::alloc::Global;

// Opens the chapters of a recording; `None` if its magic bytes are wrong or cut.
fn open_chapters<R: DevRead>(
    alloc: Global,
    reader: &mut R,
) -> Result<Option<ChapterReader>, DeviceFault>
    ensures opens { (bytes : List ℕ) → R.remaining reader.old ≡ Some bytes
        → IfOk result (OpensAt bytes (R.remaining reader.new)) }
    ensures failures { TellsFailure (R.failures reader.old) (R.failures reader.new) result }
{
    match ChapterReader::open(alloc, reader) {
        Ok(source) => Ok(Some(source)),
        Err(StreamFault::BadFormat { .. }) => Ok(None),
        Err(StreamFault::Truncated { .. }) => Ok(None),
        Err(StreamFault::Read) => Err(DeviceFault::Read),
        Err(StreamFault::Memory) => Err(DeviceFault::Memory),
    }
}

// Reads the next chapter; `None` at the end of the recording, or at a fault of its format.
fn next_chapter<R: DevRead>(
    alloc: Global,
    source: &mut ChapterReader,
    reader: &mut R,
) -> Result<Option<RawChapter>, DeviceFault>
    ensures gives { IfOk result (λ next. (bytes : List ℕ) (whole : List PlacedChapter)
        → StandsAfter bytes whole source.old (R.remaining reader.old)
        → GivesNext bytes whole source.new (R.remaining reader.new) next) }
    ensures fits { IfOk result (λ next. IfSome next (λ c. FitsRecording c.body)) }
    ensures failures { TellsFailure (R.failures reader.old) (R.failures reader.new) result }
{
    match source.next(alloc, reader) {
        Ok(next) => Ok(next),
        Err(StreamFault::BadFormat { .. }) => Ok(None),
        Err(StreamFault::Truncated { .. }) => Ok(None),
        Err(StreamFault::Read) => Err(DeviceFault::Read),
        Err(StreamFault::Memory) => Err(DeviceFault::Memory),
    }
}

/// Reads a recording, and returns the last whole chapter of each port, up to the end of the recording or the first fault
/// of its format. It does not audit them. Its memory is for a chapter of each port that is there.
///
/// # Errors
///
/// `Read` exactly when the device fails. `Memory` if memory is refused, or if the recording has 2^64 chapters or more.
pub fn read_last<R: DevRead>(alloc: Global, reader: &mut R) -> Result<LastChapters, DeviceFault>
    ensures last { (bytes : List ℕ) → R.remaining reader.old ≡ Some bytes
        → IfOk result (AreLastIn bytes) }
    ensures failures { TellsFailure (R.failures reader.old) (R.failures reader.new) result }
{
    let mut last = LastChapters::new(alloc)?;
    let Some(mut source) = open_chapters(alloc, reader)? else {
        return Ok(last);
    };
    for _chapter in 0..u64::MAX {
        match next_chapter(alloc, &mut source, reader)? {
            Some(chapter) => last.keep(chapter),
            None => return Ok(last),
        }
    }
    Err(DeviceFault::Memory)
}
