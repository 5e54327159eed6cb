//! The chapters of a recording, one after another, up to the first fault of its format.

ghost use Rattle.std.specs.Prelude.{IfOk, IfSome};
ghost use Rattle.pon_audit.specs.Openings.{FitsRecording};

use pon_device::{DevRead, DeviceFault};
use pon_record::{ChapterReader, RawChapter, StreamFault};
use std::alloc::Global;

/// Opens the chapters of a recording; `None` if its magic bytes are wrong or cut.
pub(crate) fn open_chapters<R: DevRead>(
    alloc: Global,
    reader: &mut R,
) -> Result<Option<ChapterReader>, DeviceFault> {
    match ChapterReader::open(alloc, reader) {
        Ok(source) => Ok(Some(source)),
        Err(StreamFault::BadFormat { .. }) => Ok(None),
        Err(StreamFault::Truncated { .. }) => Ok(None),
        Err(StreamFault::Read) => Err(DeviceFault::Read),
        Err(StreamFault::Memory) => Err(DeviceFault::Memory),
    }
}

/// Reads the next chapter; `None` at the end of the recording, or at a fault of its format.
pub(crate) fn next_chapter<R: DevRead>(
    alloc: Global,
    source: &mut ChapterReader,
    reader: &mut R,
) -> Result<Option<RawChapter>, DeviceFault>
    ensures { IfOk result (λ next. IfSome next (λ c. FitsRecording c.body)) }
{
    match source.next(alloc, reader) {
        Ok(next) => Ok(next),
        Err(StreamFault::BadFormat { .. }) => Ok(None),
        Err(StreamFault::Truncated { .. }) => Ok(None),
        Err(StreamFault::Read) => Err(DeviceFault::Read),
        Err(StreamFault::Memory) => Err(DeviceFault::Memory),
    }
}
