//! The chapters of a recording, read in batches.

ghost use Rattle.std.specs.Prelude.{ℕ, All, IfOk, List};
ghost use Rattle.pon_record.specs.Chapters.{PlacedChapter};
ghost use Rattle.pon_record.specs.Streams.{StandsAfter};
ghost use Rattle.pon_audit.specs.Openings.{FitsRecording};
ghost use Rattle.pon_audit.specs.Streams.{ReadsBatch, TellsFailure};

use pon_device::{DevRead, DeviceFault};
use pon_record::{ChapterReader, RawChapter, StreamFault};
use pon_state::MAX_ENTRIES;
use std::alloc::Global;

// Maximum number of chapters of a batch.
const BATCH_CHAPTERS: usize = 64;

// A batch with this number of entries, of four full chapters, takes no further chapter.
const BATCH_ENTRIES: usize = 4 * MAX_ENTRIES;

/// Why a batch has no further chapter.
#[derive(Clone, Copy, Debug, PartialEq, Eq)]
pub enum BatchEnd {
    /// The batch is full.
    More,
    /// The recording is whole.
    Whole,
    /// The recording ends inside the chapter that begins at `at`.
    Cut { at: usize },
    /// No chapter begins at `at`.
    Malformed { at: usize },
}

/// The next chapters of a recording.
#[derive(Drop)]
pub struct Batch {
    /// The chapters, at most 64.
    pub chapters: Vec<RawChapter>,
    /// Why the batch has no further chapter.
    pub end: BatchEnd,
}

/// Reads the next chapters. `Read` exactly when the device fails. `Memory` if memory is refused or the place of a
/// chapter is 2^64 or more.
pub(crate) fn read_batch<R: DevRead>(
    alloc: Global,
    source: &mut ChapterReader,
    reader: &mut R,
) -> Result<Batch, DeviceFault>
    ensures fit { IfOk result (λ b. All (λ c. FitsRecording c.body) b.chapters.items) }
    ensures batch { IfOk result (λ b. (bytes : List ℕ) (whole : List PlacedChapter)
        → StandsAfter bytes whole source.old (R.remaining reader.old)
        → ReadsBatch bytes whole source.new (R.remaining reader.new) b) }
    ensures failures { TellsFailure (R.failures reader.old) (R.failures reader.new) result }
{
    let mut chapters = Vec::new(alloc);
    let mut entries = 0;
    while chapters.len() < BATCH_CHAPTERS && entries < BATCH_ENTRIES {
        match source.next(alloc, reader) {
            Ok(Some(chapter)) => {
                entries = chapter.entries.len().saturating_add(entries);
                if chapters.push(chapter).is_err() {
                    return Err(DeviceFault::Memory);
                }
            }
            Ok(None) => return Ok(Batch {
                chapters,
                end: BatchEnd::Whole,
            }),
            Err(StreamFault::Truncated { at }) => {
                let end = BatchEnd::Cut { at };
                return Ok(Batch { chapters, end });
            }
            Err(StreamFault::BadFormat { at }) => {
                let end = BatchEnd::Malformed { at };
                return Ok(Batch { chapters, end });
            }
            Err(StreamFault::Read) => return Err(DeviceFault::Read),
            Err(StreamFault::Memory) => return Err(DeviceFault::Memory),
        }
    }
    Ok(Batch {
        chapters,
        end: BatchEnd::More,
    })
}
