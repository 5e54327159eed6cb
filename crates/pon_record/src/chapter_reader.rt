//! Reads the chapters of a recording from a device.

ghost use Rattle.std.specs.Prelude.{◌≡◌, IfOk, IfSome, List, Some, ℕ};
ghost use Rattle.pon_record.specs.Chapters.{FitsChapter, PlacedChapter};
ghost use Rattle.pon_record.specs.Streams.{CountsRead, GivesNext, Opens, StandsAfter};

use crate::chapter::RawChapter;
use crate::chapters::read_chapter;
use crate::fault::ChapterFault;
use crate::fronts::{prove_bytes, read_front, read_up_to};
use crate::limits::MAGIC_BYTES;
use crate::stream_fault::StreamFault;
use crate::version::{Version, version_of};
use pon_device::DevRead;
use std::alloc::Global;
use std::marker::Model;

// Maximum number of bytes of a read.
const PIECE_BYTES: usize = 65_536;

/// A reader of the chapters of a recording, one after another. It keeps the bytes of one chapter. Contracts see it as
/// the version of the recording and the place of the next chapter.
#[derive(Drop)]
pub struct ChapterReader {
    version: Version,
    at: usize,
    piece: Vec<u8>,
    buffer: Vec<u8>,
}

impl Model for ChapterReader {
    ghost use Rattle.std.specs.Prelude.{◌<◌, length};
    ghost use Rattle.pon_record.specs.Streams.{Position};

    ghost Value = { Position };

    ghost view = { λ r. record { version = r.version; at = r.at } };

    ghost invariant = { λ r. 0 < length r.piece.items };
}

impl ChapterReader {
    /// Reads the magic bytes, and no further.
    ///
    /// # Errors
    ///
    /// `BadFormat` and `Truncated`, at 0, only for the magic bytes. `Read` exactly when the device fails. `Memory` if
    /// memory is refused.
    pub fn open<R: DevRead>(alloc: Global, reader: &mut R) -> Result<ChapterReader, StreamFault>
        ensures opens { (bytes : List ℕ) → R.remaining reader.old ≡ Some bytes
            → Opens bytes (R.remaining reader.new) result }
        ensures failures { CountsRead (R.failures reader.old) (R.failures reader.new) result }
    {
        let mut piece = vec![in alloc; 0; PIECE_BYTES]?;
        let mut buffer = Vec::new(alloc);
        read_up_to(reader, &mut piece, &mut buffer, MAGIC_BYTES)?;
        if buffer.len() < MAGIC_BYTES {
            return Err(StreamFault::Truncated { at: 0 });
        }
        match version_of(&buffer) {
            Some(version) => Ok(ChapterReader {
                version,
                at: MAGIC_BYTES,
                piece,
                buffer,
            }),
            None => Err(StreamFault::BadFormat { at: 0 }),
        }
    }

    /// Reads the next chapter; `None` at the end of the device. Memory is taken only for bytes that the device gave,
    /// whatever length a head has.
    ///
    /// # Errors
    ///
    /// `BadFormat` and `Truncated` only for the bytes of this chapter; a wrong tag is returned without reading on.
    /// `Read` exactly when the device fails. `Memory` if memory is refused, or if the place of the chapter after this
    /// one is 2^64 or more. After an error the place of the device in the recording is not known.
    pub fn next<R: DevRead>(
        &mut self,
        alloc: Global,
        reader: &mut R,
    ) -> Result<Option<RawChapter>, StreamFault>
        ensures gives { (bytes : List ℕ) (whole : List PlacedChapter)
            → StandsAfter bytes whole self.old (R.remaining reader.old)
            → GivesNext bytes whole self.new (R.remaining reader.new) result }
        ensures fits { IfOk result (λ next. IfSome next
            (λ c. FitsChapter self.old.version c.body)) }
        ensures failures { CountsRead (R.failures reader.old) (R.failures reader.new) result }
    {
        read_front(reader, &mut self.piece, &mut self.buffer)?;
        if self.buffer.is_empty() {
            return Ok(None);
        }
        prove_bytes(&self.buffer);
        let at = self.at;
        match read_chapter(alloc, self.version, at, &self.buffer) {
            Ok((chapter, _)) => match at.checked_add(self.buffer.len()) {
                Some(next) => {
                    self.at = next;
                    Ok(Some(chapter))
                }
                None => Err(StreamFault::Memory),
            },
            Err(ChapterFault::CutShort) => Err(StreamFault::Truncated { at }),
            Err(ChapterFault::Malformed) => Err(StreamFault::BadFormat { at }),
            Err(ChapterFault::Memory) => Err(StreamFault::Memory),
        }
    }
}
