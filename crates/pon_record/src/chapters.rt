//! Reads chapters.

ghost use Rattle.std.specs.Prelude.{◌≡◌, ◌<◌, IfOk, length};
ghost use Rattle.pon_record.specs.Format.{all_of};
ghost use Rattle.pon_record.specs.Reading.{ReadsValue};
ghost use Rattle.pon_record.specs.Chapters.{body_in};
ghost use Rattle.pon_record.specs.ChapterReading.{IsBodyOf, ReadsChapter};

use crate::chapter::RawChapter;
use crate::cursor::Cursor;
use crate::fault::{ChapterFault, Stop};
use crate::layout::Layout;
use crate::limits::{CHAPTER_TAG, HEAD_BYTES};
use crate::lists::read_many;
use crate::openings::read_opening;
use crate::version::Version;
use pon_state::MAX_ENTRIES;
use std::alloc::Global;

// Reads the body of the chapter that begins at the place `at` of the recording.
fn read_body(
    alloc: Global,
    version: Version,
    at: usize,
    cursor: &mut Cursor<'_>,
) -> Result<RawChapter, Stop>
    ensures body { ReadsValue (λ c. (c.body, cursor.new)) result
        ((body_in version).read cursor.old) }
    ensures at { IfOk result (λ c. c.at ≡ at) }
{
    let rule = cursor.rule(version)?;
    let layout = Layout { version, rule };
    Ok(RawChapter {
        at,
        port: cursor.port()?,
        number: cursor.u64()?,
        opening: read_opening(alloc, cursor, layout)?,
        entries: read_many(alloc, cursor, layout, MAX_ENTRIES as u32)?,
    })
}

// Reads a body that takes all of `bytes`.
fn read_whole(alloc: Global, version: Version, at: usize, bytes: &[u8]) -> Result<RawChapter, Stop>
    ensures body { ReadsValue (λ c. c.body) result (all_of ((body_in version).read bytes.now)) }
    ensures at { IfOk result (λ c. c.at ≡ at) }
{
    let mut cursor = Cursor::new(bytes);
    let chapter = read_body(alloc, version, at, &mut cursor)?;
    if !cursor.is_at_end() {
        return Err(Stop::Malformed);
    }
    Ok(chapter)
}

/// Returns the bytes of the body of the chapter at the front of `bytes`.
pub(crate) fn body_of(bytes: &[u8]) -> Result<&[u8], ChapterFault>
    requires { 0 < length bytes.now }
    ensures { IsBodyOf bytes.now result }
{
    if bytes[0] != CHAPTER_TAG {
        return Err(ChapterFault::Malformed);
    }
    if bytes.len() < HEAD_BYTES {
        return Err(ChapterFault::CutShort);
    }
    let word = bytes[1..].first_chunk::<4>().unwrap();
    let size = u32::from_be_bytes(*word) as usize;
    if bytes.len() < HEAD_BYTES + size {
        return Err(ChapterFault::CutShort);
    }
    Ok(&bytes[HEAD_BYTES..HEAD_BYTES + size])
}

/// Reads the chapter at the front of `bytes`, at the place `at` of the recording. Returns it with its size in bytes.
pub(crate) fn read_chapter(
    alloc: Global,
    version: Version,
    at: usize,
    bytes: &[u8],
) -> Result<(RawChapter, usize), ChapterFault>
    requires { 0 < length bytes.now }
    ensures { ReadsChapter version bytes.now at result }
{
    let body = body_of(bytes)?;
    let chapter = read_whole(alloc, version, at, body)?;
    Ok((chapter, HEAD_BYTES + body.len()))
}
