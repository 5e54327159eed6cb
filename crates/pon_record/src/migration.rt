ghost use Rattle.std.specs.Prelude.{◌≡◌, ◌≤◌, List, IfErr, IfOk, length, take};
ghost use Rattle.pon_record.specs.declared.limits.TheConstants.{MAGIC_BYTES, MAGIC_ONE};
ghost use Rattle.pon_record.specs.declared.version.Version.{Version};
ghost use Rattle.pon_record.specs.Chapters.{PlacedChapter};
ghost use Rattle.pon_record.specs.Recordings.{EndsInside, IsFaultIn};
ghost use Rattle.pon_record.specs.Migrations.{IsMigrated, IsMigrationFault};

use crate::chapter::Recording;
use crate::chapters::read_chapter;
use crate::fault::{ChapterFault, ReadFault};
use crate::limits::{MAGIC_BYTES, MAGIC_TWO};
use crate::moved::{ROW_BYTES, put_chapter};
use crate::recording::read_chapters;
use crate::version::{Version, version_of};
use std::alloc::{AllocError, Global};

// Returns the magic bytes of version two, with room for the chapters of version one of `len` bytes: a byte more for
// each row, and for each chapter, which has more bytes than a row.
fn begin(alloc: Global, len: usize) -> Result<Vec<u8>, AllocError>
    ensures { IfOk result (λ out. out.items ≡ MAGIC_TWO) }
{
    let room = len.saturating_add(len / ROW_BYTES);
    let mut out = Vec::with_capacity(alloc, room)?;
    out.extend_from_slice(&MAGIC_TWO)?;
    Ok(out)
}

// Returns the fault of a version one recording that ends inside the chapter at a place: the bytes before it are a
// recording of the chapters before it.
fn cut_short(alloc: Global, bytes: &[u8], at: usize) -> ReadFault
    requires { (whole : List PlacedChapter) × EndsInside Version.One bytes.now at whole }
    ensures { IsFaultIn Version.One bytes.now result }
{
    match read_chapters(alloc, Version::One, &bytes[..at]) {
        Ok(whole) => ReadFault::Truncated { at, whole },
        Err(fault) => fault,
    }
}

// Migrates the chapters that follow the magic bytes of version one.
fn migrate_chapters(alloc: Global, bytes: &[u8]) -> Result<Vec<u8>, ReadFault>
    requires long { MAGIC_BYTES ≤ length bytes.now }
    requires magic { take MAGIC_BYTES bytes.now ≡ MAGIC_ONE }
    ensures ok { IfOk result (λ new. IsMigrated bytes.now new.items) }
    ensures fault { IfErr result (λ f. IsMigrationFault bytes.now f) }
{
    let mut out = begin(alloc, bytes.len())?;
    let mut rest = &bytes[MAGIC_BYTES..];
    while !rest.is_empty() {
        let at = bytes.len() - rest.len();
        match read_chapter(alloc, Version::One, at, rest) {
            Ok((chapter, size)) => {
                let (piece, after) = rest.split_at(size);
                put_chapter(&mut out, &chapter, piece)?;
                rest = after;
            }
            Err(ChapterFault::CutShort) => return Err(cut_short(alloc, bytes, at)),
            Err(ChapterFault::Malformed) => return Err(ReadFault::BadFormat { at }),
            Err(ChapterFault::Memory) => return Err(ReadFault::Memory),
        }
    }
    Ok(out)
}

/// Returns a version one recording as a version two recording of the same chapters: each under rule one, with a carry
/// of 0 in each row. The result has one byte more for each chapter and for each row.
///
/// Takes memory for the result and one chapter, and for the chapters before a cut.
///
/// # Errors
///
/// The first fault of the bytes as a version one recording, as for [`crate::read_recording`], with the places of the
/// input. A version two recording is `BadFormat` at 0. `Memory` if memory is refused before a fault is found.
pub fn migrate(alloc: Global, bytes: &[u8]) -> Result<Vec<u8>, ReadFault>
    ensures ok { IfOk result (λ new. IsMigrated bytes.now new.items) }
    ensures fault { IfErr result (λ f. IsMigrationFault bytes.now f) }
{
    if bytes.len() < MAGIC_BYTES {
        let whole = Recording::new(alloc);
        return Err(ReadFault::Truncated { at: 0, whole });
    }
    match version_of(bytes) {
        Some(Version::One) => migrate_chapters(alloc, bytes),
        _ => Err(ReadFault::BadFormat { at: 0 }),
    }
}
