ghost use Rattle.std.specs.Prelude.{◌≡◌, ◌≤◌, IfOk, IfErr, length, take};
ghost use Rattle.pon_record.specs.declared.limits.TheConstants.{MAGIC_BYTES};
ghost use Rattle.pon_record.specs.Recordings.{IsFaultIn, IsReadFault, IsRecording, IsRecordingIn, magic};

use crate::chapter::Recording;
use crate::chapters::read_chapter;
use crate::fault::{ChapterFault, ReadFault};
use crate::limits::MAGIC_BYTES;
use crate::version::{Version, version_of};
use std::alloc::Global;

/// Reads the chapters of a recording of either version. Returns them only if the bytes are the magic bytes of a version
/// and then whole chapters of it, one after another, with each field in its range.
///
/// # Errors
///
/// The fault of the first chapter that has one. `Truncated` if the bytes end inside the magic bytes, or inside a
/// chapter that begins with its tag, whatever its body. `BadFormat` for wrong magic bytes, a wrong tag, a field out of
/// its range, a refused descriptor, or a body that does not end where its length says. `Memory` if memory is refused
/// before a fault is found.
pub fn read_recording(alloc: Global, bytes: &[u8]) -> Result<Recording, ReadFault>
    ensures ok { IfOk result (λ r. IsRecording bytes.now r) }
    ensures fault { IfErr result (λ f. IsReadFault bytes.now f) }
{
    if bytes.len() < MAGIC_BYTES {
        let whole = Recording::new(alloc);
        return Err(ReadFault::Truncated { at: 0, whole });
    }
    match version_of(bytes) {
        Some(version) => read_chapters(alloc, version, bytes),
        None => Err(ReadFault::BadFormat { at: 0 }),
    }
}

/// Reads the chapters that follow the magic bytes of a version.
pub(crate) fn read_chapters(
    alloc: Global,
    version: Version,
    bytes: &[u8],
) -> Result<Recording, ReadFault>
    requires long { MAGIC_BYTES ≤ length bytes.now }
    requires magic { take MAGIC_BYTES bytes.now ≡ magic version }
    ensures ok { IfOk result (λ r. IsRecordingIn version bytes.now r) }
    ensures fault { IfErr result (λ f. IsFaultIn version bytes.now f) }
{
    let mut whole = Recording::new(alloc);
    let mut rest = &bytes[MAGIC_BYTES..];
    while !rest.is_empty() {
        let at = bytes.len() - rest.len();
        match read_chapter(alloc, version, at, rest) {
            Ok((chapter, size)) => {
                whole.push(chapter)?;
                let (_, after) = rest.split_at(size);
                rest = after;
            }
            Err(ChapterFault::CutShort) => return Err(ReadFault::Truncated { at, whole }),
            Err(ChapterFault::Malformed) => return Err(ReadFault::BadFormat { at }),
            Err(ChapterFault::Memory) => return Err(ReadFault::Memory),
        }
    }
    Ok(whole)
}
