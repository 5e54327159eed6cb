//! The time line of a map of a recording.

ghost use Rattle.std.specs.Prelude.{◌≡◌, ◌≢◌, [], ℕ, List, IfOk, IfSome};
ghost use Rattle.pon_record.specs.Streams.{StandsAfter};
ghost use Rattle.pon_web.specs.Handing.{HandsNothing};
ghost use Rattle.pon_web.specs.Pictures.{HasMap, IsMapOf, TellsPicture};
ghost use Rattle.pon_web.specs.declared.status.TheConstants.{GOOD};

use crate::frames::frame_of;
use crate::handing::hand_out;
use crate::status::{GOOD, MEMORY, MISSING};
use pon_device::{DevRead, StdRead};
use pon_draw::{Picture, picture_at};
use pon_record::{ChapterReader, StreamFault};
use pon_state::Entry;
use std::alloc::{AllocError, Global};

// Returns the place of the first map of a frame among entries.
fn place_of(entries: &[Entry], frame: u64) -> Option<usize>
    ensures { IfSome result (IsMapOf entries.now frame) }
{
    for place in 0..entries.len() {
        if let Some(found) = frame_of(&entries[place]) {
            if found.get() == frame {
                return Some(place);
            }
        }
    }
    None
}

// Draws the first map of a frame of a port in the chapters that follow; `None` if there is none before a fault of the
// format. `Err` only if memory is refused.
fn draw_from<R: DevRead>(
    alloc: Global,
    source: &mut ChapterReader,
    reader: &mut R,
    port: u8,
    frame: u64,
) -> Result<Option<Picture>, AllocError>
    ensures { (bytes : List ℕ) → StandsAfter bytes [] source.old (R.remaining reader.old)
        → IfOk result (λ drawn. IfSome drawn (λ _. HasMap bytes port frame)) }
{
    for _chapter in 0..u64::MAX {
        match source.next(alloc, reader) {
            Ok(Some(chapter)) => {
                if chapter.port.get() == port {
                    if let Some(place) = place_of(&chapter.entries, frame) {
                        return picture_at(alloc, &chapter, place);
                    }
                }
            }
            Ok(None) => return Ok(None),
            Err(StreamFault::BadFormat { .. }) | Err(StreamFault::Truncated { .. }) => {
                return Ok(None);
            }
            Err(StreamFault::Read) | Err(StreamFault::Memory) => return Err(AllocError),
        }
    }
    Err(AllocError)
}

// Draws the first map of a frame of a port in a recording; `None` if there is none. `Err` only if memory is refused.
fn draw(
    alloc: Global,
    recording: &[u8],
    port: u8,
    frame: u64,
) -> Result<Option<Picture>, AllocError>
    ensures { IfOk result (λ drawn. IfSome drawn (λ _. HasMap recording.now port frame)) }
{
    let mut reader = StdRead::new(recording);
    match ChapterReader::open(alloc, &mut reader) {
        Ok(mut source) => draw_from(alloc, &mut source, &mut reader, port, frame),
        Err(StreamFault::BadFormat { .. }) | Err(StreamFault::Truncated { .. }) => Ok(None),
        Err(StreamFault::Read) | Err(StreamFault::Memory) => Err(AllocError),
    }
}

/// Draws the map of a frame of a port, the first one in the recording, before the first fault of its format. The answer is
/// the SVG that `olt picture` writes. Returns `GOOD`, or `MISSING` if there is no such map, or `MEMORY`.
#[unsafe(no_mangle)]
pub extern "C" fn pon_web_picture(
    alloc: Global,
    recording: &[u8],
    port: u8,
    frame: u64,
    room: &mut [u8],
    length: &mut usize,
) -> u8
    ensures told { result ≡ GOOD → TellsPicture recording.now port frame room.old room.new length.new }
    ensures other { result ≢ GOOD → HandsNothing room.old room.new length.old length.new }
{
    match draw(alloc, recording, port, frame) {
        Ok(Some(picture)) => {
            hand_out(picture.svg.as_bytes(), room, length);
            GOOD
        }
        Ok(None) => MISSING,
        Err(_) => MEMORY,
    }
}
