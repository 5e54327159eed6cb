// Ports turn, and their chapters become recordings.
ghost use Rattle.std.specs.Prelude.{◌≡◌, ◌≢◌, ◌<◌, [], ◌∷◌, IfOk, IsNone, IsSome, None, Some};
ghost use Rattle.pon_units.specs.declared.limits.TheConstants.{MAX_PORTS};
ghost use Rattle.pon_history.specs.Chapters.{chapter_after};
ghost use Rattle.pon_record.specs.declared.version.Version.{Version};
ghost use Rattle.pon_record.specs.Recordings.{recording_bytes};
ghost use Rattle.pon_record.specs.Bodies.{chapter_body};
ghost use Rattle.pon_c.specs.Filling.{IsGiven};
ghost use Rattle.pon_c.specs.Turning.{TellsRecording, TellsTurn, TurnsInto};

use crate::chapter_handle::ChapterHandle;
use crate::filling::fill;
use crate::handle::PortHandle;
use crate::numbers::{BAD_PORT, CLOSED, IS_OPEN, OUT_OF_MEMORY, number};
use crate::turned::Turned;
use pon_device::MemWrite;
use pon_history::Chapter;
use pon_port::Port;
use pon_record::RecordFile;
use pon_units::PortNo;
use std::alloc::{AllocError, Global};

// Turns a port into a closed handle. Returns 0, or the number of the reason.
fn turn_into(alloc: Global, port: &mut Port, chapter: &mut ChapterHandle) -> u32
    requires closed { chapter.old.owned.chapter ≡ None }
    ensures ok { result ≡ 0 → (port.new ≡ chapter_after port.old)
        × (chapter.new.owned.chapter ≡ Some (Some port.old)) }
    ensures told { TellsTurn (Some port.old) result }
    ensures err { result ≢ 0 → (port.new ≡ port.old)
        × (chapter.new.owned.chapter ≡ chapter.old.owned.chapter) }
{
    let Ok(mut room) = Box::new(alloc, Turned::empty()) else {
        return OUT_OF_MEMORY;
    };
    match port.turn() {
        Ok(turned) => {
            room.put(turned);
            *chapter = ChapterHandle::of(room);
            0
        }
        Err(refusal) => number(refusal),
    }
}

/// Turns a port: its kept chapter goes into the closed handle `chapter`, and the next chapter begins in the same state.
/// No event is copied. Returns 0, or the first of: `IS_OPEN` for an open handle `chapter`, `CLOSED` for the port,
/// `OUT_OF_MEMORY`, and `CHAPTER_FULL` if no number of a chapter is left. Then nothing has changed.
#[unsafe(no_mangle)]
pub extern "C" fn sez_turn(alloc: Global, port: &mut PortHandle, chapter: &mut ChapterHandle) -> u32
    ensures ok { result ≡ 0 → TurnsInto port.old.owned.port port.new.owned.port
        chapter.new.owned.chapter }
    ensures err { result ≢ 0 → port.new.owned.port ≡ port.old.owned.port }
    ensures closed { result ≢ 0 → chapter.new.owned.chapter ≡ chapter.old.owned.chapter }
    ensures is_open { IsSome chapter.old.owned.chapter → result ≡ IS_OPEN }
    ensures told { IsNone chapter.old.owned.chapter → TellsTurn port.old.owned.port result }
{
    if chapter.is_open() {
        return IS_OPEN;
    }
    let Some(mut open) = port.take(alloc) else {
        return CLOSED;
    };
    let told = turn_into(alloc, &mut open, chapter);
    *port = PortHandle::of(open);
    told
}

// Writes the recording of one chapter into memory. `Err` only if memory is refused.
fn recorded(
    alloc: Global,
    port: PortNo,
    chapter: &Chapter,
) -> Result<RecordFile<MemWrite>, AllocError>
    ensures { IfOk result (λ file. file.device.taken
        ≡ recording_bytes Version.Two (chapter_body port chapter.now ∷ [])) }
{
    let device = MemWrite::new(alloc, usize::MAX, Vec::new(alloc));
    let mut file = RecordFile::open(alloc, device)?;
    match file.append(port, chapter) {
        Ok(()) => Ok(file),
        Err(_) => Err(AllocError),
    }
}

// Writes the recording of one chapter to the front of `room`.
fn put_recording(
    alloc: Global,
    port: PortNo,
    chapter: &Chapter,
    room: &mut [u8],
    size: &mut usize,
) -> u32
    ensures { IsGiven (recording_bytes Version.Two (chapter_body port chapter.now ∷ []))
        result size.new room.old room.new }
{
    match recorded(alloc, port, chapter) {
        Ok(file) => fill(file.writer().bytes(), room, size),
        Err(_) => OUT_OF_MEMORY,
    }
}

/// Writes a recording, version two of the format, of the chapter in a handle, as one of the port with the number
/// `number`, to the front of `room`, and the number of its bytes to `size`. Returns 0, or `BAD_PORT` for a number above
/// 63, or `CLOSED`, or `OUT_OF_MEMORY`, or `NO_ROOM`: then `size` is the number of bytes that the room must have.
#[unsafe(no_mangle)]
pub extern "C" fn sez_chapter_bytes(
    alloc: Global,
    chapter: &mut ChapterHandle,
    number: u8,
    room: &mut [u8],
    size: &mut usize,
) -> u32
    ensures number { (number < MAX_PORTS → ⊥) → (result ≡ BAD_PORT) × (room.new ≡ room.old) }
    ensures told { number < MAX_PORTS → TellsRecording number chapter.old.owned.chapter
        result size.new room.old room.new }
    ensures same { chapter.new.owned.chapter ≡ chapter.old.owned.chapter }
{
    let Some(port) = PortNo::new(number) else {
        return BAD_PORT;
    };
    let Some(open) = chapter.take(alloc) else {
        return CLOSED;
    };
    let told = match open.chapter() {
        Some(kept) => put_recording(alloc, port, kept, room, size),
        None => CLOSED,
    };
    *chapter = ChapterHandle::of(open);
    told
}

/// Closes the handle of a chapter, and frees the memory of the chapter. Returns 0, or `CLOSED` if it is closed already.
#[unsafe(no_mangle)]
pub extern "C" fn sez_chapter_close(alloc: Global, chapter: &mut ChapterHandle) -> u32
    ensures closed { chapter.new.owned.chapter ≡ None }
    ensures was_open { IsSome chapter.old.owned.chapter → result ≡ 0 }
    ensures was_closed { IsNone chapter.old.owned.chapter → result ≡ CLOSED }
{
    match chapter.take(alloc) {
        Some(open) => {
            drop(open);
            0
        }
        None => CLOSED,
    }
}
