//! The second line about a recording that is not good.

ghost use Rattle.pon_audit.specs.Openings.{FitsRecording};

use crate::alloc_fields::structure_fields;
use crate::chapters::{next_chapter, open_chapters};
use crate::counted::CountedBytes;
use crate::fault::{FaultDetail, explain_fault};
use crate::frames::last_frame;
use crate::lines::append_event;
use crate::text::push_fields;
use pon_admit::Event;
use pon_audit::{AuditReason, Verdict};
use pon_bwmap::Alloc;
use pon_device::{DevRead, DeviceFault};
use pon_record::RawChapter;
use pon_state::{Entry, EntryRef};
use pon_units::{FrameNo, PortNo};
use std::alloc::{AllocError, Global};

/// The fault of a chapter, as a verdict has it.
#[derive(Clone, Copy)]
struct Fault {
    port: PortNo,
    chapter: u64,
    index: usize,
    why: AuditReason,
}

// Makes the line about a chapter that fails before its first entry; `None` for an entry.
fn chapter_text(alloc: Global, fault: &Fault) -> Option<Result<String, AllocError>> {
    let (port, chapter) = (fault.port.get(), fault.chapter);
    match fault.why {
        AuditReason::Opening => Some(format!(in alloc;
            "chapter {chapter} opens with a state that no port can have"
        )),
        AuditReason::Chain => Some(format!(in alloc;
            "chapter {chapter} does not open with the state at the end of the chapter before it"
        )),
        AuditReason::Number => Some(format!(in alloc;
            "an earlier chapter of port {port} has the number {chapter} or a greater one"
        )),
        _ => None,
    }
}

// Makes the text of a structure, with the fields that it has in `olt why`; `none` without one.
fn structure_text(alloc: Global, structure: &Option<Alloc>) -> Result<String, AllocError> {
    let mut text = String::new(alloc);
    match structure {
        Some(structure) => push_fields(&mut text, &structure_fields(structure))?,
        None => text.push_str("none")?,
    }
    Ok(text)
}

// Makes the line about the map of a frame.
fn map_text(alloc: Global, frame: FrameNo, detail: &FaultDetail) -> Result<String, AllocError> {
    let frame = frame.get();
    match *detail {
        FaultDetail::Refused(refusal) => format!(in alloc; "frame {frame}: {refusal}"),
        FaultDetail::Certificate(fault) => {
            format!(in alloc; "frame {frame}: the certificate is refused, {fault}")
        }
        FaultDetail::Grant { id, wanted, found } => {
            let owed = wanted.saturating_sub(1);
            format!(in alloc;
                "frame {frame} alloc {id}: {owed} words are owed, a grant of {wanted}; there is a grant of {found}"
            )
        }
        FaultDetail::Structure {
            place,
            wanted,
            found,
        } => {
            let wanted = structure_text(alloc, &wanted)?;
            let found = structure_text(alloc, &found)?;
            format!(in alloc; "frame {frame} structure {place}: {found}; wanted {wanted}")
        }
        FaultDetail::Frame { next } => {
            let next = next.get();
            format!(in alloc; "frame {frame}: the next frame is {next}")
        }
    }
}

// Makes the line about an event that is no map: the event as a management line, and the check that refuses it.
fn event_text(alloc: Global, event: &Event, detail: &FaultDetail) -> Result<String, AllocError> {
    let mut line = Vec::new(alloc);
    append_event(&mut line, event)?;
    let FaultDetail::Refused(refusal) = detail else {
        return Ok(String::new(alloc));
    };
    match str::from_utf8(&line) {
        Ok(line) => format!(in alloc; "{line}: {refusal}"),
        Err(_) => format!(in alloc; "{refusal}"),
    }
}

// Makes the line about an entry that may not follow.
fn detail_text(alloc: Global, entry: &Entry, detail: &FaultDetail) -> Result<String, AllocError> {
    match entry.as_ref() {
        EntryRef::Map(made) => map_text(alloc, made.frame, detail),
        EntryRef::Taken(event) => event_text(alloc, event, detail),
    }
}

// Makes the line about the entry of a chapter that may not follow; `None` if it may.
fn entry_text(
    alloc: Global,
    chapter: &RawChapter,
    index: usize,
) -> Result<Option<String>, AllocError>
    requires { FitsRecording chapter.now.body }
{
    if index >= chapter.entries.len() {
        return Ok(None);
    }
    match explain_fault(alloc, chapter, index) {
        Ok(Some(detail)) => {
            let line = detail_text(alloc, &chapter.entries[index], &detail)?;
            Ok(Some(line))
        }
        Ok(None) => Ok(None),
        Err(error) => Err(error),
    }
}

// Makes the line about the fault of an entry, from the first chapter of its port and number.
fn bad_text<R: DevRead>(
    alloc: Global,
    reader: &mut R,
    fault: &Fault,
) -> Result<Option<String>, DeviceFault> {
    if let Some(text) = chapter_text(alloc, fault) {
        return Ok(Some(text?));
    }
    let Some(mut source) = open_chapters(alloc, reader)? else {
        return Ok(None);
    };
    for _chapter in 0..u64::MAX {
        let Some(chapter) = next_chapter(alloc, &mut source, reader)? else {
            return Ok(None);
        };
        if chapter.port == fault.port && chapter.number == fault.chapter {
            return Ok(entry_text(alloc, &chapter, fault.index)?);
        }
    }
    Ok(None)
}

// Makes the line about a recording that is cut: its bytes, and the last frame of its last whole chapter with a map.
fn cut_text<R: DevRead>(
    alloc: Global,
    reader: &mut CountedBytes<R>,
) -> Result<Option<String>, DeviceFault> {
    let mut last: Option<(PortNo, FrameNo)> = None;
    if let Some(mut source) = open_chapters(alloc, reader)? {
        for _chapter in 0..u64::MAX {
            let Some(chapter) = next_chapter(alloc, &mut source, reader)? else {
                break;
            };
            if let Some(frame) = last_frame(&chapter.entries) {
                last = Some((chapter.port, frame));
            }
        }
    }
    let bytes = reader.bytes();
    let line = match last {
        Some((port, frame)) => {
            let (port, frame) = (port.get(), frame.get());
            format!(in alloc; "{bytes} bytes, the last whole frame is {frame} of port {port}")?
        }
        None => format!(in alloc; "{bytes} bytes, and no whole frame")?,
    };
    Ok(Some(line))
}

/// Makes the line that explains the verdict on a recording, which is read again. Of an entry that may not follow it has the
/// frame, and the Alloc-ID with what it is owed and what it has, or the check that refuses the event. Of a recording that is
/// cut it has the bytes and the last frame of the last whole chapter that has a map. `None` of other recordings.
///
/// # Errors
///
/// `Read` if the reader fails, `Memory` if memory is refused.
pub fn fault_line<R: DevRead>(
    alloc: Global,
    reader: &mut CountedBytes<R>,
    verdict: &Verdict,
) -> Result<Option<String>, DeviceFault> {
    match *verdict {
        Verdict::Bad {
            port,
            chapter,
            index,
            why,
        } => {
            let fault = Fault {
                port,
                chapter,
                index,
                why,
            };
            bad_text(alloc, reader, &fault)
        }
        Verdict::Truncated { .. } => cut_text(alloc, reader),
        Verdict::Good { .. } | Verdict::BadFormat { .. } => Ok(None),
    }
}
