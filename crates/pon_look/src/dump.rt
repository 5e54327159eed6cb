//! The events of a recording as management lines, each with its reply.

ghost use Rattle.std.specs.Prelude.{IfOk, List, Option, ℕ};
ghost use Rattle.pon_device.specs.Streams.{TellsWrite};
ghost use Rattle.pon_audit.specs.Auditing.{IsAuditing};
ghost use Rattle.pon_audit.specs.Streams.{IsVerdictOf};
ghost use Rattle.pon_look.specs.Views.{CountsReads, OnlyWrites};

use crate::append::{append_map, append_number};
use crate::lines::{Rates, append_event};
use crate::query::Answer;
use crate::seen::SeenPorts;
use crate::viewed::Viewed;
use pon_admit::{Event, Rule};
use pon_audit::{Auditing, KeptEnds, Step, Verdict};
use pon_device::{DevRead, DevWrite, DeviceFault, write_text};
use pon_record::{Opening, RawChapter};
use pon_state::{Entry, EntryRef, MadeMap};
use pon_units::PortNo;
use std::alloc::{AllocError, Global};
use std::thread::Threads;

/// Text is written once it has this number of bytes.
const PIECE_BYTES: usize = 65_536;

/// What stands before each line of a chapter that is not to be executed.
const COMMENT: &str = "# ";

// The text that is to be written, and a buffer for the bytes of a map.
#[derive(Drop)]
struct Page {
    text: Vec<u8>,
    room: Vec<u8>,
}

// Appends the event of an entry as a management line, and its reply, of which `index` counts the entries of the port
// before it.
fn append_taken(text: &mut Vec<u8>, event: &Event, index: u64) -> Result<(), AllocError> {
    append_event(text, event)?;
    text.extend_from_slice(b"\n# ok ")?;
    append_number(text, index)?;
    text.extend_from_slice(b"\n")
}

// Appends the line that a map is made, and the map as its reply: its frame, and its bytes in hexadecimal.
fn append_made(page: &mut Page, made: &MadeMap) -> Result<(), AllocError> {
    let Page { text, room } = page;
    text.extend_from_slice(b"map\n# map ")?;
    append_number(text, made.frame.get())?;
    text.extend_from_slice(b" ")?;
    append_map(text, room, &made.map)?;
    text.extend_from_slice(b"\n")
}

// Appends the line of an entry and its reply, of which `index` counts the entries of the port before it.
fn append_entry(
    page: &mut Page,
    mark: &str,
    port: PortNo,
    index: u64,
    entry: &Entry,
) -> Result<(), AllocError> {
    page.text.extend_from_slice(mark.as_bytes())?;
    append_number(&mut page.text, u64::from(port.get()))?;
    page.text.extend_from_slice(b" ")?;
    match entry.as_ref() {
        EntryRef::Taken(event) => append_taken(&mut page.text, event, index),
        EntryRef::Map(made) => append_made(page, made),
    }
}

// Returns how a chapter opens: the line of the port, and one for each Alloc-ID that is admitted.
fn opening_text(
    alloc: Global,
    port: PortNo,
    number: u64,
    opening: &Opening,
) -> Result<String, AllocError> {
    let (port, first) = (port.get(), opening.next.get());
    let (gap, profile) = (opening.gap.get(), opening.profile.get());
    let rule = match opening.rule {
        Rule::DropRemainders => "dropped",
        Rule::CarryRemainders => "carried",
    };
    let mut text = format!(in alloc;
        "# port {port} chapter {number} first {first} gap {gap} profile {profile} remainders {rule}\n"
    )?;
    for row in &opening.rows {
        let (onu, alloc_id, rates) = (row.onu.get(), row.alloc_id.get(), Rates(&row.descriptor));
        writeln!(text, "# onu {onu} alloc {alloc_id} {rates}")?;
    }
    Ok(text)
}

// Writes the text if it is at least this long.
fn write_from<W: DevWrite>(
    text: &mut Vec<u8>,
    length: usize,
    writer: &mut W,
) -> Result<(), DeviceFault>
    ensures write { OnlyWrites (W.failures writer.old) (W.failures writer.new) result }
{
    if text.len() < length {
        return Ok(());
    }
    match write_text(writer, text) {
        Ok(()) => {
            text.clear();
            Ok(())
        }
        Err(fault) => Err(fault),
    }
}

// Writes the line of an entry and its reply once the page is full.
fn write_entry<W: DevWrite>(
    page: &mut Page,
    mark: &str,
    port: PortNo,
    index: u64,
    entry: &Entry,
    writer: &mut W,
) -> Result<(), DeviceFault>
    ensures write { OnlyWrites (W.failures writer.old) (W.failures writer.new) result }
{
    match append_entry(page, mark, port, index, entry) {
        Ok(()) => write_from(&mut page.text, PIECE_BYTES, writer),
        Err(_) => Err(DeviceFault::Memory),
    }
}

// Appends how a chapter opens.
fn append_opening(alloc: Global, page: &mut Page, chapter: &RawChapter) -> Result<(), AllocError> {
    let text = opening_text(alloc, chapter.port, chapter.number, &chapter.opening)?;
    page.text.extend_from_slice(text.as_bytes())
}

// Writes a chapter. Only the first chapter of a port can be executed again; the lines of each other are comments.
fn write_chapter<W: DevWrite>(
    alloc: Global,
    page: &mut Page,
    chapter: &RawChapter,
    writer: &mut W,
) -> Result<(), DeviceFault>
    ensures write { OnlyWrites (W.failures writer.old) (W.failures writer.new) result }
{
    let port = chapter.port;
    let mark = if chapter.number == 0 { "" } else { COMMENT };
    if append_opening(alloc, page, chapter).is_err() {
        return Err(DeviceFault::Memory);
    }
    let mut index = chapter.opening.taken_before;
    for entry in &chapter.entries {
        write_entry(page, mark, port, index, entry, writer)?;
        index = index.saturating_add(1);
    }
    write_from(&mut page.text, 0, writer)
}

// Writes the chapters of a port, or of all ports, and notes the port of each.
fn write_batch<W: DevWrite>(
    alloc: Global,
    page: &mut Page,
    seen: &mut SeenPorts,
    chapters: &[RawChapter],
    writer: &mut W,
) -> Result<(), DeviceFault>
    ensures write { OnlyWrites (W.failures writer.old) (W.failures writer.new) result }
{
    for chapter in chapters {
        if seen.sees(chapter.port) {
            write_chapter(alloc, page, chapter, writer)?;
        }
    }
    Ok(())
}

// Writes the chapters that are left of a recording. Returns the verdict of its audit.
fn write_chapters<R: DevRead, W: DevWrite>(
    rt: &(impl Threads + Sync),
    alloc: Global,
    auditing: &mut Auditing,
    reader: &mut R,
    seen: &mut SeenPorts,
    writer: &mut W,
) -> Result<Verdict, DeviceFault>
    requires { (start : Option (List ℕ)) × IsAuditing start auditing.old (R.remaining reader.old) }
    ensures verdict { IfOk result (λ verdict. (start : Option (List ℕ))
        → IsAuditing start auditing.old (R.remaining reader.old) → IsVerdictOf start verdict) }
    ensures read { CountsReads (R.failures reader.old) (R.failures reader.new) result }
    ensures write { TellsWrite (W.failures writer.old) (W.failures writer.new) result }
{
    let mut page = Page {
        text: Vec::new(alloc),
        room: Vec::new(alloc),
    };
    for _batch in 0..u64::MAX {
        let Step { batch, verdict } = auditing.next(rt, alloc, reader)?;
        write_batch(alloc, &mut page, seen, &batch.chapters, writer)?;
        if let Some(verdict) = verdict {
            return Ok(verdict);
        }
    }
    Err(DeviceFault::Memory)
}

/// Writes the events of each chapter of a port, or of all ports, as management lines, each with its reply as a comment,
/// while the recording is audited. Returns the verdict of the audit, and what is missing.
///
/// A chapter begins with a comment about its opening. In `olt plan`, with settings of the same first frame, gap and
/// profile and no rows, the lines of chapter 0 of a port give the same replies again. This holds if the chapter's
/// remainders are carried. The lines of a later chapter are comments. The text ends at the end of the recording, or at
/// the first fault of its format.
///
/// # Errors
///
/// `Read` exactly when the reader fails, `Write` exactly when the writer fails, `Memory` if memory is refused, or the ends
/// that the audit keeps do not suffice.
pub fn write_dump<R: DevRead, W: DevWrite>(
    rt: &(impl Threads + Sync),
    alloc: Global,
    kept: KeptEnds,
    reader: &mut R,
    port: Option<PortNo>,
    writer: &mut W,
) -> Result<Viewed<Answer>, DeviceFault>
    ensures verdict { IfOk result (λ viewed. IsVerdictOf (R.remaining reader.old) viewed.verdict) }
    ensures read { CountsReads (R.failures reader.old) (R.failures reader.new) result }
    ensures write { TellsWrite (W.failures writer.old) (W.failures writer.new) result }
{
    let mut seen = SeenPorts::new(port);
    let verdict = match Auditing::open(alloc, kept, reader)? {
        Ok(mut auditing) => { write_chapters(rt, alloc, &mut auditing, reader, &mut seen, writer)? }
        Err(verdict) => verdict,
    };
    let shown = seen.answer();
    Ok(Viewed { verdict, shown })
}
