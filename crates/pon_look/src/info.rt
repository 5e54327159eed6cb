//! What `olt info` prints of a recording, chapter by chapter.

ghost use Rattle.std.specs.Prelude.{IfOk, List, Option, ℕ};
ghost use Rattle.pon_device.specs.Streams.{TellsWrite};
ghost use Rattle.pon_audit.specs.Auditing.{IsAuditing};
ghost use Rattle.pon_audit.specs.Streams.{IsVerdictOf};
ghost use Rattle.pon_look.specs.Views.{CountsReads, OnlyWrites};

use crate::counted::CountedBytes;
use crate::gaps::gap_before;
use crate::info_fields::{chapter_line, missing_line, total_line};
use crate::printer::Printer;
use crate::query::{Answer, Format};
use crate::summary::{Totals, summary_of, with_chapter};
use crate::viewed::Viewed;
use pon_audit::{Auditing, BatchEnd, KeptEnds, Step, Verdict};
use pon_device::{DevRead, DevWrite, DeviceFault, write_text};
use pon_record::RawChapter;
use pon_units::MAX_PORTS;
use std::alloc::{AllocError, Global};
use std::thread::Threads;

// The number of the last chapter of each port, if there was one.
type LastChapters = [Option<u64>; MAX_PORTS];

/// Writes a line, of which the text may be refused memory.
pub(crate) fn write_line<W: DevWrite>(
    line: Result<String, AllocError>,
    writer: &mut W,
) -> Result<(), DeviceFault>
    ensures write { OnlyWrites (W.failures writer.old) (W.failures writer.new) result }
{
    match line {
        Ok(line) => write_text(writer, line.as_bytes()),
        Err(_) => Err(DeviceFault::Memory),
    }
}

// Writes a line about the chapters that are missing before a chapter, after the last one of its port.
fn write_missing<W: DevWrite>(
    printer: &mut Printer,
    before: Option<u64>,
    chapter: &RawChapter,
    writer: &mut W,
) -> Result<(), DeviceFault>
    ensures write { OnlyWrites (W.failures writer.old) (W.failures writer.new) result }
{
    if before.is_none() {
        return Ok(());
    }
    match gap_before(chapter.port, before, chapter.number) {
        Some(gap) => write_line(missing_line(printer, &gap), writer),
        None => Ok(()),
    }
}

// Writes the lines of a chapter that ends before the byte `end`. Returns the totals with it.
fn write_chapter<W: DevWrite>(
    alloc: Global,
    printer: &mut Printer,
    totals: Totals,
    chapter: &RawChapter,
    end: u64,
    writer: &mut W,
) -> Result<Totals, DeviceFault>
    ensures write { OnlyWrites (W.failures writer.old) (W.failures writer.new) result }
{
    let summary = summary_of(chapter);
    let bytes = end.saturating_sub(chapter.at as u64);
    let line = chapter_line(alloc, printer, &summary, chapter, bytes);
    match write_line(line, writer) {
        Ok(()) => match with_chapter(totals, &summary) {
            Some(sum) => Ok(sum),
            None => Err(DeviceFault::Memory),
        },
        Err(fault) => Err(fault),
    }
}

/// What was seen of the chapters so far: the number of the last one of each port, and the totals.
#[derive(Clone, Copy)]
pub(crate) struct SoFar {
    last: LastChapters,
    pub totals: Totals,
}

impl SoFar {
    /// Before the first chapter.
    pub(crate) const NOTHING: SoFar = SoFar {
        last: [None; MAX_PORTS],
        totals: Totals {
            chapters: 0,
            maps: 0,
            reports: 0,
            failures: 0,
        },
    };

    // Writes the lines of the next chapter, which ends before the byte `end`.
    fn write_next<W: DevWrite>(
        &mut self,
        alloc: Global,
        printer: &mut Printer,
        chapter: &RawChapter,
        end: u64,
        writer: &mut W,
    ) -> Result<(), DeviceFault>
        ensures write { OnlyWrites (W.failures writer.old) (W.failures writer.new) result }
    {
        let port = chapter.port.get() as usize;
        write_missing(printer, self.last[port], chapter, writer)?;
        self.totals = write_chapter(alloc, printer, self.totals, chapter, end, writer)?;
        self.last[port] = Some(chapter.number);
        Ok(())
    }

    /// Writes the lines of the next chapters, of which the last one ends before the byte `end`.
    pub(crate) fn write_batch<W: DevWrite>(
        &mut self,
        alloc: Global,
        printer: &mut Printer,
        chapters: &[RawChapter],
        end: u64,
        writer: &mut W,
    ) -> Result<(), DeviceFault>
        ensures write { OnlyWrites (W.failures writer.old) (W.failures writer.new) result }
    {
        for place in 0..chapters.len() {
            let chapter_end = match chapters.get(place + 1) {
                Some(next) => next.at as u64,
                None => end,
            };
            self.write_next(alloc, printer, &chapters[place], chapter_end, writer)?;
        }
        Ok(())
    }
}

/// Returns the byte after the last chapter of a batch, after which `read` bytes are read.
pub(crate) fn end_of(end: BatchEnd, read: u64) -> u64 {
    match end {
        BatchEnd::More | BatchEnd::Whole => read,
        BatchEnd::Cut { at } | BatchEnd::Malformed { at } => at as u64,
    }
}

// Writes the lines of the chapters that are left of a recording, and the totals. Returns the verdict of its audit.
fn write_chapters<R: DevRead, W: DevWrite>(
    rt: &(impl Threads + Sync),
    alloc: Global,
    auditing: &mut Auditing,
    reader: &mut CountedBytes<R>,
    printer: &mut Printer,
    writer: &mut W,
) -> Result<Verdict, DeviceFault>
    requires { (start : Option (List ℕ)) × IsAuditing start auditing.old (⟦<CountedBytes<R> as DevRead>⟧.remaining reader.old) }
    ensures verdict { IfOk result (λ verdict. (start : Option (List ℕ))
        → IsAuditing start auditing.old (⟦<CountedBytes<R> as DevRead>⟧.remaining reader.old) → IsVerdictOf start verdict) }
    ensures read { CountsReads (⟦<CountedBytes<R> as DevRead>⟧.failures reader.old) (⟦<CountedBytes<R> as DevRead>⟧.failures reader.new) result }
    ensures write { TellsWrite (W.failures writer.old) (W.failures writer.new) result }
{
    let mut seen = SoFar::NOTHING;
    for _batch in 0..u64::MAX {
        let Step { batch, verdict } = auditing.next(rt, alloc, reader)?;
        let end = end_of(batch.end, reader.bytes());
        seen.write_batch(alloc, printer, &batch.chapters, end, writer)?;
        if let Some(verdict) = verdict {
            let line = total_line(printer, &seen.totals, reader.bytes());
            write_line(line, writer)?;
            return Ok(verdict);
        }
    }
    Err(DeviceFault::Memory)
}

/// Writes a line for each chapter of a recording, and one for chapters that are missing between two of a port, while
/// the recording is audited. Then writes the totals, at the end of the recording or at the first fault of its format.
/// Returns the verdict of the audit.
///
/// # Errors
///
/// `Read` exactly when the reader fails, `Write` exactly when the writer fails, `Memory` if memory is refused,
/// or the ends that the audit keeps do not suffice.
pub fn write_info<R: DevRead, W: DevWrite>(
    rt: &(impl Threads + Sync),
    alloc: Global,
    kept: KeptEnds,
    reader: &mut CountedBytes<R>,
    format: Format,
    writer: &mut W,
) -> Result<Viewed<Answer>, DeviceFault>
    ensures verdict { IfOk result (λ viewed. IsVerdictOf (⟦<CountedBytes<R> as DevRead>⟧.remaining reader.old) viewed.verdict) }
    ensures read { CountsReads (⟦<CountedBytes<R> as DevRead>⟧.failures reader.old) (⟦<CountedBytes<R> as DevRead>⟧.failures reader.new) result }
    ensures write { TellsWrite (W.failures writer.old) (W.failures writer.new) result }
{
    let mut printer = Printer::new(alloc, format);
    let verdict = match Auditing::open(alloc, kept, reader)? {
        Ok(mut auditing) => write_chapters(rt, alloc, &mut auditing, reader, &mut printer, writer)?,
        Err(verdict) => verdict,
    };
    let shown = Answer::Shown;
    Ok(Viewed { verdict, shown })
}
