//! What `olt why` prints: the map of a frame, explained for each Alloc-ID.

ghost use Rattle.std.specs.Prelude.{◌<◌, IfOk, length};
ghost use Rattle.pon_audit.specs.Openings.{FitsRecording, chapter_of};
ghost use Rattle.pon_history.specs.Chapters.{cut_at};
ghost use Rattle.pon_history.specs.Taking.{IsKept};
ghost use Rattle.pon_look.specs.Finding.{IsFound};
ghost use Rattle.pon_device.specs.Streams.{TellsWrite};
ghost use Rattle.pon_audit.specs.Streams.{IsVerdictOf};
ghost use Rattle.pon_look.specs.Views.{CountsReads, OnlyWrites};
ghost use Rattle.pon_look.specs.Whys.{IsExplained};

use crate::finding::{FoundMap, find_map};
use crate::info::write_line;
use crate::printer::Printer;
use crate::query::{Answer, Format, Missing, WhyQuery};
use crate::replay::{MapExplanation, Replay, explain_map, open_replay, replay_to};
use crate::viewed::Viewed;
use crate::why_fields::{MapPlace, Shown, map_line, row_lines};
use pon_audit::KeptEnds;
use pon_device::{DevRead, DevWrite, DeviceFault};
use pon_record::RawChapter;
use pon_state::{EntryRef, MadeMap};
use pon_units::AllocId;
use pon_why::{Explanation, Reports, level_in, reports_of};
use std::alloc::{AllocError, Global};
use std::thread::Threads;

/// The explanation of a map of a chapter, or why there is none.
#[derive(Drop)]
pub enum MapAnswer {
    /// The map follows from the state before its entry.
    Explained(MapExplanation),
    /// No state is known before the entry, or it is not the one that the map's certificate is of: the chapter is
    /// refused at the entry of this index, 0 also if its opening is not lawful.
    Refused(usize),
}

// Explains the map of the entry at an index of a chapter by the state before it.
fn explain_at(
    alloc: Global,
    chapter: &RawChapter,
    index: usize,
    replay: &mut Replay,
) -> Result<MapAnswer, AllocError>
    requires index { index < length chapter.now.body.entries }
    requires kept { IsKept (cut_at (chapter_of chapter.now.body) index) replay.old.state }
    ensures { IfOk result (λ answer. IsExplained (chapter_of chapter.now.body) index answer) }
{
    match chapter.entries[index].as_ref() {
        EntryRef::Map(made) => match explain_map(alloc, replay, made)? {
            Some(explained) => Ok(MapAnswer::Explained(explained)),
            None => Ok(MapAnswer::Refused(index)),
        },
        EntryRef::Taken(_) => Ok(MapAnswer::Refused(index)),
    }
}

/// Explains the map of the entry at an index of a chapter by the state before it, which is the replay of the entries
/// before it.
///
/// # Errors
///
/// `AllocError` only if memory is refused.
pub fn explain_entry(
    alloc: Global,
    chapter: &RawChapter,
    index: usize,
) -> Result<MapAnswer, AllocError>
    requires fits { FitsRecording chapter.now.body }
    requires index { index < length chapter.now.body.entries }
    ensures { IfOk result (λ answer. IsExplained (chapter_of chapter.now.body) index answer) }
{
    let Some(mut replay) = open_replay(alloc, chapter)? else {
        return Ok(MapAnswer::Refused(0));
    };
    let refused = replay_to(alloc, chapter, &mut replay, index)?;
    match refused {
        Some(entry) => return Ok(MapAnswer::Refused(entry)),
        None => {}
    }
    explain_at(alloc, chapter, index, &mut replay)
}

// Writes the lines of the rows that the query asks for, each with its structure.
fn write_rows<W: DevWrite>(
    place: &MapPlace,
    made: &MadeMap,
    explained: &MapExplanation,
    reports: &Reports,
    printer: &mut Printer,
    writer: &mut W,
) -> Result<(), DeviceFault>
    ensures write { OnlyWrites (W.failures writer.old) (W.failures writer.new) result }
{
    let structures = made.map.rows();
    for (index, row) in explained.rows.iter().enumerate() {
        let wanted = place.alloc.is_none() || place.alloc == Some(row.row.alloc_id);
        if wanted {
            let shown = Shown {
                row,
                structure: structures.get(index),
                level: level_in(&made.cert, row.row.descriptor.class()),
                reported: reports.of(row.row.alloc_id),
            };
            write_line(row_lines(printer, place, &shown), writer)?;
        }
    }
    Ok(())
}

// Returns what is missing if a query asks for an Alloc-ID that no row has.
fn missing_alloc(rows: &[Explanation], alloc_id: Option<AllocId>) -> Option<Missing> {
    let alloc_id = alloc_id?;
    if rows.iter().any(|row| row.row.alloc_id == alloc_id) {
        return None;
    }
    Some(Missing::Alloc { alloc_id })
}

// Writes the explanation of the map at an index of a chapter.
fn write_map<W: DevWrite>(
    alloc: Global,
    chapter: &RawChapter,
    place: &MapPlace,
    explained: &MapExplanation,
    printer: &mut Printer,
    writer: &mut W,
) -> Result<(), DeviceFault>
    requires { place.now.entry < length chapter.now.body.entries }
    ensures write { OnlyWrites (W.failures writer.old) (W.failures writer.new) result }
{
    let EntryRef::Map(made) = chapter.entries[place.entry].as_ref() else {
        return Ok(());
    };
    let reports = reports_of(alloc, &chapter.entries[..place.entry], &explained.rows)?;
    write_line(map_line(printer, place, explained, &made.cert), writer)?;
    write_rows(place, made, explained, &reports, printer, writer)
}

// Answers the query by a map that was found.
fn answer_by<W: DevWrite>(
    alloc: Global,
    found: &FoundMap,
    query: &WhyQuery,
    printer: &mut Printer,
    writer: &mut W,
) -> Result<Answer, DeviceFault>
    requires { IsFound found.now }
    ensures write { OnlyWrites (W.failures writer.old) (W.failures writer.new) result }
{
    let FoundMap {
        chapter,
        entry,
        frame,
    } = found;
    let place = MapPlace {
        port: chapter.port,
        chapter: chapter.number,
        entry: *entry,
        frame: *frame,
        alloc: query.alloc,
    };
    match explain_entry(alloc, chapter, *entry)? {
        MapAnswer::Explained(explained) => match missing_alloc(&explained.rows, query.alloc) {
            Some(missing) => Ok(Answer::NotFound(missing)),
            None => {
                write_map(alloc, chapter, &place, &explained, printer, writer)?;
                Ok(Answer::Shown)
            }
        },
        MapAnswer::Refused(entry) => Ok(Answer::NotFound(Missing::State {
            port: chapter.port,
            frame: *frame,
            chapter: chapter.number,
            entry: entry as u64,
        })),
    }
}

/// Writes the explanation of a map that was found. Returns what is missing.
pub(crate) fn write_found<W: DevWrite>(
    alloc: Global,
    found: &Result<FoundMap, Missing>,
    query: &WhyQuery,
    format: Format,
    writer: &mut W,
) -> Result<Answer, DeviceFault>
    requires { IfOk found.now IsFound }
    ensures write { OnlyWrites (W.failures writer.old) (W.failures writer.new) result }
{
    let mut printer = Printer::new(alloc, format);
    match found {
        Ok(found) => answer_by(alloc, found, query, &mut printer, writer),
        Err(missing) => Ok(Answer::NotFound(*missing)),
    }
}

/// Writes the explanation of the first map of a frame at a port. Without a port in the query it is the lowest port that has
/// such a map, with the Alloc-ID if one is asked for; without a frame, the map is the last one of the port that has the
/// Alloc-ID. The explanation has the surpluses and levels
/// of the classes. It also has, for each Alloc-ID or for one, each number from which its words follow, and its
/// structure. The recording is read up to its end or the first fault of its format. Returns the verdict of its audit,
/// and what is missing.
///
/// # Errors
///
/// `Read` exactly when the reader fails, `Write` exactly when the writer fails, `Memory` if memory is refused,
/// or the ends that the audit keeps do not suffice.
pub fn write_why<R: DevRead, W: DevWrite>(
    rt: &(impl Threads + Sync),
    alloc: Global,
    kept: KeptEnds,
    reader: &mut R,
    query: WhyQuery,
    format: Format,
    writer: &mut W,
) -> Result<Viewed<Answer>, DeviceFault>
    ensures verdict { IfOk result (λ viewed. IsVerdictOf (R.remaining reader.old) viewed.verdict) }
    ensures read { CountsReads (R.failures reader.old) (R.failures reader.new) result }
    ensures write { TellsWrite (W.failures writer.old) (W.failures writer.new) result }
{
    let Viewed { verdict, shown } = find_map(rt, alloc, kept, reader, query)?;
    let shown = write_found(alloc, &shown, &query, format, writer)?;
    Ok(Viewed { verdict, shown })
}
