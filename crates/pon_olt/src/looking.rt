//! Views of a recording in a file.

ghost use Rattle.std.specs.Prelude.{◌≡◌, None};
ghost use Rattle.pon_device.specs.declared.fault.DeviceFault.TheVariants.{Memory, Write};

use crate::auditing::audit_keeping;
use crate::faulty::print_fault;
use crate::joining::{RecordingFiles, asks_for_all};
use crate::opening::NotOpened;
use crate::piped::Piped;
use pon_audit::{KeptEnds, Verdict};
use pon_device::{DevRead, DevWrite, DeviceFault, MemWrite, StdWrite, write_text};
use pon_files::{Inputs, LockFile, Output, target_of, write_file};
use pon_job::{Failure, Named, Part, Show, View};
use pon_look::{
    Answer, CountedBytes, Format, LoadsQuery, Missing, Picture, RatesQuery, Viewed, WhyQuery,
    loads_of, picture_of, write_dump, write_info, write_rates, write_why,
};
use pon_units::{AllocId, FrameNo, PortNo};
use std::alloc::Global;
use std::io;
use std::rt::Files;
use std::thread::Threads;

// Returns the port of a part, if it names one.
fn port_of(part: &Part) -> Option<PortNo> {
    PortNo::new(u8::try_from(part.port?).ok()?)
}

// Returns the Alloc-ID of a part, if it names one.
fn alloc_of(part: &Part) -> Option<AllocId> {
    AllocId::new(u16::try_from(part.alloc?).ok()?)
}

// Returns the frame of a part, if it names one.
fn frame_of(part: &Part) -> Option<FrameNo> {
    part.frame.map(FrameNo::new)
}

// Returns the maps that a part names.
fn maps_of(part: &Part) -> RatesQuery {
    RatesQuery {
        port: port_of(part),
        alloc: alloc_of(part),
        from: part.from,
        to: part.to,
    }
}

// Returns the map that a part names.
fn map_of(part: &Part) -> WhyQuery {
    WhyQuery {
        port: port_of(part),
        frame: frame_of(part),
        alloc: alloc_of(part),
    }
}

// Returns the Alloc-ID and the frames that a part names; `None` without an Alloc-ID.
fn loads_query_of(part: &Part) -> Option<LoadsQuery> {
    Some(LoadsQuery {
        port: port_of(part),
        alloc_id: alloc_of(part)?,
        from: part.from,
        to: part.to,
    })
}

/// A view of a recording, the files of the recording, and which ends of its chapters the audit keeps.
#[derive(Clone, Copy)]
struct Viewing<'a> {
    show: &'a Show<'a>,
    recording: &'a RecordingFiles,
    kept: KeptEnds,
}

/// The text of a view that is held until its verdict is printed.
#[derive(Drop)]
struct Held {
    viewed: Viewed<Answer>,
    text: MemWrite,
}

// Draws what a view shows: the loads of an Alloc-ID, or the time line of a map.
fn draw<D: DevRead>(
    rt: &(impl Threads + Sync),
    alloc: Global,
    reader: &mut D,
    viewing: &Viewing<'_>,
) -> Result<Viewed<Result<Picture, Missing>>, DeviceFault> {
    let Viewing { show, kept, .. } = *viewing;
    let part = &show.part;
    match loads_query_of(part) {
        Some(query) if show.view == View::Loads => loads_of(rt, alloc, kept, reader, query),
        _ => picture_of(rt, alloc, kept, reader, port_of(part), frame_of(part)),
    }
}

// Returns the file of a picture, which may not be this file of the recording. `None` if the command line names none.
fn output_of<'a>(show: &Show<'a>, file: &'a str) -> Option<Output<'a>> {
    Some(Output {
        named: Named::Picture(show.svg?),
        no_clobber: show.no_clobber,
        inputs: Inputs {
            settings: None,
            lines: None,
            recording: Some(file),
        },
    })
}

// Writes a picture to a file, if the command line names one, and it is none of those of the recording.
fn write_picture<R: Files>(
    rt: &R,
    alloc: Global,
    picture: &Picture,
    viewing: &Viewing<'_>,
) -> Result<(), Failure>
where
    R::File: LockFile,
{
    let Viewing {
        show,
        recording,
        ..
    } = *viewing;
    for file in recording.files() {
        if let Some(output) = output_of(show, file.as_str()) {
            target_of(rt, alloc, &output)?;
        }
    }
    match output_of(show, recording.name()) {
        Some(output) => write_file(rt, alloc, &output, picture.svg.as_bytes()),
        None => Ok(()),
    }
}

// Prints a picture, and before that writes it to a file, if the command line names one.
fn print_picture<R: Files, W: DevWrite>(
    rt: &R,
    alloc: Global,
    picture: &Picture,
    viewing: &Viewing<'_>,
    writer: &mut W,
) -> Result<(), Failure>
where
    R::File: LockFile,
{
    write_picture(rt, alloc, picture, viewing)?;
    write_text(writer, picture.text.as_bytes())?;
    Ok(())
}

// Shows a picture.
fn show_picture<R: Files + Threads + Sync, D: DevRead, W: DevWrite>(
    rt: &R,
    alloc: Global,
    reader: &mut D,
    viewing: &Viewing<'_>,
    writer: &mut W,
) -> Result<Viewed<Answer>, Failure>
where
    R::File: LockFile,
{
    let Viewed { verdict, shown } = match draw(rt, alloc, reader, viewing) {
        Ok(viewed) => viewed,
        Err(fault) => return Err(viewing.recording.failure(rt, alloc, fault)),
    };
    let shown = match shown {
        Ok(picture) => {
            print_picture(rt, alloc, &picture, viewing, writer)?;
            Answer::Shown
        }
        Err(missing) => Answer::NotFound(missing),
    };
    Ok(Viewed { verdict, shown })
}

// Shows a part of a recording, and judges it by the way.
fn show_part<R: Files + Threads + Sync, W: DevWrite>(
    rt: &R,
    alloc: Global,
    viewing: &Viewing<'_>,
    writer: &mut W,
) -> Result<Viewed<Answer>, Failure>
where
    R::File: LockFile,
{
    let Viewing {
        show,
        recording,
        kept,
    } = *viewing;
    let mut reader = CountedBytes::new(recording.open(rt, alloc)?);
    let format = if show.json {
        Format::Json
    } else {
        Format::Text
    };
    let part = &show.part;
    let shown = match show.view {
        View::Info => write_info(rt, alloc, kept, &mut reader, format, writer),
        View::Rates => { write_rates(rt, alloc, kept, &mut reader, maps_of(part), format, writer) }
        View::Why => write_why(rt, alloc, kept, &mut reader, map_of(part), format, writer),
        View::Dump => write_dump(rt, alloc, kept, &mut reader, port_of(part), writer),
        View::Picture | View::Loads => {
            return show_picture(rt, alloc, &mut reader, viewing, writer);
        }
    };
    match shown {
        Ok(viewed) => Ok(viewed),
        Err(fault) => Err(recording.failure(rt, alloc, fault)),
    }
}

// Prints the verdict to standard error if it is not good, and a line that explains it.
fn print_verdict<R: Files + Eprint>(
    rt: &R,
    alloc: Global,
    recording: &RecordingFiles,
    verdict: &Verdict,
) {
    if !verdict.is_good() {
        let _ = eprintln!(rt; "olt: {verdict}");
        print_fault(rt, alloc, recording, verdict);
    }
}

// Returns the failure of a view whose text is held in memory: such a text can only fail if memory is refused.
fn held_failure(failure: Failure) -> Failure
    ensures held { failure ≡ record { fault = Write; text = None } → result.fault ≡ Memory }
    ensures other { ¬ (failure.fault ≡ Write) → result ≡ failure }
{
    match failure {
        Failure {
            fault: DeviceFault::Write,
            text: None,
        } => Failure::from(DeviceFault::Memory),
        failure => failure,
    }
}

// Shows a part of a recording in memory.
fn hold_part<R: Files + Threads + Sync>(
    rt: &R,
    alloc: Global,
    viewing: &Viewing<'_>,
) -> Result<Held, Failure>
where
    R::File: LockFile,
{
    let mut text = MemWrite::new(alloc, usize::MAX, Vec::new(alloc));
    match show_part(rt, alloc, viewing, &mut text) {
        Ok(viewed) => Ok(Held { viewed, text }),
        Err(failure) => Err(held_failure(failure)),
    }
}

// Shows a part of a recording in memory. Its audit takes little memory if that suffices.
fn hold_view<R: Files + Threads + Sync>(
    rt: &R,
    alloc: Global,
    viewing: &Viewing<'_>,
) -> Result<Held, Failure>
where
    R::File: LockFile,
{
    match hold_part(rt, alloc, viewing) {
        Ok(held) => Ok(held),
        Err(failure) if asks_for_all(viewing.kept, &failure) => {
            let kept = KeptEnds::OfChapters;
            hold_part(rt, alloc, &Viewing { kept, ..*viewing })
        }
        Err(failure) => Err(failure),
    }
}

// Shows a part of a recording once its verdict is printed: the text is held until then.
fn show_after_verdict<R: Files + Eprint + Threads + Sync, W: DevWrite>(
    rt: &R,
    alloc: Global,
    viewing: &Viewing<'_>,
    writer: &mut W,
) -> Result<Viewed<Answer>, Failure>
where
    R::File: LockFile,
{
    let Held { viewed, text } = hold_view(rt, alloc, viewing)?;
    print_verdict(rt, alloc, viewing.recording, &viewed.verdict);
    write_text(writer, text.bytes())?;
    Ok(viewed)
}

// Returns which ends the audit keeps while the events of a recording are written. Since they cannot be taken back, files that
// are joined are audited before: in little memory, if that suffices.
fn kept_for_events<R: Files + Threads + Sync>(
    rt: &R,
    alloc: Global,
    viewing: &Viewing<'_>,
) -> KeptEnds {
    let Viewing {
        recording,
        kept,
        ..
    } = *viewing;
    if recording.files().len() < 2 {
        return KeptEnds::OfChapters;
    }
    match audit_keeping(rt, alloc, recording, kept) {
        Ok(_audited) => kept,
        Err(_) => KeptEnds::OfChapters,
    }
}

// Shows the events of a recording as they are read, and then prints its verdict: their text may be longer than the recording,
// so it is not held.
fn show_events<R: Files + Eprint + Threads + Sync, W: DevWrite>(
    rt: &R,
    alloc: Global,
    viewing: &Viewing<'_>,
    writer: &mut W,
) -> Result<Viewed<Answer>, Failure>
where
    R::File: LockFile,
{
    let kept = kept_for_events(rt, alloc, viewing);
    let viewed = show_part(rt, alloc, &Viewing { kept, ..*viewing }, writer)?;
    print_verdict(rt, alloc, viewing.recording, &viewed.verdict);
    Ok(viewed)
}

// Returns how a view ended. If its reader went away, that is no failure.
fn end_of(
    ended: Result<Viewed<Answer>, Failure>,
    is_closed: bool,
) -> Result<Viewed<Answer>, NotOpened> {
    match ended {
        Ok(viewed) => Ok(viewed),
        Err(failure) if is_closed && failure.fault == DeviceFault::Write => {
            Err(NotOpened::PipeClosed)
        }
        Err(failure) => Err(NotOpened::Failed(failure)),
    }
}

// Shows a part of a recording, and prints its verdict if it is not good.
fn show_and_judge<R: Files + Eprint + Threads + Sync, W: DevWrite>(
    rt: &R,
    alloc: Global,
    viewing: &Viewing<'_>,
    writer: &mut W,
) -> Result<Viewed<Answer>, Failure>
where
    R::File: LockFile,
{
    match viewing.show.view {
        View::Dump => show_events(rt, alloc, viewing, writer),
        _ => show_after_verdict(rt, alloc, viewing, writer),
    }
}

// Returns the recording of a view: one file, or several that are joined.
fn recording_of<R: Files>(
    rt: &R,
    alloc: Global,
    show: &Show<'_>,
) -> Result<RecordingFiles, Failure> {
    match show.files.first() {
        Some(file) if !show.joined => Ok(RecordingFiles::in_file(alloc, file)?),
        _ => RecordingFiles::in_files(rt, alloc, &show.files),
    }
}

/// Shows a part of a recording, after the verdict of its audit on standard error if it is not good; events come before it.
/// Returns whether it is good and has that part; if it has not, standard error says what is missing.
pub(crate) fn show_recording<R: Files + Print + Eprint + Threads + Sync>(
    rt: &R,
    alloc: Global,
    show: &Show<'_>,
) -> Result<bool, NotOpened>
where
    R::File: LockFile,
{
    let recording = recording_of(rt, alloc, show)?;
    let viewing = Viewing {
        show,
        recording: &recording,
        kept: recording.kept_at_first(rt),
    };
    let mut output = Piped::new(io::writer(rt));
    let ended = show_and_judge(rt, alloc, &viewing, &mut StdWrite::new(&mut output));
    let Viewed { verdict, shown } = end_of(ended, output.is_closed())?;
    match shown {
        Answer::Shown => Ok(verdict.is_good()),
        Answer::NotFound(missing) => {
            let _ = eprintln!(rt; "olt: {missing}");
            Ok(false)
        }
    }
}
