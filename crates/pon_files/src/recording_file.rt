//! The file of a recording: its part, what is no regular file and is written as it is, or one of its segments.

ghost use Rattle.std.specs.Prelude.{◌≡◌, OnOk, false, is_ok, true};
ghost use Rattle.pon_files.specs.Segments.{most_maps_of};

use crate::lock::LockFile;
use crate::opening::open_part;
use crate::part::PartFile;
use crate::segment_file::SegmentFile;
use crate::target::{Output, Target, target_of};
use pon_device::DeviceFault;
use pon_job::{Failure, Named};
use pon_recorder::{Ended, FollowedFile, Held, Recorder, Tape, record_to};
use std::alloc::Global;
use std::fs::{self, OpenFile};
use std::io::{self, Write};
use std::rt::Files;

/// The device of a recording.
pub type FileTape<F> = Tape<RecordingFile<F>>;

/// The file of a recording.
#[derive(Drop)]
pub enum RecordingFile<F> {
    /// The part of the file, which gets its name when the recording is whole.
    Part(PartFile<F>),
    /// What exists and is no regular file, such as a pipe or a device. It is written as it is.
    Direct(F),
    /// A segment, which gets its name when it has ended, and is followed by the next one.
    Segment(SegmentFile<F>),
}

impl<F: Write> Write for RecordingFile<F> {
    fn write(&mut self, buf: &[u8]) -> io::Result<usize> {
        match self {
            RecordingFile::Part(file) => file.write(buf),
            RecordingFile::Direct(file) => file.write(buf),
            RecordingFile::Segment(file) => file.write(buf),
        }
    }

    fn flush(&mut self) -> io::Result<()> {
        match self {
            RecordingFile::Part(file) => file.flush(),
            RecordingFile::Direct(file) => file.flush(),
            RecordingFile::Segment(file) => file.flush(),
        }
    }
}

impl<F: OpenFile + Write> RecordingFile<F> {
    // Gives a part the name of its file, once it is on the disk.
    fn keep<R: Files>(&mut self, rt: &R, alloc: Global, held: Held) -> io::Result<()> {
        match self {
            RecordingFile::Part(file) => file.keep(rt),
            RecordingFile::Direct(_) => Ok(()),
            RecordingFile::Segment(file) => file.end(rt, alloc, held),
        }
    }

    // Returns the failure of a recording, with the error of its file, and the name of the part that has what was
    // recorded.
    fn failure(
        &self,
        alloc: Global,
        name: &str,
        fault: DeviceFault,
        error: Option<io::Error>,
    ) -> Failure {
        let named = Named::Recording(name);
        let failure = match error {
            Some(error) if fault == DeviceFault::Write => Failure::of(alloc, fault, named, &error),
            _ => Failure::in_writing(alloc, fault, named),
        };
        match self {
            RecordingFile::Part(file) => with_part(alloc, failure, file.part()),
            RecordingFile::Direct(_) | RecordingFile::Segment(_) => failure,
        }
    }

    /// Ends the file of a recording that ended so, with these whole chapters and the last error of the file. The part of a
    /// whole recording gets the name of its file; otherwise an earlier file is kept, and so is the part.
    ///
    /// Returns the fault of the recording, `Write` if the part cannot be synced or renamed, and `Memory` if memory is
    /// refused.
    pub(crate) fn end<R: Files>(
        &mut self,
        rt: &R,
        alloc: Global,
        name: &str,
        held: Held,
        recorded: Result<(), DeviceFault>,
        error: Option<io::Error>,
    ) -> Result<(), Failure>
        ensures ok { OnOk result (is_ok recorded ≡ true) }
        ensures kept { is_ok recorded ≡ false → self.new ≡ self.old }
    {
        if let Err(fault) = recorded {
            return Err(self.failure(alloc, name, fault, error));
        }
        match self.keep(rt, alloc, held) {
            Ok(()) => Ok(()),
            Err(error) => Err(self.failure(alloc, name, DeviceFault::Write, Some(error))),
        }
    }
}

impl<F: OpenFile + Write + Drop> RecordingFile<F> {
    // Ends the segment of a recording that lacks a chapter: its whole chapters get its name. A part stays as it is.
    fn salvage<R: Files>(self, rt: &R, alloc: Global, held: Held) {
        if let RecordingFile::Segment(file) = self {
            let _ended = file.salvage(rt, alloc, held);
        }
    }
}

/// Opens the files of the segments of a recording.
#[derive(Drop)]
pub struct SegmentFiles<'a, R> {
    rt: &'a R,
}

impl<'a, R> SegmentFiles<'a, R> {
    /// Opens them with this handle of the runtime.
    pub fn new(rt: &'a R) -> Self {
        SegmentFiles { rt }
    }
}

impl<F, R> FollowedFile<SegmentFiles<'_, R>> for RecordingFile<F>
where
    F: OpenFile + Write + LockFile + Drop,
    R: Files<File = F> + Eprint,
{
    ghost most = { λ file. most_maps_of file };

    fn most_maps(&self) -> Option<u64> {
        match self {
            RecordingFile::Segment(file) => Some(file.most_maps()),
            _ => None,
        }
    }

    fn open_next(&self, next: &SegmentFiles<'_, R>, alloc: Global, held: Held) -> Option<Self> {
        match self {
            RecordingFile::Segment(file) => {
                let next = file.next(next.rt, alloc, held.chapters > 0)?;
                Some(RecordingFile::Segment(next))
            }
            _ => None,
        }
    }

    fn close(
        self,
        next: &SegmentFiles<'_, R>,
        alloc: Global,
        held: Held,
        recorded: Result<(), DeviceFault>,
    ) -> Result<(), DeviceFault> {
        match self {
            RecordingFile::Segment(file) => file.close(next.rt, alloc, held, recorded),
            _ => recorded,
        }
    }
}

// Adds to the text of a failure which part has what was recorded.
fn with_part(alloc: Global, failure: Failure, part: &str) -> Failure {
    let Failure { fault, text } = failure;
    let text = match text {
        Some(text) => format!(in alloc; "{text}\n  {part} has what was recorded"),
        None => format!(in alloc; "{part} has what was recorded"),
    };
    Failure {
        fault,
        text: text.ok(),
    }
}

// Creates the part of a recording, and says on standard error which part of an earlier run is kept.
fn create_part<R: Files + Eprint>(
    rt: &R,
    alloc: Global,
    path: &str,
) -> io::Result<PartFile<R::File>>
where
    R::File: LockFile,
{
    let file = PartFile::create(rt, alloc, path)?;
    if let Some(left) = file.left() {
        let part = file.part();
        let _ = eprintln!(rt; "olt: {part} was left by an earlier run and is kept as {left}");
    }
    Ok(file)
}

// Creates the part of a recording, or opens what is no regular file.
fn create_file<R: Files + Eprint>(
    rt: &R,
    alloc: Global,
    name: &str,
    target: &Target,
) -> io::Result<RecordingFile<R::File>>
where
    R::File: LockFile,
{
    match target {
        Target::Part { path, .. } => {
            let file = create_part(rt, alloc, path.as_str())?;
            Ok(RecordingFile::Part(file))
        }
        Target::Direct => Ok(RecordingFile::Direct(fs::create(rt, name)?)),
    }
}

// Writes a byte where a recording was to begin, to learn why it takes none.
fn write_byte<R: Files>(rt: &R, name: &str, target: &Target) -> io::Result<()> {
    let name = match target {
        Target::Part { part, .. } => part.as_str(),
        Target::Direct => name,
    };
    open_part(rt, name)?.write_all(&[0])
}

/// Returns the failure of a recording that does not take its first bytes, and removes its part.
pub(crate) fn failure_to_begin<R: Files>(
    rt: &R,
    alloc: Global,
    name: &str,
    target: &Target,
    fault: DeviceFault,
) -> Failure {
    let named = Named::Recording(name);
    let tried = match fault {
        DeviceFault::Write => write_byte(rt, name, target),
        _ => Ok(()),
    };
    target.discard(rt);
    match tried {
        Ok(()) => Failure::in_writing(alloc, fault, named),
        Err(error) => Failure::of(alloc, fault, named, &error),
    }
}

/// Begins the recording in the file `name`, at its target. If the magic bytes cannot be written, its part is removed.
/// Standard error says if the part of an earlier run stood there, and under which name it is kept.
///
/// # Errors
///
/// `Write` if the file cannot be created, is being recorded by another run, or does not take the magic bytes, and `Memory`
/// if memory is refused.
pub fn record_in<R: Files + Eprint>(
    rt: &R,
    alloc: Global,
    name: &str,
    target: &Target,
) -> Result<Recorder<FileTape<R::File>>, Failure>
where
    R::File: LockFile,
{
    let named = Named::Recording(name);
    let file = match create_file(rt, alloc, name, target) {
        Ok(file) => file,
        Err(error) => return Err(Failure::of(alloc, DeviceFault::Write, named, &error)),
    };
    match record_to(alloc, file) {
        Ok(recorder) => Ok(recorder),
        Err(fault) => Err(failure_to_begin(rt, alloc, name, target, fault)),
    }
}

/// Checks the file of a recording, and begins the recording in it.
///
/// # Errors
///
/// As [`target_of`] and [`record_in`]. After an error nothing is replaced.
pub fn begin_recording<R: Files + Eprint>(
    rt: &R,
    alloc: Global,
    output: &Output<'_>,
) -> Result<Recorder<FileTape<R::File>>, Failure>
where
    R::File: LockFile,
{
    let target = target_of(rt, alloc, output)?;
    record_in(rt, alloc, output.named.name(), &target)
}

/// Ends the file of a recording: if the recording is whole, its part is synced and gets the name of the file. Otherwise
/// an earlier file is kept, and so is the part. A segment also gets its name if its recording lacks chapters: it is cut to
/// its whole chapters, or removed if there is none.
///
/// # Errors
///
/// The fault of the recording. `Write` if the part cannot be synced or renamed, and `Memory` if memory is refused.
pub fn end_recording<F: OpenFile + Write + Drop, R: Files>(
    rt: &R,
    alloc: Global,
    name: &str,
    ended: Ended<FileTape<F>>,
) -> Result<(), Failure>
    ensures { OnOk result (is_ok ended.result ≡ true) }
{
    let Ended {
        device,
        held,
        result,
    } = ended;
    match device {
        Tape::File(file) => {
            let (mut file, error) = file.into_parts();
            let ended = file.end(rt, alloc, name, held, result, error);
            if result.is_err() {
                file.salvage(rt, alloc, held);
            }
            ended
        }
        Tape::Nothing => Ok(result?),
    }
}
