//! The beginning of a recording in segments.

use crate::lock::LockFile;
use crate::part::part_of;
use crate::recording_file::{FileTape, RecordingFile, failure_to_begin};
use crate::segment_file::{SegmentFile, SegmentRules};
use crate::segment_folder::SegmentFolder;
use crate::segment_numbers::{MAX_SEGMENT, SegmentNumbers};
use crate::target::{Target, refused};
use pon_device::DeviceFault;
use pon_job::{Failure, Named};
use pon_recorder::{Recorder, record_to};
use std::alloc::Global;
use std::rt::Files;
use std::{fs, io};

/// How a run is recorded in segments.
#[derive(Clone, Copy, Debug, PartialEq, Eq)]
pub struct SegmentsWanted<'a> {
    /// The folder of the segments, which must be there.
    pub folder: &'a str,
    /// The number of maps of one port after which a segment ends: it ends with the first chapter that makes them as many.
    pub maps: u64,
    /// How many whole segments of the folder are kept; 0 counts as 1. `None` for all.
    pub keep: Option<usize>,
}

// Refuses what is no folder.
fn check_folder<R: Files>(rt: &R, alloc: Global, named: Named<'_>) -> Result<(), Failure> {
    match fs::metadata(rt, named.name()) {
        Ok(found) if !found.is_dir() => Err(refused(format!(in alloc; "{named}: is no folder"))),
        Ok(_) => Ok(()),
        Err(error) => Err(Failure::of(alloc, DeviceFault::Write, named, &error)),
    }
}

// Takes the folder for this process, and creates the part of the first segment after those that are there. `None` if that
// would have too great a number.
fn create_first<R: Files>(
    rt: &R,
    alloc: Global,
    wanted: &SegmentsWanted<'_>,
) -> io::Result<Option<SegmentFile<R::File>>>
where
    R::File: LockFile,
{
    let folder = SegmentFolder::take(rt, alloc, wanted.folder)?;
    let Some(numbers) = SegmentNumbers::after(folder.greatest(rt, alloc)?) else {
        return Ok(None);
    };
    let rules = SegmentRules {
        maps: wanted.maps,
        keep: wanted.keep,
    };
    Ok(Some(SegmentFile::create(rt, alloc, folder, numbers, rules)?))
}

// Begins the recording in the first segment. Returns its target too.
fn record_first<R: Files>(
    rt: &R,
    alloc: Global,
    name: &str,
    segment: SegmentFile<R::File>,
) -> Result<(Recorder<FileTape<R::File>>, Target), Failure>
where
    R::File: LockFile,
{
    let path = segment.path(alloc)?;
    let part = part_of(alloc, path.as_str())?;
    let target = Target::Part { path, part };
    match record_to(alloc, RecordingFile::Segment(segment)) {
        Ok(recorder) => Ok((recorder, target)),
        Err(fault) => Err(failure_to_begin(rt, alloc, name, &target, fault)),
    }
}

/// Begins a recording in segments, the files 000000.rec, 000001.rec ... of a folder, each of which is a whole recording. The
/// first has the number after the greatest of a segment in the folder, whole or not. A segment is written as its part, which
/// gets its name when the segment has ended. The folder is taken for this process: its file .lock is locked meanwhile.
///
/// A segment ends when a port has the wanted number of maps in it, and when its device fails. Then its whole chapters get its
/// name, and the oldest segments beyond those that are kept are removed; files with other names are never touched. A segment
/// that failed without a whole chapter is removed.
///
/// Returns the recorder, and the target of the first segment, which holds no chapter yet.
///
/// # Errors
///
/// `Write` if the folder is not there, is no folder, cannot be written, is being recorded by another run, or has the segment
/// 999999, or the first segment does not take the magic bytes. `Memory` if memory is refused.
pub fn record_in_segments<R: Files>(
    rt: &R,
    alloc: Global,
    wanted: &SegmentsWanted<'_>,
) -> Result<(Recorder<FileTape<R::File>>, Target), Failure>
where
    R::File: LockFile,
{
    let named = Named::Recording(wanted.folder);
    check_folder(rt, alloc, named)?;
    match create_first(rt, alloc, wanted) {
        Ok(Some(segment)) => record_first(rt, alloc, wanted.folder, segment),
        Ok(None) => Err(refused(format!(in alloc;
            "{named}: no number is left after segment {MAX_SEGMENT}"
        ))),
        Err(error) => Err(Failure::of(alloc, DeviceFault::Write, named, &error)),
    }
}
