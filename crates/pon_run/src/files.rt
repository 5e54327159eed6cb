//! The recording of a run.

use crate::arguments::RunArgs;
use crate::context::RunContext;
use pon_files::{
    FileTape, Inputs, LockFile, Output, SegmentsWanted, Target, record_in, record_in_segments,
    target_of,
};
use pon_job::{Failure, Named};
use pon_recorder::{Recorder, open_recorder};
use pon_worker::Gate;
use std::rt::Files;

/// The recorder of a run, if chapters are wanted, and where it writes, if it records in a file.
#[derive(Drop)]
pub(crate) struct Begun<F> {
    pub(crate) recorder: Option<Recorder<FileTape<F>>>,
    pub(crate) target: Option<Target>,
}

// Returns the file of a run's recording, and what the run reads.
fn output_of<'a>(args: &RunArgs<'a>, file: &'a str) -> Output<'a> {
    Output {
        named: Named::Recording(file),
        no_clobber: args.no_clobber,
        inputs: Inputs {
            settings: args.config,
            lines: args.lines_file(),
            recording: args.resumed_from,
        },
    }
}

// Begins the recording of a run in a file.
fn begin_in_file<G: Gate, R: Files + Eprint>(
    run: &RunContext<'_, G, R>,
    name: &str,
) -> Result<Begun<R::File>, Failure>
where
    R::File: LockFile,
{
    let target = target_of(run.rt, run.alloc, &output_of(&run.args, name))?;
    let recorder = record_in(run.rt, run.alloc, name, &target)?;
    Ok(Begun {
        recorder: Some(recorder),
        target: Some(target),
    })
}

// Begins the recording of a run in the segments of a folder, each of which ends with this number of maps of a port.
fn begin_in_folder<G: Gate, R: Files>(
    run: &RunContext<'_, G, R>,
    folder: &str,
    maps: u64,
) -> Result<Begun<R::File>, Failure>
where
    R::File: LockFile,
{
    let wanted = SegmentsWanted {
        folder,
        maps,
        keep: run.args.segments.keep.map(|keep| keep as usize),
    };
    let (recorder, target) = record_in_segments(run.rt, run.alloc, &wanted)?;
    Ok(Begun {
        recorder: Some(recorder),
        target: Some(target),
    })
}

/// Begins the recording of a run: in its file, or in the segments of its folder; else in no file, if the chapters are kept to
/// settle their ports, and not at all if no chapters are wanted.
///
/// Returns `Write` as in [`target_of`], and if the file or the first segment cannot be created, is being recorded by another
/// run, or does not take the magic bytes. `Memory` if memory is refused.
pub(crate) fn begin_recording<G: Gate, R: Files + Eprint>(
    run: &RunContext<'_, G, R>,
) -> Result<Begun<R::File>, Failure>
where
    R::File: LockFile,
{
    match (run.args.record, run.args.segments.maps) {
        (Some(folder), Some(maps)) => begin_in_folder(run, folder, maps),
        (Some(name), None) => begin_in_file(run, name),
        (None, _) => Ok(Begun {
            recorder: open_recorder(run.alloc, None, run.args.settle)?,
            target: None,
        }),
    }
}
