//! Management lines of standard input.

ghost use Rattle.std.specs.Prelude.{◌≡◌, IfErr, OnOk, is_ok, length, true};
ghost use Rattle.pon_plant.specs.Plants.{IsPlantSize};

use crate::explaining::Explainer;
use crate::opening::{NotOpened, with_settings, without_settings};
use pon_device::{DevRead, DevWrite, DeviceFault, StdRead, StdWrite};
use pon_files::{FileTape, FlushTimer, Inputs, LockFile, Output, begin_recording, end_recording};
use pon_job::{Failure, Named, Plan};
use pon_manage::{
    CutTimes, LineRefusal, Notes, Opening, PlanEnd, RecordedPlan, plan, plan_flushed, plan_recorded,
};
use pon_plant::Plant;
use pon_recorder::{Recorder, open_recorder};
use pon_units::PortNo;
use std::alloc::{AllocError, Global};
use std::fs::OpenFile;
use std::io::{self, BufReader, Write};
use std::rt::Files;
use std::time::Clock;

/// The seconds after which a chapter is recorded before it is full, if the command line does not say.
const FLUSH_SECONDS: u64 = 1;

/// Notes refused lines, and says when the chapter of each port is recorded.
#[derive(Drop)]
struct TimedNotes<'a, 'n, R> {
    notes: &'n mut Explainer<'a, R>,
    // Those of the ports, in order.
    timers: Vec<FlushTimer<'a, R>>,
}

impl<'a, 'n, R: Eprint> Notes for TimedNotes<'a, 'n, R> {
    ghost noted = { λ timed. timed.notes.now.refused };

    fn note(&mut self, number: u64, plant: &Plant, line: &[u8], refusal: LineRefusal) {
        self.notes.note(number, plant, line, refusal);
    }
}

impl<'a, 'n, R: Clock> CutTimes for TimedNotes<'a, 'n, R> {
    fn is_due(&mut self, port: PortNo) -> bool {
        match self.timers.get_mut(usize::from(port.get())) {
            Some(timer) => timer.is_due(),
            None => false,
        }
    }
}

// Returns a timer for the chapters of each of this number of ports. `None` if they are recorded only when they are full, or to
// no file.
fn timers_of<'a, R: Clock>(
    rt: &'a R,
    alloc: Global,
    job: &Plan<'_>,
    ports: usize,
) -> Result<Option<Vec<FlushTimer<'a, R>>>, AllocError> {
    if job.record.is_none() {
        return Ok(None);
    }
    let mut timers = Vec::with_capacity(alloc, ports)?;
    for _port in 0..ports {
        match FlushTimer::new(rt, job.flush.unwrap_or(FLUSH_SECONDS)) {
            Some(timer) => timers.push(timer)?,
            None => return Ok(None),
        }
    }
    Ok(Some(timers))
}

// Returns how recorded lines ended: as the lines did, and else as the recording did. If both failed, the text is that of the
// recording.
fn end_of(lines: Result<PlanEnd, DeviceFault>, recorded: Result<(), Failure>) -> Result<(), Failure>
    ensures lines { IfErr lines (λ fault. IfErr result (λ failure. failure.fault ≡ fault)) }
    ensures done { OnOk result ((is_ok lines ≡ true) × (is_ok recorded ≡ true)) }
{
    match lines {
        Ok(_) => recorded,
        Err(fault) => Err(Failure {
            fault,
            text: match recorded {
                Ok(()) => None,
                Err(Failure { fault: _, text }) => text,
            },
        }),
    }
}

// Returns the recording of the ports that is wanted, if one is.
fn output_of<'a>(job: &Plan<'a>) -> Option<Output<'a>> {
    Some(Output {
        named: Named::Recording(job.record?),
        no_clobber: job.no_clobber,
        inputs: Inputs {
            settings: job.config,
            lines: None,
            recording: None,
        },
    })
}

// Begins the recording of the ports, or one in no file if full chapters are forgotten. `None` if a full chapter refuses.
fn recorder_of<R: Eprint + Files>(
    rt: &R,
    alloc: Global,
    job: &Plan<'_>,
) -> Result<Option<Recorder<FileTape<R::File>>>, Failure>
where
    R::File: LockFile,
{
    match output_of(job) {
        Some(output) => Ok(Some(begin_recording(rt, alloc, &output)?)),
        None => Ok(open_recorder(alloc, None, job.forget)?),
    }
}

// Executes lines, and records the ports: their full chapters, and also others each time that a period has passed.
fn record_lines<'a, R: Clock + Eprint, T: OpenFile + Write + Drop, I: DevRead, W: DevWrite>(
    rt: &'a R,
    alloc: Global,
    opening: Opening,
    job: &Plan<'_>,
    notes: &mut Explainer<'a, R>,
    recorder: Recorder<FileTape<T>>,
    reader: &mut I,
    writer: &mut W,
) -> Result<RecordedPlan<FileTape<T>>, AllocError>
    requires { IsPlantSize (length opening.ports.items) }
{
    match timers_of(rt, alloc, job, opening.ports.len())? {
        Some(timers) => {
            let mut timed = TimedNotes { notes, timers };
            Ok(plan_flushed(alloc, opening, &mut timed, recorder, reader, writer))
        }
        None => Ok(plan_recorded(alloc, opening, notes, recorder, reader, writer)),
    }
}

// Executes lines, and records the ports if that is wanted.
fn answer_lines<'a, R: Clock + Eprint + Files, I: DevRead, W: DevWrite>(
    rt: &'a R,
    alloc: Global,
    opening: Opening,
    job: &Plan<'_>,
    notes: &mut Explainer<'a, R>,
    reader: &mut I,
    writer: &mut W,
) -> Result<(), Failure>
where
    R::File: LockFile,
    requires { IsPlantSize (length opening.ports.items) }
{
    let Some(recorder) = recorder_of(rt, alloc, job)? else {
        let Opening { ports, steps } = opening;
        plan(alloc, ports.as_slice(), steps, notes, reader, writer)?;
        return Ok(());
    };
    let RecordedPlan { lines, recording } = record_lines(
        rt, alloc, opening, job, notes, recorder, reader, writer,
    )?;
    end_of(
        lines,
        end_recording(rt, alloc, job.record.unwrap_or(""), recording),
    )
}

// Executes the lines of standard input. Returns `false` if they are strict and one was refused.
fn plan_lines<R: Input + Print + Clock + Eprint + Files>(
    rt: &R,
    alloc: Global,
    opening: Opening,
    job: &Plan<'_>,
) -> Result<bool, Failure>
where
    R::File: LockFile,
    requires { IsPlantSize (length opening.ports.items) }
{
    let input = BufReader::new(alloc, rt.reader()).map_err(|_| AllocError)?;
    let mut reader = StdRead::new(input);
    let mut writer = StdWrite::new(io::writer(rt));
    let mut notes = Explainer {
        rt,
        alloc,
        verbose: job.verbose,
        refused: false,
    };
    answer_lines(
        rt,
        alloc,
        opening,
        job,
        &mut notes,
        &mut reader,
        &mut writer,
    )?;
    Ok(!(job.strict && notes.refused))
}

/// Executes the lines of standard input at the ports of the settings file, or at one port without settings, and writes the
/// reply to each; if wanted, also the reason of each refusal to standard error, and a recording of the ports to a file.
/// Returns `false` if they are strict and one was refused.
pub(crate) fn run_plan<R: Input + Print + Clock + Eprint + Files>(
    rt: &R,
    alloc: Global,
    job: &Plan<'_>,
) -> Result<bool, NotOpened>
where
    R::File: LockFile,
{
    let opening = match job.config {
        Some(name) => with_settings(rt, alloc, name)?,
        None => without_settings(alloc)?,
    };
    plan_lines(rt, alloc, opening, job).map_err(NotOpened::Failed)
}
