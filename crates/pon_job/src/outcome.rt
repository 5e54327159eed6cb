//! The outcome of a run of the program, and its exit status.

ghost use Rattle.std.specs.Prelude.{◌≡◌};
ghost use Rattle.clap.specs.Values.{kind_of};
ghost use Rattle.pon_job.specs.Outcomes.{exit_status, outcome_of_check, outcome_of_job, outcome_of_lines, outcome_of_ports, outcome_of_run, outcome_of_words};

use crate::task::Job;
use clap::Error;
use clap::error::ErrorKind;
use pon_device::DeviceFault;

/// Outcome of a run of the program.
#[derive(Clone, Copy, Debug, PartialEq, Eq)]
pub enum Outcome {
    /// The job is done; a check or an audit accepted, a recording was migrated, or one that is good was shown. Also
    /// help and the version, if they were requested.
    Done,
    /// A check, an audit or strict management refused its input, a recording to migrate or to show has a fault, or a run
    /// refused to stop.
    Refused,
    /// The words of the command line name no job.
    CommandLine,
    /// The settings are refused.
    Settings,
    /// A device failed, or memory was refused.
    Failed(DeviceFault),
    /// A port was not served to its last map.
    Unfinished,
    /// The reader of a view's text went away.
    PipeClosed,
}

/// The status of a process that a closed pipe ends: 128 and the number of the signal for it, as a shell has it.
const CLOSED_PIPE_STATUS: u8 = 141;

/// Returns the exit status of an outcome: 0 if the job is done, 1 if a check, an audit, a migration, strict management
/// or a run that is to stop refused, 2 if the command line or the settings are refused, 3 if a device failed, memory was refused, or
/// a port was not served to its last map, and 141 if the reader of a view's text went away.
pub fn exit_status(outcome: Outcome) -> u8
    ensures { result ≡ exit_status outcome }
{
    match outcome {
        Outcome::Done => 0,
        Outcome::Refused => 1,
        Outcome::CommandLine | Outcome::Settings => 2,
        Outcome::Failed(_) => 3,
        Outcome::Unfinished => 3,
        Outcome::PipeClosed => CLOSED_PIPE_STATUS,
    }
}

/// Returns the outcome of a job without a verdict, such as answering management lines.
pub fn outcome_of_run<T: Drop>(ended: Result<T, DeviceFault>) -> Outcome
    ensures { result ≡ outcome_of_run ended }
{
    match ended {
        Ok(_) => Outcome::Done,
        Err(fault) => Outcome::Failed(fault),
    }
}

/// Returns the outcome of a check, an audit, a migration or the stop of a run; `true` is acceptance.
pub fn outcome_of_check(verdict: Result<bool, DeviceFault>) -> Outcome
    ensures { result ≡ outcome_of_check verdict }
{
    match verdict {
        Ok(false) => Outcome::Refused,
        ended => outcome_of_run(ended),
    }
}

// Returns the outcome of management lines; `false` means that one was refused, which counts with `strict`.
fn outcome_of_lines(strict: bool, ended: Result<bool, DeviceFault>) -> Outcome
    ensures { result ≡ outcome_of_lines strict ended }
{
    if strict {
        outcome_of_check(ended)
    } else {
        outcome_of_run(ended)
    }
}

/// Returns the outcome of a run at ports; `true` means that each port was served to its last map.
pub fn outcome_of_ports(ended: Result<bool, DeviceFault>) -> Outcome
    ensures { result ≡ outcome_of_ports ended }
{
    match ended {
        Ok(false) => Outcome::Unfinished,
        ended => outcome_of_run(ended),
    }
}

/// Returns the outcome of a job, from how it ended: `true` is acceptance, or that no management line was refused, or
/// that each port was served to its last map.
pub fn outcome_of_job(job: &Job<'_>, ended: Result<bool, DeviceFault>) -> Outcome
    ensures { result ≡ outcome_of_job job.now ended }
{
    match job {
        Job::Plan(plan) => outcome_of_lines(plan.strict, ended),
        Job::Check { .. }
        | Job::Audit(_)
        | Job::Show(_)
        | Job::Migrate(_)
        | Job::Stop(_)
        | Job::Operate(_) => outcome_of_check(ended),
        Job::Run(_) | Job::Units(_) => outcome_of_ports(ended),
    }
}

/// Returns the outcome of a command line that names no job, from clap's error.
pub fn outcome_of_words(error: &Error) -> Outcome
    ensures { result ≡ outcome_of_words (kind_of error.now) }
{
    match error.kind() {
        ErrorKind::DisplayHelp | ErrorKind::DisplayVersion => Outcome::Done,
        ErrorKind::OutOfMemory => Outcome::Failed(DeviceFault::Memory),
        _ => Outcome::CommandLine,
    }
}
