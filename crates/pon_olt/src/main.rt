//! `olt`: the upstream bandwidth scheduler of an XG-PON optical line terminal, as a program.
//!
//! The program executes management lines and prints a reply or a refusal for each ([`plan`]), judges a check file
//! ([`check_file`]) or a recording ([`audit`]), prints what one holds, writes a recording anew in the present version of its
//! format ([`migrate`]), runs ports over sockets ([`run_ports`]), passes lines to a run or stops it ([`operate_run`],
//! [`stop_run`]), or simulates the units of a terminal elsewhere ([`run_units`]). This crate adds the standard streams, the
//! files, the settings and the exit status.
#![tactic(auto)]

ghost use Rattle.std.specs.Prelude.{◌≡◌, Err, IfOk, Ok};
ghost use Rattle.pon_job.specs.Outcomes.{exit_status, outcome_of_job};

mod auditing;
mod commands;
mod explaining;
mod faulty;
mod files;
mod floors;
mod folders;
mod joining;
mod left_recording;
mod looking;
mod migrating;
mod opening;
mod piped;
mod places;
mod planning;
mod refusals;
mod refused_report;
mod refused_row;
mod resuming;
mod running;

use crate::auditing::audit_files;
use crate::looking::show_recording;
use crate::migrating::migrate_file;
use crate::opening::NotOpened;
use crate::planning::run_plan;
use crate::running::{connect_units, run_settings};
use clap::Error;
pub use pon_audit::{audit, audit_from, write_verdict};
pub use pon_check_file::check_file;
use pon_device::{DeviceFault, StdRead, StdWrite};
use pon_files::{LockFile, open_input};
pub use pon_job::job;
use pon_job::{Failure, Job, Named, Outcome, exit_status, outcome_of_job, outcome_of_words};
pub use pon_manage::plan;
pub use pon_record::migrate;
pub use pon_run::run_ports;
pub use pon_sockets::{operate_run, run_units, stop_run};
use std::alloc::{AllocError, Global};
use std::io::{self, BufReader};
use std::net::{Net, TcpListener, TcpStream};
use std::os::fd::AsRawFd;
use std::process::ExitCode;
use std::random::RandomSource;
use std::rt::Files;
use std::sync::Wait;
use std::thread::Threads;
use std::time::Clock;

// Prints why settings are refused.
fn print_refusal(rt: &impl Eprint, line: &str) -> Outcome
    ensures { result ≡ Outcome.Settings }
{
    let _ = eprintln!(rt; "olt: settings refused\n{line}");
    Outcome::Settings
}

// Judges the certificate of a check file. Returns `Read` if the file cannot be opened.
fn judge_file<R: Files + Print>(rt: &R, alloc: Global, name: &str) -> Result<bool, Failure> {
    let named = Named::CheckFile(name);
    let file = open_input(rt, alloc, named)?;
    let input = BufReader::new(alloc, file).map_err(|_| AllocError)?;
    let mut reader = StdRead::new(input);
    let mut writer = StdWrite::new(io::writer(rt));
    match check_file(alloc, &mut reader, &mut writer) {
        Ok(is_accepted) => Ok(is_accepted),
        Err(fault) => Err(Failure::in_reading(alloc, fault, named)),
    }
}

// Prints a failure, with the file or the address that it is of.
fn print_failure(rt: &impl Eprint, failure: &Failure) -> Outcome
    ensures { result ≡ Outcome.Failed failure.now.fault }
{
    failure.print(rt);
    Outcome::Failed(failure.fault)
}

// Prints clap's message for the command line. The outcome is a failed write if help or version cannot be written.
fn show<R: Print + Eprint>(rt: &R, error: &Error) -> Outcome {
    let outcome = outcome_of_words(error);
    if let Outcome::Failed(_) = outcome {
        return outcome;
    }
    match error.print(rt) {
        Err(_) if outcome == Outcome::Done => Outcome::Failed(DeviceFault::Write),
        _ => outcome,
    }
}

// Prints the fault if a device failed or memory was refused. Returns the exit status.
fn print_outcome(rt: &impl Eprint, outcome: Outcome) -> u8
    ensures { result ≡ exit_status outcome }
{
    if let Outcome::Failed(fault) = outcome {
        let _ = eprintln!(rt; "olt: {fault}");
    }
    exit_status(outcome)
}

// Returns the outcome if the command line cannot be read: a word is not UTF-8, or memory was refused.
fn without_words(rt: &impl Eprint, error: &io::Error) -> Outcome {
    if error.kind() != io::ErrorKind::InvalidData {
        return Outcome::Failed(DeviceFault::Memory);
    }
    let _ = eprintln!(rt; "error: a word of the command line is not UTF-8");
    Outcome::CommandLine
}

// Returns the outcome of a job, from how it ended. Prints why it failed, or why settings are refused.
fn outcome_of_end(rt: &impl Eprint, job: &Job<'_>, ended: Result<bool, NotOpened>) -> Outcome
    ensures ok { IfOk ended (λ accepted. result ≡ outcome_of_job job.now (Ok accepted)) }
    ensures failed { (failure : Failure) → ended ≡ Err (NotOpened.Failed failure)
        → result ≡ outcome_of_job job.now (Err failure.fault) }
{
    match ended {
        Ok(accepted) => outcome_of_job(job, Ok(accepted)),
        Err(NotOpened::Failed(failure)) => {
            failure.print(rt);
            outcome_of_job(job, Err(failure.fault))
        }
        Err(NotOpened::Refused(line)) => print_refusal(rt, &line),
        Err(NotOpened::PipeClosed) => Outcome::PipeClosed,
    }
}

// Returns the exit status of a run that ended so. Prints why its settings were not opened.
fn status_of(rt: &impl Eprint, ended: Result<u8, NotOpened>) -> u8 {
    match ended {
        Ok(status) => status,
        Err(NotOpened::Failed(failure)) => exit_status(print_failure(rt, &failure)),
        Err(NotOpened::Refused(line)) => exit_status(print_refusal(rt, &line)),
        Err(NotOpened::PipeClosed) => exit_status(Outcome::PipeClosed),
    }
}

// Does the job of the command line. Returns the exit status.
fn run<R>(rt: &R, alloc: Global, words: &[String]) -> u8
where
    R: Net<Listener = TcpListener, Stream = TcpStream>
        + Files
        + Input
        + Print
        + Eprint
        + Threads
        + Wait
        + Clock
        + RandomSource
        + Sync,
    R::File: AsRawFd + LockFile + Send,
    R::Dir: Send,
{
    let job = match job(alloc, words) {
        Ok(job) => job,
        Err(error) => return print_outcome(rt, show(rt, &error)),
    };
    let ended = match &job {
        Job::Plan(plan) => run_plan(rt, alloc, plan),
        Job::Check { file } => judge_file(rt, alloc, file).map_err(NotOpened::Failed),
        Job::Audit(audit) => audit_files(rt, alloc, audit).map_err(NotOpened::Failed),
        Job::Show(show) => show_recording(rt, alloc, show),
        Job::Migrate(migration) => migrate_file(rt, alloc, migration).map_err(NotOpened::Failed),
        Job::Run(run) => return status_of(rt, run_settings(rt, alloc, run)),
        Job::Units(units) => return status_of(rt, connect_units(rt, alloc, units)),
        Job::Stop(at) => stop_run(rt, alloc, *at).map_err(NotOpened::Failed),
        Job::Operate(at) => operate_run(rt, alloc, *at).map_err(NotOpened::Failed),
    };
    exit_status(outcome_of_end(rt, &job, ended))
}

fn main(rt: HostRuntime) -> ExitCode {
    let args = match std::env::args(&rt) {
        Ok(args) => args,
        Err(error) => return ExitCode::from(print_outcome(&rt, without_words(&rt, &error))),
    };
    match args.collect::<Vec<String>>(rt.alloc()) {
        Ok(words) => ExitCode::from(run(&rt, rt.alloc(), words.as_slice())),
        Err(_) => ExitCode::from(print_outcome(&rt, Outcome::Failed(DeviceFault::Memory))),
    }
}
