//! Runs of a terminal, and the simulated units of a terminal elsewhere.

use crate::floors::tell_floors;
use crate::opening::{NotOpened, settings_of};
use crate::resuming::ports_of_run;
use pon_device::StdWrite;
use pon_files::LockFile;
use pon_job::{Meeting, Outcome, Run, Units, exit_status};
use pon_run::{LinesFrom, RunArgs, UnitsPlace, run_ports};
use pon_settings::Settings;
use pon_sockets::{ExternalUnits, UnitsArgs, has_room, run_units};
use pon_units::PortNo;
use pon_worker::OpenGate;
use std::alloc::Global;
use std::fmt::{self, Display, Formatter, Write};
use std::io;
use std::net::{Net, TcpListener, TcpStream};
use std::os::fd::AsRawFd;
use std::random::RandomSource;
use std::rt::Files;
use std::sync::Wait;
use std::thread::Threads;
use std::time::{Clock, Duration};

/// How long a connection with units elsewhere may keep waiting, in seconds, if the command line does not say.
const WAIT_SECONDS: u64 = 10;

/// The name of standard input as a file of management lines.
const STANDARD_INPUT: &str = "-";

// Returns how long a connection may keep waiting.
fn wait_of(seconds: Option<u64>) -> Duration {
    Duration::from_secs(seconds.unwrap_or(WAIT_SECONDS))
}

// Returns where the lines of an operator come from.
fn lines_of(name: &str) -> LinesFrom<'_> {
    if name == STANDARD_INPUT {
        LinesFrom::StandardInput
    } else {
        LinesFrom::File(name)
    }
}

// Returns the arguments of a run.
fn args_of<'a>(run: &Run<'a>) -> RunArgs<'a> {
    let Meeting {
        external,
        once,
        grow,
        wait,
        pace,
    } = run.meeting;
    let units = if external {
        let wait = wait_of(wait);
        UnitsPlace::Elsewhere(ExternalUnits { wait, once })
    } else {
        UnitsPlace::Here { grow }
    };
    RunArgs {
        listen: run.listen,
        units,
        maps: run.maps,
        pace,
        record: run.record,
        segments: run.segments,
        resumed_from: run.resume.from,
        flush: run.flush.unwrap_or(0),
        no_clobber: run.no_clobber,
        strict_record: run.strict_record,
        config: Some(run.config),
        operate: run.operate.map(lines_of),
        control: run.control,
        settle: run.settle,
        progress: run.progress,
        summary: run.summary,
        metrics: run.metrics,
    }
}

/// Why the words of a command line do not fit the settings, or one another.
#[derive(Clone, Copy)]
enum Misfit {
    /// The settings have not this port; they have this many.
    Port { asked: u64, ports: usize },
    /// The address leaves no TCP port for one of this many.
    Address { ports: usize },
    /// The one option needs the other.
    Needs(&'static str, &'static str),
    /// The one option excludes the other, for this reason.
    Excludes(&'static str, &'static str, &'static str),
}

impl Display for Misfit {
    fn fmt<W: Write>(&self, f: &mut Formatter<W>) -> fmt::Result {
        match *self {
            Misfit::Port { asked, ports } => {
                write!(f, "port {asked} is not in the settings, which have {ports}")
            }
            Misfit::Address { ports } => write!(
                f,
                "each of {ports} ports has a TCP port of its own, and the last one is above 65535"
            ),
            Misfit::Needs(option, needed) => write!(f, "{option} needs {needed}"),
            Misfit::Excludes(option, other, why) => {
                write!(f, "{option} and {other} exclude each other: {why}")
            }
        }
    }
}

// Returns which option of a run lacks another one, or excludes it.
fn misfit_of_words(run: &Run<'_>) -> Option<Misfit> {
    let resume = &run.resume;
    let needs_resume = [
        (resume.truncated, "--resume-truncated"),
        (resume.warm, "--warm"),
        (resume.apply, "--apply"),
    ];
    for (is_given, option) in needs_resume {
        if is_given && resume.from.is_none() {
            return Some(Misfit::Needs(option, "--resume"));
        }
    }
    if run.segments.keep.is_some() && run.segments.maps.is_none() {
        return Some(Misfit::Needs("--keep", "--segment"));
    }
    if resume.from.is_some() && run.settle {
        let why = "only what this run posts has receipts";
        return Some(Misfit::Excludes("--settle", "--resume", why));
    }
    if run.segments.maps.is_some() && run.record.is_none() {
        return Some(Misfit::Needs("--segment", "--record"));
    }
    None
}

// Returns whether all ports of a run have a TCP port, if their units come from elsewhere.
fn misfit_of_run(settings: &Settings, run: &Run<'_>) -> Option<Misfit> {
    let ports = settings.ports().len();
    if run.meeting.external && !has_room(run.listen, ports) {
        return Some(Misfit::Address { ports });
    }
    None
}

// Returns why units cannot connect to the port that is asked for, or to all.
fn misfit_of_units(settings: &Settings, units: &Units<'_>) -> Option<Misfit> {
    let ports = settings.ports().len();
    match units.port {
        Some(asked) if asked >= ports as u64 => Some(Misfit::Port { asked, ports }),
        _ if !has_room(units.connect, ports) => Some(Misfit::Address { ports }),
        _ => None,
    }
}

// Says why the words of the command line do not fit the settings. Returns the exit status.
fn refuse(rt: &impl Eprint, misfit: Misfit) -> u8 {
    let _ = eprintln!(rt; "error: {misfit}");
    exit_status(Outcome::CommandLine)
}

/// Runs the ports of the settings file over sockets. Returns the exit status.
pub(crate) fn run_settings<R>(rt: &R, alloc: Global, run: &Run<'_>) -> Result<u8, NotOpened>
where
    R: Net<Listener = TcpListener, Stream = TcpStream>
        + Files
        + Input
        + Print
        + Eprint
        + Threads
        + Wait
        + Clock
        + RandomSource
        + Sync,
    R::File: AsRawFd + LockFile + Send,
    R::Dir: Send,
{
    if let Some(misfit) = misfit_of_words(run) {
        return Ok(refuse(rt, misfit));
    }
    let settings = settings_of(rt, alloc, run.config)?;
    tell_floors(rt, alloc, &settings)?;
    if let Some(misfit) = misfit_of_run(&settings, run) {
        return Ok(refuse(rt, misfit));
    }
    let Some(ports) = ports_of_run(rt, alloc, settings, &run.resume)? else {
        return Ok(exit_status(Outcome::Refused));
    };
    let mut writer = StdWrite::new(io::writer(rt));
    let args = args_of(run);
    Ok(run_ports(rt, alloc, ports, args, &OpenGate, &mut writer))
}

/// Simulates the units of the settings file for a terminal elsewhere. Returns the exit status.
pub(crate) fn connect_units<R>(rt: &R, alloc: Global, units: &Units<'_>) -> Result<u8, NotOpened>
where
    R: Net<Listener = TcpListener, Stream = TcpStream> + Files + Eprint + Threads + Wait + Clock,
{
    let settings = settings_of(rt, alloc, units.config)?;
    if let Some(misfit) = misfit_of_units(&settings, units) {
        return Ok(refuse(rt, misfit));
    }
    let port = units.port.and_then(|port| u8::try_from(port).ok());
    let args = UnitsArgs {
        connect: units.connect,
        port: port.and_then(PortNo::new),
        wait: wait_of(units.wait),
    };
    Ok(run_units(rt, alloc, &settings, &args))
}
