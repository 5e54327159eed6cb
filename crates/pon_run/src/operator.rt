//! The operator of a run: management lines that are executed while the workers run.

ghost use Rattle.std.specs.Prelude.{◌↔◌, IfOk, IsNone};

use crate::arguments::LinesFrom;
use crate::connection::ReplyWriter;
use crate::console::{Console, STANDARD_INPUT};
use crate::context::RunContext;
use crate::watch::{RunWatch, Service};
use pon_desk::{Desk, Seat};
use pon_device::{DevRead, DevWrite, DeviceFault, StdRead, StdWrite};
use pon_files::open_input;
use pon_job::{Failure, Named};
use pon_manage::{RunNotes, operate_noted};
use pon_sockets::{ControlListener, OperatorStream};
use pon_worker::Gate;
use std::alloc::Global;
use std::fs::{self, OpenOptions};
use std::io::{BufReader, Read};
use std::net::{Net, TcpListener, TcpStream};
use std::os::fd::AsRawFd;
use std::os::unix::fs::FileTypeExt;
use std::rt::Files;
use std::sync::Wait;
use std::sync::ledger::Ledger;

/// The lines of an operator, ready to be read.
#[derive(Drop)]
pub(crate) enum OpenedLines<F> {
    /// Those of a regular file, which are all executed.
    File(F),
    /// Those of a pipe or a device, which end when the workers have ended.
    Stream(F),
    /// Those of standard input, which end when the workers have ended.
    StandardInput,
}

// Opens a named pipe for both directions, so that it needs no writer, and does not end when one goes.
fn open_pipe<R: Files>(rt: &R, alloc: Global, name: &str) -> Result<R::File, Failure> {
    match OpenOptions::new().read(true).write(true).open(rt, name) {
        Ok(file) => Ok(file),
        Err(error) => Err(Failure::of(alloc, DeviceFault::Read, Named::Lines(name), &error)),
    }
}

// Opens the file of an operator's lines. Returns `Read` if it cannot be opened or is a folder.
fn open_lines<R: Files>(
    rt: &R,
    alloc: Global,
    name: &str,
) -> Result<OpenedLines<R::File>, Failure> {
    match fs::metadata(rt, name) {
        Ok(found) if found.file_type().is_fifo() => {
            Ok(OpenedLines::Stream(open_pipe(rt, alloc, name)?))
        }
        Ok(found) if !found.is_file() => {
            let file = open_input(rt, alloc, Named::Lines(name))?;
            Ok(OpenedLines::Stream(file))
        }
        _ => {
            let file = open_input(rt, alloc, Named::Lines(name))?;
            Ok(OpenedLines::File(file))
        }
    }
}

/// Opens the lines of the operator of a run, if it has one. Returns `Read` if their file cannot be opened.
pub(crate) fn open_operator<G: Gate, R: Files>(
    run: &RunContext<'_, G, R>,
) -> Result<Option<OpenedLines<R::File>>, Failure>
    ensures { IfOk result (λ lines. IsNone lines ↔ IsNone run.now.args.operate) }
{
    match run.args.operate {
        None => Ok(None),
        Some(LinesFrom::StandardInput) => Ok(Some(OpenedLines::StandardInput)),
        Some(LinesFrom::File(name)) => Ok(Some(open_lines(run.rt, run.alloc, name)?)),
    }
}

/// Listens for the operators that connect to a run, if they can. Returns `Read` if a socket cannot be made.
pub(crate) fn open_control<G: Gate, R>(
    run: &RunContext<'_, G, R>,
) -> Result<Option<ControlListener>, Failure>
where
    R: Net<Listener = TcpListener, Stream = TcpStream> + Files + Eprint,
{
    if !run.args.is_controlled() {
        return Ok(None);
    }
    let listener = ControlListener::open(run.rt, run.alloc, &run.args.control)?;
    Ok(Some(listener))
}

/// Says on standard error how a port is served whose state was shown, and stops the run.
#[derive(Drop)]
struct ServiceNotes<'a, R> {
    rt: &'a R,
    watch: &'a RunWatch,
}

impl<'a, R: Eprint> RunNotes for ServiceNotes<'a, R> {
    fn shown(&self, port: usize) {
        let Some(seen) = self.watch.ports().get(port) else {
            return;
        };
        let service = seen.service();
        let _ = match service {
            Service::Ended(why) => eprintln!(self.rt; "  port {port} {service}: {why}"),
            Service::Served | Service::Waiting => eprintln!(self.rt; "  port {port} {service}"),
        };
    }

    fn stop(&self) {
        self.watch.stop();
    }
}

// Executes lines, as [`operate_noted`] does.
fn answer_lines<L, M, G, F, W, R>(
    run: &RunContext<'_, G, R>,
    desk: &Desk<L, M>,
    seat: &mut Seat<L, M>,
    file: F,
    writer: &mut W,
) -> Result<(), DeviceFault>
where
    L: Ledger,
    M: Ledger,
    G: Gate,
    F: Read + Drop,
    W: DevWrite,
    R: Wait + Eprint,
{
    let input = BufReader::new(run.alloc, file).map_err(|_| DeviceFault::Memory)?;
    let mut reader = StdRead::new(input);
    let notes = ServiceNotes {
        rt: run.rt,
        watch: run.watch,
    };
    match operate_noted(run.rt, run.alloc, desk, seat, &notes, &mut reader, writer) {
        Ok(_) => Ok(()),
        Err(fault) => Err(fault),
    }
}

// Executes the lines that a stream gives before the workers have ended.
fn answer_stream<L, M, G, F, W, R>(
    run: &RunContext<'_, G, R>,
    desk: &Desk<L, M>,
    seat: &mut Seat<L, M>,
    stream: F,
    descriptor: i32,
    writer: &mut W,
) -> Result<(), DeviceFault>
where
    L: Ledger,
    M: Ledger,
    G: Gate,
    F: Read + Drop,
    W: DevWrite,
    R: Net + Wait + Eprint,
{
    match Console::open(run.rt, run.alloc, stream, descriptor, run.watch) {
        Ok(console) => answer_lines(run, desk, seat, console, writer),
        Err(_) => Err(DeviceFault::Read),
    }
}

/// Executes the lines of the operator: all of a regular file, or those that a pipe, a device or standard input gives before
/// the workers have ended.
pub(crate) fn answer<L, M, G, F, W, R>(
    run: &RunContext<'_, G, R>,
    desk: &Desk<L, M>,
    seat: &mut Seat<L, M>,
    lines: OpenedLines<F>,
    writer: &mut W,
) -> Result<(), DeviceFault>
where
    L: Ledger,
    M: Ledger,
    G: Gate,
    F: Read + AsRawFd + Drop,
    W: DevWrite,
    R: Input + Net + Wait + Eprint,
{
    let answered = match lines {
        OpenedLines::File(file) => answer_lines(run, desk, seat, file, writer),
        OpenedLines::Stream(stream) => {
            let descriptor = stream.as_raw_fd();
            answer_stream(run, desk, seat, stream, descriptor, writer)
        }
        OpenedLines::StandardInput => {
            answer_stream(run, desk, seat, run.rt.reader(), STANDARD_INPUT, writer)
        }
    };
    if !run.args.is_controlled() {
        run.watch.end_operator();
    }
    answered
}

/// Executes the lines of an operator that is connected, until it closes its end or the workers have ended.
///
/// # Errors
///
/// `Read` if a read of the connection failed; `Write` if a write of it did, or the operator reads nothing for 10 seconds;
/// `Memory` if memory was refused.
pub(crate) fn answer_connection<L, M, G, R>(
    run: &RunContext<'_, G, R>,
    desk: &Desk<L, M>,
    seat: &mut Seat<L, M>,
    stream: &OperatorStream,
) -> Result<(), DeviceFault>
where
    L: Ledger,
    M: Ledger,
    G: Gate,
    R: Net + Wait + Eprint,
{
    let Ok(replies) = ReplyWriter::open(stream, run.watch) else {
        return Err(DeviceFault::Write);
    };
    let mut writer = StdWrite::new(replies);
    answer_stream(run, desk, seat, stream, stream.as_raw_fd(), &mut writer)
}
