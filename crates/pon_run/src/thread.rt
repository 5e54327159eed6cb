//! The thread of a port that runs its worker: over one connection after another, while units come and the port is up.

use crate::connecting::next_stream;
use crate::context::RunContext;
use crate::early::WhyEnded;
use crate::pace::RunPace;
use crate::restoring::{is_served_again, nothing_done, why_stopped};
use crate::server::PortServer;
use pon_descr::Refusal;
use pon_desk::{Desk, Seat, StepFault};
use pon_device::{DevRead, DevWrite, StdRead, StdWrite};
use pon_port::Port;
use pon_recorder::{PortSink, Rings};
use pon_sockets::Visitors;
use pon_units::PortNo;
use pon_worker::{Gate, StopReason, WorkerEnd, cut_chapter, serve_port};
use std::alloc::AllocError;
use std::io::BufReader;
use std::net::TcpStream;
use std::sync::Wait;
use std::sync::ledger::Ledger;
use std::time::Clock;

/// What the worker of a port needs: its own seat, the sink of the port, which has its number, its end of the first
/// connection, and the units at the other end, if they are elsewhere.
#[derive(Drop)]
pub(crate) struct WorkerPart<L: Ledger, M: Ledger, K: Rings> {
    pub(crate) seat: Seat<L, M>,
    pub(crate) sink: PortSink<K>,
    pub(crate) stream: TcpStream,
    pub(crate) visitors: Option<Visitors>,
}

impl<L: Ledger, M: Ledger, K: Rings> WorkerPart<L, M, K> {
    /// Returns the number of the port.
    pub(crate) fn port(&self) -> PortNo {
        self.sink.port
    }
}

/// The result of a worker: its seat, its sink, and how it ended. `end` is `Err` if memory for its buffer was refused;
/// the worker then did nothing more.
#[derive(Drop)]
pub(crate) struct Worked<L: Ledger, M: Ledger, K: Rings> {
    pub(crate) seat: Seat<L, M>,
    pub(crate) sink: PortSink<K>,
    pub(crate) end: Result<WorkerEnd, AllocError>,
}

// Cuts the chapter of a port, unless it is empty.
fn cut<L: Ledger, M: Ledger, K: Rings, G: Gate, R: Wait>(
    server: &PortServer<'_, L, M, G, R>,
    sink: &mut PortSink<K>,
) {
    let (rt, desk) = (server.run.rt, server.desk);
    let is_empty = |port: &Port| port.history().is_empty();
    if !desk.inspect(rt, server.port, is_empty).unwrap_or(true) {
        cut_chapter(rt, desk, server.port, &mut sink.sink);
    }
}

// Serves a port for the maps that are left after what its worker did, adds what it does, and cuts the chapters of its
// recording when they are due.
fn serve_turns<L, M, K, G, D, W, R>(
    server: &PortServer<'_, L, M, G, R>,
    seat: &mut Seat<L, M>,
    sink: &mut PortSink<K>,
    ended: &mut WorkerEnd,
    reader: &mut D,
    writer: &mut W,
)
where
    L: Ledger,
    M: Ledger,
    K: Rings,
    G: Gate,
    D: DevRead,
    W: DevWrite,
    R: Wait + Clock,
{
    let (run, desk, port) = (server.run, server.desk, server.port);
    let mut pace = RunPace::new(run, port, ended.counts);
    for _ in run.rt.forever() {
        let served = serve_port(
            run.rt,
            desk,
            seat,
            port,
            run.gate,
            &mut pace,
            reader,
            writer,
            &mut sink.sink,
        );
        *ended = WorkerEnd {
            counts: ended.counts.plus(&served.counts),
            why: served.why,
        };
        if let Some(seen) = run.watch.port(port) {
            seen.see_counts(&ended.counts);
        }
        if !pace.takes_cut(ended.counts) {
            break;
        }
        cut(server, sink);
    }
}

// Serves a port over its end of a connection, and again each time an operator has restored it.
fn serve_stream<L: Ledger, M: Ledger, K: Rings, G: Gate, R: Wait + Clock + Eprint>(
    server: &PortServer<'_, L, M, G, R>,
    seat: &mut Seat<L, M>,
    sink: &mut PortSink<K>,
    ended: &mut WorkerEnd,
    stream: &TcpStream,
) -> Result<(), AllocError> {
    let run = server.run;
    let input = BufReader::new(run.alloc, stream).map_err(|_| AllocError)?;
    let mut reader = StdRead::new(input);
    let mut writer = StdWrite::new(stream);
    if let Some(seen) = run.watch.port(server.port) {
        seen.see_connection();
    }
    for _ in run.rt.forever() {
        serve_turns(server, seat, sink, ended, &mut reader, &mut writer);
        if !is_served_again(server, ended.why) {
            break;
        }
    }
    Ok(())
}

// Serves a port over one connection after another.
fn serve<L: Ledger, M: Ledger, K: Rings, G: Gate, R: Wait + Clock + Eprint>(
    server: &PortServer<'_, L, M, G, R>,
    seat: &mut Seat<L, M>,
    sink: &mut PortSink<K>,
    first: TcpStream,
    mut visitors: Option<Visitors>,
) -> Result<WorkerEnd, AllocError> {
    let mut ended = nothing_done();
    let mut next = Some(first);
    for _ in server.run.rt.forever() {
        let Some(stream) = next.take() else {
            break;
        };
        serve_stream(server, seat, sink, &mut ended, &stream)?;
        drop(stream);
        next = next_stream(server, seat, sink, &mut visitors, &ended);
    }
    if server.is_stopped() {
        ended.why = why_stopped(ended.why);
    }
    Ok(ended)
}

// Returns the number of a worker's end.
fn end_number(end: &Result<WorkerEnd, AllocError>) -> u64 {
    let why = match end {
        Ok(end) => end.why,
        Err(_) => StopReason::Refused(StepFault::Refused(Refusal::OutOfMemory)),
    };
    WhyEnded(why).number()
}

/// Runs the worker of a port, and closes its end of the connection.
pub(crate) fn work<'a, L: Ledger, M: Ledger, K: Rings, G: Gate, R: Wait + Clock + Eprint>(
    run: &'a RunContext<'a, G, R>,
    desk: &'a Desk<L, M>,
    part: WorkerPart<L, M, K>,
) -> Worked<L, M, K> {
    let WorkerPart {
        mut seat,
        mut sink,
        stream,
        visitors,
    } = part;
    let port = sink.port;
    let server = PortServer { run, desk, port };
    let end = serve(&server, &mut seat, &mut sink, stream, visitors);
    run.watch.end_worker(port, end_number(&end));
    Worked { seat, sink, end }
}
