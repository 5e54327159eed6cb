//! The next units of a port, after its connection with the units before has ended.

use crate::early::WhyEnded;
use crate::server::PortServer;
use pon_descr::Cause;
use pon_desk::Seat;
use pon_port::Port;
use pon_recorder::{PortSink, Rings};
use pon_sockets::Visitors;
use pon_worker::{Gate, StopReason, WorkerEnd, restore_port};
use std::net::TcpStream;
use std::sync::Wait;
use std::sync::ledger::Ledger;
use std::thread;
use std::time::{Clock, Duration, Instant};

/// How long a port sleeps before it looks again for a connection, in milliseconds.
const LOOK_MILLISECONDS: u64 = 5;

// Looks for a connection of the next units, until the time to wait has passed or the run is stopped.
fn looks_for_units<L: Ledger, M: Ledger, G: Gate, R: Wait + Clock + Eprint>(
    server: &PortServer<'_, L, M, G, R>,
    visitors: &mut Visitors,
) -> Option<TcpStream> {
    let rt = server.run.rt;
    let begun = Instant::now(rt).ok()?;
    for _look in rt.forever() {
        let next = visitors.accept_next(rt);
        if next.is_some() {
            return next;
        }
        if server.is_stopped() || begun.elapsed(rt).ok()? >= visitors.wait {
            return None;
        }
        thread::sleep(rt, Duration::from_millis(LOOK_MILLISECONDS));
    }
    None
}

// Waits for a connection of the next units. `None` if none comes, or the port takes no further one.
fn wait_for_units<L: Ledger, M: Ledger, G: Gate, R: Wait + Clock + Eprint>(
    server: &PortServer<'_, L, M, G, R>,
    visitors: &mut Visitors,
) -> Option<TcpStream> {
    let place = visitors.place()?;
    let seen = server.run.watch.port(server.port)?;
    let (port, seconds) = (server.port.get(), visitors.wait.as_secs());
    let _ = eprintln!(server.run.rt;
        "olt: port {port} waits {seconds} s for its next units at {place}"
    );
    seen.set_waiting(true);
    let stream = looks_for_units(server, visitors);
    seen.set_waiting(false);
    stream
}

// Restores a port that its worker failed for this cause. A port that an operator has failed or restored meanwhile stays as it
// is.
fn restore<L: Ledger, M: Ledger, K: Rings, G: Gate, R: Wait>(
    server: &PortServer<'_, L, M, G, R>,
    seat: &mut Seat<L, M>,
    sink: &mut PortSink<K>,
    cause: Cause,
) {
    let (rt, desk) = (server.run.rt, server.desk);
    let is_failed_so = |port: &Port| port.state().cause() == Some(cause);
    if desk.inspect(rt, server.port, is_failed_so).unwrap_or(false) {
        let _restored = restore_port(rt, desk, seat, server.port, &mut sink.sink);
    }
}

/// Says that the connection of a port with units elsewhere has ended, and returns that of the next units, once the port is
/// restored. `None` if the worker did not give the link up, no map is left to make, or no units come.
pub(crate) fn next_stream<L: Ledger, M: Ledger, K: Rings, G: Gate, R: Wait + Clock + Eprint>(
    server: &PortServer<'_, L, M, G, R>,
    seat: &mut Seat<L, M>,
    sink: &mut PortSink<K>,
    visitors: &mut Option<Visitors>,
    ended: &WorkerEnd,
) -> Option<TcpStream> {
    let visitors = visitors.as_mut()?;
    let (port, peer, why) = (server.port.get(), visitors.peer, WhyEnded(ended.why));
    let _ = eprintln!(server.run.rt;
        "olt: port {port} ends its connection with units at {peer}: {why}"
    );
    let StopReason::Gave { cause } = ended.why else {
        return None;
    };
    if server.run.args.maps_left(ended.counts.maps) == 0 {
        return None;
    }
    let stream = wait_for_units(server, visitors)?;
    restore(server, seat, sink, cause);
    Some(stream)
}
