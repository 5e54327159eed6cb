//! The operators that connect to a run: a thread that accepts their connections, and one for each seat that serves them.

use crate::context::RunContext;
use crate::operator::answer_connection;
use crossbeam_channel::{Receiver, SendTimeoutError, Sender};
use pon_desk::{Desk, Seat};
use pon_sockets::{ControlListener, OperatorStream};
use pon_worker::Gate;
use std::io::{Read, Write};
use std::net::{Net, TcpListener, TcpStream};
use std::sync::Wait;
use std::sync::ledger::Ledger;
use std::thread;
use std::time::{Clock, Duration};

/// How long the run sleeps after it found no connection of an operator, in milliseconds.
const LOOK_MILLISECONDS: u64 = 20;

/// How long a connection may wait for a free seat, in milliseconds.
const SEAT_MILLISECONDS: u64 = 100;

/// The line that an operator gets if no seat is free.
const BUSY: &[u8] = b"err L8 Busy\n";

/// The most pieces that are read of what such an operator has sent, so that its connection ends without a fault.
const MAX_PIECES: usize = 64;

/// The size of a piece, in bytes.
const PIECE: usize = 4_096;

/// The operators that may connect to a run: where, the seats for them, and the way of their connections to the seats.
#[derive(Drop)]
pub(crate) struct ControlPart<'a, L: Ledger, M: Ledger> {
    pub(crate) listener: &'a ControlListener,
    pub(crate) seats: Vec<Seat<L, M>>,
    pub(crate) accepted: Sender<OperatorStream>,
    pub(crate) served: &'a Receiver<OperatorStream>,
}

/// A seat for operators that connect, at the end of a run. The connection that it served then is closed once the run has
/// ended, so that its operator knows.
#[derive(Drop)]
pub(crate) struct Operated<L: Ledger, M: Ledger> {
    pub(crate) seat: Seat<L, M>,
    pub(crate) last: Option<OperatorStream>,
}

// Reads what an operator has sent: the system would drop the reply if something were left.
fn read_sent(mut stream: &OperatorStream) {
    let mut piece = [0; PIECE];
    for _piece in 0..MAX_PIECES {
        if stream.read(&mut piece).unwrap_or(0) == 0 {
            break;
        }
    }
}

// Says to an operator that no seat is free.
fn refuse(mut stream: &OperatorStream) {
    if stream.set_nonblocking().is_ok() {
        read_sent(stream);
        let _ = stream.write_all(BUSY);
    }
}

/// Accepts the connections of operators until the workers have ended, and gives each to a free seat. If no seat is free, the
/// connection gets the line `err L8 Busy`, and is closed.
pub(crate) fn accept_operators<G: Gate, R: Wait + Clock>(
    run: &RunContext<'_, G, R>,
    listener: &ControlListener,
    accepted: Sender<OperatorStream>,
) {
    for _look in run.rt.forever() {
        if run.watch.is_over() {
            break;
        }
        let Some(stream) = listener.accept_next() else {
            thread::sleep(run.rt, Duration::from_millis(LOOK_MILLISECONDS));
            continue;
        };
        let wait = Duration::from_millis(SEAT_MILLISECONDS);
        if let Err(error) = accepted.send_timeout(run.rt, stream, wait) {
            refuse(&error.into_inner());
        }
    }
}

/// Serves one operator after another at a seat, until the workers have ended.
pub(crate) fn serve_operators<L, M, G, R>(
    run: &RunContext<'_, G, R>,
    desk: &Desk<L, M>,
    mut seat: Seat<L, M>,
    served: &Receiver<OperatorStream>,
) -> Operated<L, M>
where
    L: Ledger,
    M: Ledger,
    G: Gate,
    R: Net<Listener = TcpListener, Stream = TcpStream> + Wait + Eprint,
{
    for _connection in run.rt.forever() {
        let Ok(stream) = served.recv(run.rt) else {
            break;
        };
        let _ = answer_connection(run, desk, &mut seat, &stream);
        if run.watch.is_over() {
            let last = Some(stream);
            return Operated { seat, last };
        }
    }
    Operated { seat, last: None }
}
