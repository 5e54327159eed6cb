//! The metrics of a run: a thread that answers the clients that connect.

use crate::context::RunContext;
use crate::numbers::numbers_of_ports;
use bytes::Bytes;
use pon_desk::Desk;
use pon_device::DeviceFault;
use pon_job::{Failure, VERSION};
use pon_metrics::{MetricsService, page_of};
use pon_sockets::{MetricsClients, MetricsListener};
use pon_worker::Gate;
use std::alloc::{AllocError, Global};
use std::net::{Net, TcpListener, TcpStream};
use std::random::RandomSource;
use std::sync::Wait;
use std::sync::atomic::{AtomicBool, Ordering};
use std::sync::ledger::Ledger;
use std::thread;
use std::thread::Scope;
use std::time::{Clock, Duration};

/// How long the thread sleeps between two looks at its clients, in milliseconds.
const LOOK_MILLISECONDS: u64 = 10;

/// Listens for the clients of the metrics of a run, if it has an address for them. Returns `Read` if the socket cannot be made.
pub(crate) fn open_metrics<R>(
    rt: &R,
    alloc: Global,
    address: Option<&str>,
) -> Result<Option<MetricsListener>, Failure>
where
    R: Net<Listener = TcpListener, Stream = TcpStream> + RandomSource + Eprint,
{
    match address {
        Some(address) => Ok(Some(MetricsListener::open(rt, alloc, address)?)),
        None => Ok(None),
    }
}

// Returns the number of the program's version.
fn version() -> &'static str {
    match VERSION.split_once(' ') {
        Some((number, _)) => number,
        None => VERSION,
    }
}

// Answers the requests that have come with the numbers of the ports now.
fn answer<L: Ledger, M: Ledger, G: Gate, R: Wait>(
    run: &RunContext<'_, G, R>,
    desk: &Desk<L, M>,
    clients: &mut MetricsClients<'_>,
) -> Result<(), AllocError> {
    let numbers = numbers_of_ports(run.rt, run.alloc, desk, run.watch.ports())?;
    let text = page_of(run.alloc, version(), numbers.as_slice())?;
    let page = Bytes::from_string(text)?;
    clients.answer(&mut MetricsService { page });
    Ok(())
}

// Answers the clients until the flag is set. The page is made at most once a look, however many clients ask.
fn answer_clients<L: Ledger, M: Ledger, G: Gate, R: Wait + Clock>(
    run: &RunContext<'_, G, R>,
    desk: &Desk<L, M>,
    listener: &MetricsListener,
    stop: &AtomicBool,
) {
    let mut clients = MetricsClients::none(run.alloc, listener);
    for _look in run.rt.forever() {
        if stop.load(Ordering::SeqCst) {
            break;
        }
        if clients.hear(run.rt) {
            let _ = answer(run, desk, &mut clients);
        }
        clients.send(run.rt);
        thread::sleep(run.rt, Duration::from_millis(LOOK_MILLISECONDS));
    }
}

/// Starts the thread of the metrics, if the run has them. It ends when the flag is set, and the scope waits for it. Returns
/// `Memory` if it cannot be created.
pub(crate) fn start_metrics<'s, E, L, M, G, R>(
    scope: &Scope<'s, E>,
    run: &'s RunContext<'s, G, R>,
    desk: &'s Desk<L, M>,
    stop: &'s AtomicBool,
) -> Result<(), DeviceFault>
where
    L: Ledger + Send + Sync,
    M: Ledger + Send + Sync,
    G: Gate + Sync,
    R: Wait + Clock + Sync,
{
    let Some(listener) = run.metrics else {
        return Ok(());
    };
    match scope.spawn(move || answer_clients(run, desk, listener, stop)) {
        Ok(_answering) => Ok(()),
        Err(_) => Err(DeviceFault::Memory),
    }
}
