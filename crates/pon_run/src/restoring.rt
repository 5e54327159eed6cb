//! A port that is down: its worker waits until an operator has restored it, and then serves it again.

use crate::server::PortServer;
use pon_descr::Refusal;
use pon_desk::StepFault;
use pon_port::Port;
use pon_worker::{Gate, PortCounts, StopReason, WorkerEnd};
use std::sync::Wait;
use std::sync::ledger::Ledger;
use std::thread;
use std::time::{Clock, Duration};

/// How long a worker sleeps before it looks again whether its port is up, in milliseconds.
const LOOK_MILLISECONDS: u64 = 10;

/// How often it looks before it says that the port waits: for a second.
const LOOKS_UNSAID: u64 = 1000 / LOOK_MILLISECONDS;

/// Returns the end of a worker that has done nothing.
pub(crate) fn nothing_done() -> WorkerEnd {
    WorkerEnd {
        counts: PortCounts::none(),
        why: StopReason::Finished,
    }
}

// Returns whether a worker ended since its port is down.
fn is_down(why: StopReason) -> bool {
    matches!(
        why,
        StopReason::Refused(StepFault::Refused(Refusal::PortDown { .. }))
    )
}

/// Returns why a worker ended in a run that was stopped: one that waited then for its port or for its units has made all its
/// turns.
pub(crate) fn why_stopped(why: StopReason) -> StopReason {
    match why {
        StopReason::Gave { .. } => StopReason::Finished,
        why if is_down(why) => StopReason::Finished,
        why => why,
    }
}

// Returns whether a port is up.
fn is_up<L: Ledger, M: Ledger, G: Gate, R: Wait>(server: &PortServer<'_, L, M, G, R>) -> bool {
    let look = |port: &Port| port.state().cause().is_none();
    let (desk, rt) = (server.desk, server.run.rt);
    desk.inspect(rt, server.port, look).unwrap_or(false)
}

// Looks again and again whether a port is up, while an operator may restore it. Returns whether it is. If that takes a second,
// it is said that the port waits, and when it is served again.
fn looks_until_up<L: Ledger, M: Ledger, G: Gate, R: Wait + Clock + Eprint>(
    server: &PortServer<'_, L, M, G, R>,
) -> bool {
    let (run, port) = (server.run, server.port.get());
    for look in 0..u64::MAX {
        // No line comes after the last look.
        let is_last = run.watch.is_operated() || server.is_stopped();
        if is_up(server) {
            if look > LOOKS_UNSAID {
                let _ = eprintln!(run.rt; "olt: port {port} is served again");
            }
            return true;
        }
        if is_last {
            return false;
        }
        if look == LOOKS_UNSAID {
            let _ = eprintln!(run.rt; "olt: port {port} waits until an operator restores it");
        }
        thread::sleep(run.rt, Duration::from_millis(LOOK_MILLISECONDS));
    }
    false
}

// Waits until a port that is down is restored. Returns `false` if it is not, and no operator can do it any more, or the run
// is stopped.
fn waits_until_up<L: Ledger, M: Ledger, G: Gate, R: Wait + Clock + Eprint>(
    server: &PortServer<'_, L, M, G, R>,
) -> bool {
    let Some(seen) = server.run.watch.port(server.port) else {
        return false;
    };
    seen.set_waiting(true);
    let is_up = looks_until_up(server);
    seen.set_waiting(false);
    is_up
}

/// Returns whether a port is served again whose worker ended so: if it is down, once an operator has restored it.
pub(crate) fn is_served_again<L: Ledger, M: Ledger, G: Gate, R: Wait + Clock + Eprint>(
    server: &PortServer<'_, L, M, G, R>,
    why: StopReason,
) -> bool {
    if !is_down(why) {
        return false;
    }
    waits_until_up(server)
}
