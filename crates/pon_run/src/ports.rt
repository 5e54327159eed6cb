//! The ports of a run at a desk: filled from the settings, and what each of them did.

ghost use Rattle.std.specs.Prelude.{◌≡◌, ◌++◌, All, IfOk, map, true};
ghost use Rattle.pon_run.specs.Ends.{end_of, ends_of, with_dropped};
ghost use Rattle.pon_run.specs.Runs.{EndedAs, IsFinished};

use crate::end::PortEnd;
use crate::running::Served;
use crate::thread::{Worked, WorkerPart};
use pon_desk::{Desk, Seat};
use pon_job::MAX_OPERATORS;
use pon_port::Port;
use pon_recorder::{PortSink, Rings};
use pon_settings::{Settings, SettingsRow};
use pon_sockets::{FarEnd, Link, UnitsPart, units_of};
use pon_worker::{StopReason, WorkerEnd};
use std::alloc::{AllocError, Global};
use std::sync::Wait;
use std::sync::ledger::Ledger;

/// Number of seats besides those of the workers: one for the rows of the settings, and one for the operator.
pub(crate) const OTHER_SEATS: usize = 2;

/// The greatest number of seats besides those of the workers: also one for each operator that may be connected.
pub(crate) const MAX_OTHER_SEATS: usize = OTHER_SEATS + MAX_OPERATORS as usize;

/// Admits the rows of the settings, each of which a roster has accepted. `Err` only if memory is refused.
pub(crate) fn admit_rows<L: Ledger, M: Ledger, R: Wait>(
    rt: &R,
    alloc: Global,
    desk: &Desk<L, M>,
    seat: &mut Seat<L, M>,
    settings: &Settings,
) -> Result<(), AllocError> {
    for step in settings.steps(alloc)? {
        match desk.post(rt, seat, step.port, step.event) {
            Ok(receipt) => seat.keep(receipt),
            Err(_) => return Err(AllocError),
        }
    }
    Ok(())
}

// Combines what serves one port.
fn served_port<L: Ledger, M: Ledger, K: Rings>(
    alloc: Global,
    rows: &[SettingsRow],
    seat: Seat<L, M>,
    sink: PortSink<K>,
    link: Link,
) -> Result<Served<L, M, K>, AllocError> {
    let Link {
        port: stream,
        units: far,
    } = link;
    let (units, visitors) = match far {
        FarEnd::Here(end) => {
            let part = UnitsPart {
                units: units_of(alloc, rows)?,
                stream: end,
            };
            (Some(part), None)
        }
        FarEnd::Elsewhere(visitors) => (None, Some(visitors)),
    };
    Ok(Served {
        units,
        worker: WorkerPart {
            seat,
            sink,
            stream,
            visitors,
        },
    })
}

/// Combines what serves each port of the settings, in order. `Err` only if memory is refused.
pub(crate) fn served_ports<L: Ledger, M: Ledger, K: Rings>(
    alloc: Global,
    settings: &Settings,
    seats: Vec<Seat<L, M>>,
    sinks: Vec<PortSink<K>>,
    links: Vec<Link>,
) -> Result<Vec<Served<L, M, K>>, AllocError> {
    let mut all = Vec::with_capacity(alloc, links.len())?;
    let parts = seats.into_iter().zip(sinks).zip(links);
    for (port, ((seat, sink), link)) in settings.ports().iter().zip(parts) {
        let served = served_port(alloc, port.rows(), seat, sink, link)?;
        all.push(served)?;
    }
    Ok(all)
}

// Returns what a port and its worker did, before dropped chapters are counted.
fn end_of(port: &Port, end: &WorkerEnd) -> PortEnd
    ensures { result ≡ end_of port.now end.now }
{
    PortEnd {
        counts: end.counts,
        entries: port.taken(),
        dropped: 0,
    }
}

/// Returns how each worker ended, in order. `Err` if memory was refused, here or in one of the threads.
pub(crate) fn worker_ends<L: Ledger, M: Ledger, K: Rings>(
    alloc: Global,
    all: &[Worked<L, M, K>],
) -> Result<Vec<WorkerEnd>, AllocError>
    ensures { IfOk result (λ ends. EndedAs (map (λ w. w.end) all.now) ends.items) }
{
    let mut ends = Vec::with_capacity(alloc, all.len())?;
    for worked in all {
        ends.push(worked.end?)?;
    }
    Ok(ends)
}

/// Returns whether no worker ended early.
pub(crate) fn all_finished(ends: &[WorkerEnd]) -> bool
    ensures { result ≡ true → All IsFinished ends.now }
{
    ends.iter().all(|end| end.why == StopReason::Finished)
}

/// Adds the seats of the workers to these seats, and returns all with the sinks, in order. `Err` only if memory is
/// refused.
pub(crate) fn split_results<L: Ledger, M: Ledger, K: Rings>(
    alloc: Global,
    mut seats: Vec<Seat<L, M>>,
    all: Vec<Worked<L, M, K>>,
) -> Result<(Vec<Seat<L, M>>, Vec<PortSink<K>>), AllocError>
    ensures seats { IfOk result (λ split. split.0.items ≡ seats.items ++ map (λ w. w.seat) all.items) }
    ensures sinks { IfOk result (λ split. split.1.items ≡ map (λ w. w.sink) all.items) }
{
    let mut sinks = Vec::with_capacity(alloc, all.len())?;
    for Worked { seat, sink, end: _ } in all {
        seats.push(seat)?;
        sinks.push(sink)?;
    }
    Ok((seats, sinks))
}

/// Returns what each port and its worker did, in order, before dropped chapters are counted. `Err` only if memory is
/// refused.
pub(crate) fn ends_of(
    alloc: Global,
    ports: &[Port],
    workers: &[WorkerEnd],
) -> Result<Vec<PortEnd>, AllocError>
    ensures { IfOk result (λ all. all.items ≡ ends_of ports.now workers.now) }
{
    let mut all = Vec::with_capacity(alloc, ports.len())?;
    for (place, port) in ports.iter().enumerate() {
        let Some(worker) = workers.get(place) else {
            return Ok(all);
        };
        all.push(end_of(port, worker))?;
    }
    Ok(all)
}

/// Returns the ends with these numbers of dropped chapters, in order; an end without a number is unchanged. `Err` only if
/// memory is refused.
pub(crate) fn with_dropped(
    alloc: Global,
    ends: &[PortEnd],
    dropped: &[u64],
) -> Result<Vec<PortEnd>, AllocError>
    ensures { IfOk result (λ all. all.items ≡ with_dropped ends.now dropped.now) }
{
    let mut all = Vec::with_capacity(alloc, ends.len())?;
    for (place, end) in ends.iter().enumerate() {
        let mut end = *end;
        if let Some(count) = dropped.get(place) {
            end.dropped = *count;
        }
        all.push(end)?;
    }
    Ok(all)
}
