//! The numbers that the metrics of a run show of its ports.

ghost use Rattle.std.specs.Prelude.{◌≡◌, IfOk, length};
ghost use Rattle.std.specs.Vec.{vec_len};
ghost use Rattle.pon_run.specs.Metrics.{cause_number, is_ended, is_served, metrics_of, plan_of};

use crate::watch::{PortNumbers, PortWatch, Service};
use pon_descr::Cause;
use pon_desk::Desk;
use pon_metrics::PortMetrics;
use pon_port::Port;
use pon_units::{PortNo, WORD_RATE};
use std::alloc::{AllocError, Global};
use std::sync::Wait;
use std::sync::ledger::Ledger;

/// The bytes of a kilobit.
pub const BYTES_OF_KBIT: u64 = 125;

/// What the state of a port says.
#[derive(Clone, Copy)]
pub(crate) struct PortPlan {
    /// The cause with which it is failed, 1 to 9; 0 if it is not failed.
    cause: u64,
    /// The number of its Alloc-IDs.
    alloc_ids: u64,
    /// The number of ONUs that own one.
    onus: u64,
    /// The sum of the fixed and assured rates, in bytes per second.
    guaranteed: u64,
    /// The rate for payload, in bytes per second.
    capacity: u64,
}

// Returns the number of a cause, 0 if there is none.
fn cause_number(cause: Option<Cause>) -> u64
    ensures { result ≡ cause_number cause }
{
    match cause {
        Some(cause) => u64::from(cause.get()),
        None => 0,
    }
}

// Returns what the state of a port says. It copies five numbers that the state has.
fn plan_of(port: &Port) -> PortPlan
    ensures { result ≡ plan_of port.now }
{
    let state = port.state();
    let roster = state.roster();
    PortPlan {
        cause: cause_number(state.cause()),
        alloc_ids: roster.rows().len() as u64,
        onus: roster.onus() as u64,
        guaranteed: BYTES_OF_KBIT * u64::from(roster.guaranteed_sum().get()),
        capacity: BYTES_OF_KBIT * (WORD_RATE * u64::from(roster.capacity().get())),
    }
}

// Returns whether a port is served.
fn is_served(service: Service) -> bool
    ensures { result ≡ is_served service }
{
    match service {
        Service::Served => true,
        Service::Waiting | Service::Ended(_) => false,
    }
}

// Returns whether the worker of a port has ended.
fn is_ended(service: Service) -> bool
    ensures { result ≡ is_ended service }
{
    match service {
        Service::Ended(_) => true,
        Service::Served | Service::Waiting => false,
    }
}

// Combines the numbers of a port, how it is served, and what its state says, if that is known.
fn metrics_of(numbers: PortNumbers, service: Service, plan: Option<PortPlan>) -> PortMetrics
    ensures { result ≡ metrics_of numbers service plan }
{
    let counts = numbers.counts;
    PortMetrics {
        up: is_served(service),
        ended: is_ended(service),
        cause: plan.map(|plan| plan.cause),
        maps: counts.maps,
        reports: counts.reports,
        refused: counts.refused,
        damaged: counts.garbled.saturating_sub(counts.unowned),
        unowned: counts.unowned,
        late: numbers.late,
        latest: numbers.latest,
        recorded: numbers.recorded,
        dropped: numbers.dropped,
        connections: numbers.connections,
        alloc_ids: plan.map(|plan| plan.alloc_ids),
        onus: plan.map(|plan| plan.onus),
        guaranteed: plan.map(|plan| plan.guaranteed),
        capacity: plan.map(|plan| plan.capacity),
    }
}

// Reads the numbers of a port now. Its lock is held while five numbers of its state are copied.
fn numbers_of<L: Ledger, M: Ledger, R: Wait>(
    rt: &R,
    desk: &Desk<L, M>,
    port: usize,
    seen: &PortWatch,
) -> PortMetrics {
    let number = u8::try_from(port).ok().and_then(PortNo::new);
    let plan = match number {
        Some(port) => desk.inspect(rt, port, |port: &Port| plan_of(port)).ok(),
        None => None,
    };
    metrics_of(seen.numbers(), seen.service(), plan)
}

/// Reads the numbers of all ports now, in order. Each port's lock is held while five numbers of its state are copied, and no
/// lock when it returns. `Err` only if memory is refused.
pub(crate) fn numbers_of_ports<L: Ledger, M: Ledger, R: Wait>(
    rt: &R,
    alloc: Global,
    desk: &Desk<L, M>,
    ports: &[PortWatch],
) -> Result<Vec<PortMetrics>, AllocError>
    ensures { IfOk result (λ all. vec_len all ≡ length ports.now) }
{
    let mut all = Vec::with_capacity(alloc, ports.len())?;
    for (port, seen) in ports.iter().enumerate() {
        all.push(numbers_of(rt, desk, port, seen))?;
    }
    Ok(all)
}
