//! Workers at a gate that opens late, at a failed port and at a port that the desk does not have.
ghost use Rattle.std.specs.Prelude.{◌≡◌};

use crate::bench::{cause, number, seat};
use crate::links::{bursts, open};
use pon_admit::Event;
use pon_descr::Refusal;
use pon_desk::{Desk, Seat, StepFault};
use pon_device::{MemRead, MemWrite};
use pon_units::PortNo;
use pon_worker::{Gate, OpenGate, Point, Sink, StopReason, Turns, WorkerEnd, serve_port};
use std::alloc::Global;
use std::marker::Brand;
use std::process::Abort;
use std::sync::Wait;
use std::sync::atomic::{AtomicU64, Ordering};
use std::sync::ledger::{Blank, Ledger};

// Refuses this number of times at one point, and then lets each worker pass.
#[derive(Drop)]
struct OpensLate {
    point: Point,
    refusals: u64,
    asked: AtomicU64,
}

impl Gate for OpensLate {
    fn pass(&self, _port: PortNo, point: Point) -> bool {
        if point != self.point {
            return true;
        }
        self.asked.fetch_add(1, Ordering::SeqCst) >= self.refusals
    }
}

// Serves a port for one turn over memory.
fn serve_once<L: Ledger, M: Ledger, G: Gate, R: Wait + Abort>(
    rt: &R,
    alloc: Global,
    desk: &Desk<L, M>,
    seat: &mut Seat<L, M>,
    port: u8,
    gate: &G,
) -> WorkerEnd {
    let mut reader = MemRead::new(bursts(rt, alloc, 1), 18, Vec::new(alloc));
    let mut writer = MemWrite::new(alloc, 21, Vec::new(alloc));
    serve_port(
        rt,
        desk,
        seat,
        number(rt, port),
        gate,
        &mut Turns::new(1),
        &mut reader,
        &mut writer,
        &mut Sink::none(),
    )
}

// Serves a port of a desk of two ports, of which the second has failed with cause 4.
fn serve_at<L: Ledger, M: Ledger, G: Gate, R: Wait + Abort>(
    rt: &R,
    alloc: Global,
    of_ports: Blank,
    of_seats: Blank,
    port: u8,
    gate: &G,
) -> WorkerEnd
    requires ports { (of_ports.name ≡ L.name) × (of_ports.parts ≡ L.parts) × (L.parts ≡ 2) }
    requires seats { (of_seats.name ≡ M.name) × (of_seats.parts ≡ M.parts) × (M.parts ≡ 3) }
{
    let (desk, mut seats) = open::<L, M, R>(rt, alloc, of_ports, of_seats);
    let mut seat = seat(rt, &mut seats);
    let down = Event::Fail {
        cause: cause(rt, 4),
    };
    let is_down = desk.post(rt, &mut seat, number(rt, 1), down).is_ok();
    assert!(rt; is_down, "failed");
    serve_once(rt, alloc, &desk, &mut seat, port, gate)
}

fn serve<G: Gate, R: Wait + Abort>(rt: &R, alloc: Global, port: u8, gate: &G) -> WorkerEnd {
    serve_at::<Brand, Brand, G, R>(rt, alloc, Blank::new(2), Blank::new(3), port, gate)
}

// Returns whether a worker at a gate that refuses this number of times ends for this reason, after it called the gate
// this number of times at the point.
fn ends_at_gate(
    rt: &(impl Wait + Abort),
    alloc: Global,
    point: Point,
    refusals: u64,
    why: StopReason,
    calls: u64,
) -> bool {
    let gate = OpensLate {
        point,
        refusals,
        asked: AtomicU64::new(0),
    };
    let end = serve(rt, alloc, 0, &gate);
    end.why == why && end.counts.maps == 1 && gate.asked.load(Ordering::SeqCst) == calls
}

#[test]
fn a_gate_is_called_10000_times_in_a_row(rt: HostRuntime) {
    for point in [Point::Send, Point::Read] {
        for (refusals, why, calls) in [
            (9_999, StopReason::Finished, 10_000),
            (10_000, StopReason::GateLimit, 10_000),
        ] {
            let is_end = ends_at_gate(&rt, rt.alloc(), point, refusals, why, calls);
            assert!(rt; is_end, "{refusals} refusals");
        }
    }
}

// Returns whether a worker of this port ends at once for this reason, since the desk makes no map.
fn is_refused(rt: &(impl Wait + Abort), alloc: Global, port: u8, fault: StepFault) -> bool {
    let end = serve(rt, alloc, port, &OpenGate);
    end.why == StopReason::Refused(fault) && end.counts.maps == 0 && end.counts.reports == 0
}

#[test]
fn a_refused_map_ends_a_worker(rt: HostRuntime) {
    let cause = cause(&rt, 4);
    let down = StepFault::Refused(Refusal::PortDown { cause });
    for (port, fault) in [(1, down), (2, StepFault::NoSuchPort)] {
        assert!(rt; is_refused(&rt, rt.alloc(), port, fault), "port {port}");
    }
}
