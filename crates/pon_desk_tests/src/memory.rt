//! A worker whose seat keeps its receipts, with ample memory, and with one allocation that is refused
//! (`rt try --test --fail-alloc N`).
ghost use Rattle.std.specs.Prelude.{◌≡◌};

use crate::bench::{ONU, admission, cfg, number};
use crate::links::try_add_burst;
use pon_descr::Refusal;
use pon_desk::{Desk, Seat, StepFault};
use pon_device::{MemRead, MemWrite};
use pon_worker::{OpenGate, Sink, StopReason, Turns, WorkerEnd, serve_port};
use std::alloc::Global;
use std::marker::Brand;
use std::process::Abort;
use std::sync::Wait;
use std::sync::ledger::{Blank, Ledger};

const TURNS: u64 = 6;

// How a worker ended, and the number of receipts that its seat kept.
struct Outcome {
    end: WorkerEnd,
    receipts: Option<usize>,
}

// Returns one burst for each turn. `None` if memory is refused.
fn input(rt: &impl Abort, alloc: Global) -> Option<Vec<u8>> {
    let mut bytes = Vec::new(alloc);
    for frame in 0..TURNS {
        if !try_add_burst(rt, &mut bytes, frame, ONU) {
            return None;
        }
    }
    Some(bytes)
}

// Serves port 0. `None` if memory is refused to the test itself.
fn serve<L: Ledger, M: Ledger, R: Wait + Abort>(
    rt: &R,
    alloc: Global,
    desk: &Desk<L, M>,
    seat: &mut Seat<L, M>,
) -> Option<WorkerEnd> {
    let mut reader = MemRead::new(input(rt, alloc)?, 18, Vec::new(alloc));
    let mut writer = MemWrite::new(alloc, 21, Vec::new(alloc));
    Some(serve_port(
        rt,
        desk,
        seat,
        number(rt, 0),
        &OpenGate,
        &mut Turns::new(TURNS),
        &mut reader,
        &mut writer,
        &mut Sink::none(),
    ))
}

// Serves a port with one Alloc-ID. `None` if memory is refused to the test itself.
fn served_at<L: Ledger, M: Ledger, R: Wait + Abort>(
    rt: &R,
    alloc: Global,
    of_ports: Blank,
    of_seats: Blank,
) -> Option<Outcome>
    requires ports { (of_ports.name ≡ L.name) × (of_ports.parts ≡ L.parts) × (L.parts ≡ 1) }
    requires seats { (of_seats.name ≡ M.name) × (of_seats.parts ≡ M.parts) × (M.parts ≡ 1) }
{
    let opened = Desk::<L, M>::open(alloc, of_ports, of_seats, &[cfg(rt, 16, 0)], 1);
    let (desk, mut seats) = opened.ok()?;
    let seat = seats.get_mut(0)?;
    desk.post(rt, seat, number(rt, 0), admission(rt)).ok()?;
    seat.keep_receipts(alloc);
    let end = serve(rt, alloc, &desk, seat)?;
    let receipts = seat.take_receipts().map(|receipts| receipts.len());
    Some(Outcome { end, receipts })
}

fn served(rt: &(impl Wait + Abort), alloc: Global) -> Option<Outcome> {
    served_at::<Brand, Brand, _>(rt, alloc, Blank::new(1), Blank::new(1))
}

fn keeps_all(served: Option<Outcome>) -> bool {
    match served {
        None => false,
        Some(Outcome { end, receipts }) => {
            end.why == StopReason::Finished && end.counts.reports == TURNS && receipts == Some(12)
        }
    }
}

#[test]
fn a_seat_keeps_all_receipts_of_a_worker(rt: HostRuntime) {
    assert!(rt; keeps_all(served(&rt, rt.alloc())));
}

// Returns whether each record was taken, or only the last one refused, and the worker made all its turns exactly when none
// was and no map was refused.
fn is_right(end: &WorkerEnd) -> bool {
    let is_whole = end.why == StopReason::Finished
        && end.counts.maps == TURNS
        && end.counts.refused == 0;
    let refused = StopReason::Refused(StepFault::Refused(Refusal::OutOfMemory));
    let is_cut = end.why == refused && end.counts.maps <= TURNS && end.counts.refused <= 1;
    (is_whole || is_cut) && end.counts.reports.wrapping_add(end.counts.refused) == end.counts.maps
}

fn ends_right(served: Option<Outcome>) -> bool {
    match served {
        None => true,
        Some(Outcome { end, receipts: _ }) => is_right(&end),
    }
}

#[test]
fn refused_memory_ends_a_worker(rt: HostRuntime) {
    assert!(rt; ends_right(served(&rt, rt.alloc())));
}
