//! The chapters that a worker passes to its sink: cut after three entries into a ring that nobody drains, and a full
//! chapter without a ring.
ghost use Rattle.std.specs.Prelude.{◌≡◌};

use crate::bench::{ONU, close, number, put, seat};
use crate::links::{add_burst, open};
use pon_admit::Event;
use pon_desk::{Closed, Desk, Seat};
use pon_device::{MemRead, MemWrite};
use pon_port::Chapter;
use pon_ring::{Rest, RingIn, RingOut, Sink, ring};
use pon_worker::{OpenGate, StopReason, Turns, WorkerEnd, serve_port};
use std::alloc::Global;
use std::marker::Brand;
use std::process::Abort;
use std::sync::Wait;
use std::sync::ledger::{Blank, Ledger};

/// The number of entries after which a worker turns its port.
const CUT: u32 = 3;

/// The number of maps that fill a chapter, after one admission.
const MAPS_OF_A_CHAPTER: u64 = 65_535;

// The maps that port 0 made before, and the turns of its worker.
#[derive(Clone, Copy)]
struct Work {
    before: u64,
    turns: u64,
}

// How the worker ended, its sink, and its port.
#[derive(Drop)]
struct Served {
    end: WorkerEnd,
    sink: Sink,
    closed: Closed,
}

fn make_maps<L: Ledger, M: Ledger, R: Wait + Abort>(
    rt: &R,
    desk: &Desk<L, M>,
    seat: &mut Seat<L, M>,
    maps: u64,
) {
    for _map in 0..maps {
        let posted = desk.post(rt, seat, number(rt, 0), Event::MakeMap);
        assert!(rt; posted.is_ok(), "a map");
    }
}

// Returns a reader of the bursts of the unit in the frames of the worker's maps.
fn reader(rt: &impl Abort, alloc: Global, work: Work) -> MemRead {
    let mut bytes = Vec::new(alloc);
    for turn in 0..work.turns {
        add_burst(rt, &mut bytes, work.before.saturating_add(turn), ONU);
    }
    MemRead::new(bytes, 7, Vec::new(alloc))
}

// Serves port 0 with this sink.
fn serve_at<L: Ledger, M: Ledger, R: Wait + Abort>(
    rt: &R,
    alloc: Global,
    of_ports: Blank,
    of_seats: Blank,
    work: Work,
    mut sink: Sink,
) -> Served
    requires ports { (of_ports.name ≡ L.name) × (of_ports.parts ≡ L.parts) × (L.parts ≡ 2) }
    requires seats { (of_seats.name ≡ M.name) × (of_seats.parts ≡ M.parts) × (M.parts ≡ 3) }
{
    let (desk, mut seats) = open::<L, M, R>(rt, alloc, of_ports, of_seats);
    let mut seat = seat(rt, &mut seats);
    make_maps(rt, &desk, &mut seat, work.before);
    let mut pace = Turns::new(work.turns);
    let mut reader = reader(rt, alloc, work);
    let mut writer = MemWrite::new(alloc, 7, Vec::new(alloc));
    let end = serve_port(
        rt,
        &desk,
        &mut seat,
        number(rt, 0),
        &OpenGate,
        &mut pace,
        &mut reader,
        &mut writer,
        &mut sink,
    );
    put(rt, &mut seats, seat);
    let closed = close(rt, desk, seats);
    Served { end, sink, closed }
}

fn serve<R: Wait + Abort>(rt: &R, alloc: Global, work: Work, sink: Sink) -> Served {
    serve_at::<Brand, Brand, R>(rt, alloc, Blank::new(2), Blank::new(3), work, sink)
}

fn serve_cut<R: Wait + Abort>(rt: &R, alloc: Global, ring: RingIn, turns: u64) -> Served {
    serve(rt, alloc, Work { before: 0, turns }, Sink::ring(ring, CUT))
}

// Returns whether the worker made this number of turns, each with one report.
fn made_turns(end: &WorkerEnd, turns: u64) -> bool {
    end.counts.maps == turns
        && end.counts.reports == turns
        && end.counts.garbled == 0
        && end.counts.unowned == 0
        && end.counts.refused == 0
        && end.why == StopReason::Finished
}

// Returns whether port 0 keeps a chapter of this number with this number of entries.
fn keeps(rt: &impl Abort, closed: &Closed, chapter: u64, entries: usize) -> bool {
    match closed.port(number(rt, 0)) {
        None => false,
        Some(port) => port.chapter_number() == chapter && port.history().len() == entries,
    }
}

fn is_chapter(chapter: Option<Chapter>, number: u64, entries: usize) -> bool {
    match chapter {
        None => false,
        Some(chapter) => chapter.number() == number && chapter.entries().len() == entries,
    }
}

// Returns whether chapter 0 is in the ring, chapter 1 waits, and this number of chapters was dropped. Each has three
// entries.
fn are_passed(out: &mut RingOut, rest: Option<Rest>, dropped: u64) -> bool {
    let is_first = is_chapter(out.pop(), 0, 3) && out.pop().is_none();
    match rest {
        None => false,
        Some(rest) => {
            let Rest {
                pending,
                dropped: counted,
                ..
            } = rest;
            is_chapter(pending, 1, 3) && is_first && counted == dropped
        }
    }
}

/// After an admission, three turns make chapters of 3, 3 and 1 entries.
#[test]
fn a_worker_cuts_chapters_at_three_entries(rt: HostRuntime) {
    let (ring_in, mut out) = ring(rt.alloc()).expect(&rt, "memory");
    let served = serve_cut(&rt, rt.alloc(), ring_in, 3);
    assert!(rt; made_turns(&served.end, 3));
    assert!(rt; keeps(&rt, &served.closed, 2, 1));
    assert!(rt; are_passed(&mut out, served.sink.into_rest(), 0));
}

/// Six turns turn the port four times: one chapter is in the ring, one waits, two are dropped, and the worker goes on.
#[test]
fn a_worker_goes_on_when_its_ring_is_full(rt: HostRuntime) {
    let (ring_in, mut out) = ring(rt.alloc()).expect(&rt, "memory");
    let served = serve_cut(&rt, rt.alloc(), ring_in, 6);
    assert!(rt; made_turns(&served.end, 6));
    assert!(rt; keeps(&rt, &served.closed, 4, 1));
    assert!(rt; are_passed(&mut out, served.sink.into_rest(), 2));
}

/// A worker without a ring turns a port only when its chapter is full, and posts the refused event again.
#[test]
fn a_worker_without_a_ring_turns_a_full_chapter(rt: HostRuntime) {
    let work = Work {
        before: MAPS_OF_A_CHAPTER,
        turns: 3,
    };
    let served = serve(&rt, rt.alloc(), work, Sink::none());
    assert!(rt; made_turns(&served.end, 3));
    assert!(rt; keeps(&rt, &served.closed, 1, 6));
    assert!(rt; served.sink.dropped() == 0);
}
