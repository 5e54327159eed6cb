//! A ring of chapters that is not drained: one chapter in the ring, one that waits, and the others dropped.

use crate::acts::{gap, profile};
use pon_port::{Chapter, Port, PortCfg};
use pon_ring::{Rest, RingOut, Sink, ring};
use pon_units::FrameNo;
use std::alloc::Global;
use std::process::Abort;

/// The number of entries after which a worker turns its port.
const CUT: u32 = 100;

fn open(rt: &impl Abort, alloc: Global) -> Port {
    let cfg = PortCfg {
        gap: gap(rt, 16),
        profile: profile(rt),
    };
    Port::open(alloc, cfg, FrameNo::new(0)).expect(rt, "memory")
}

fn pass(rt: &impl Abort, port: &mut Port, sink: &mut Sink) {
    sink.pass(port.turn().ok().expect(rt, "a chapter"));
}

fn pass_many(rt: &impl Abort, port: &mut Port, sink: &mut Sink, turns: u32) {
    for _ in 0..turns {
        pass(rt, port, sink);
    }
}

fn is_numbered(chapter: Option<Chapter>, number: u64) -> bool {
    match chapter {
        None => false,
        Some(chapter) => chapter.number() == number,
    }
}

/// Returns whether the ring gives only the chapter of this number.
fn gives(out: &mut RingOut, number: u64) -> bool {
    is_numbered(out.pop(), number) && out.pop().is_none()
}

/// Returns whether a chapter waits in the rest, with this number and this number of dropped ones.
fn is_rest(rest: Option<Rest>, number: u64, dropped: u64) -> bool {
    match rest {
        None => false,
        Some(rest) => is_numbered(rest.pending, number) && rest.dropped == dropped,
    }
}

/// Returns whether of the chapters 0 to 3 the first is in the ring, the second waits, and two are dropped. Each later turn
/// lets the waiting one into the ring.
fn gives_rising(rt: &impl Abort, port: &mut Port, sink: &mut Sink, out: &mut RingOut) -> bool {
    pass_many(rt, port, sink, 4);
    let is_first = sink.dropped() == 2 && gives(out, 0);
    pass(rt, port, sink);
    let is_second = gives(out, 1);
    pass(rt, port, sink);
    is_first && is_second && gives(out, 4)
}

#[test]
fn a_ring_that_is_not_drained_drops_chapters(rt: HostRuntime) {
    let (ring_in, mut out) = ring(rt.alloc()).expect(&rt, "memory");
    let mut port = open(&rt, rt.alloc());
    let mut sink = Sink::ring(ring_in, CUT);
    let are_given = gives_rising(&rt, &mut port, &mut sink, &mut out);
    assert!(rt; are_given);
    assert!(rt; is_rest(sink.into_rest(), 5, 2));
}

fn turn_many(rt: &impl Abort, port: &mut Port, turns: u32) {
    for _ in 0..turns {
        assert!(rt; port.turn().is_ok(), "a chapter");
    }
}

/// Returns whether chapter 2, which was dropped while chapter 1 waited, is dropped again if it comes from another port, and
/// chapter 3 is passed on.
fn drops_again(rt: &impl Abort, alloc: Global, sink: &mut Sink, out: &mut RingOut) -> bool {
    let mut port = open(rt, alloc);
    pass_many(rt, &mut port, sink, 3);
    let is_first = sink.dropped() == 1 && gives(out, 0);
    let mut other = open(rt, alloc);
    turn_many(rt, &mut other, 2);
    pass(rt, &mut other, sink);
    let is_dropped = sink.dropped() == 2 && gives(out, 1);
    pass(rt, &mut port, sink);
    is_first && is_dropped && gives(out, 3)
}

#[test]
fn a_number_of_a_dropped_chapter_is_not_passed_on(rt: HostRuntime) {
    let (ring_in, mut out) = ring(rt.alloc()).expect(&rt, "memory");
    let mut sink = Sink::ring(ring_in, CUT);
    let are_dropped = drops_again(&rt, rt.alloc(), &mut sink, &mut out);
    assert!(rt; are_dropped);
}

/// Passes four chapters and pops each, and returns whether their numbers are 0 to 3.
fn gives_each(rt: &impl Abort, port: &mut Port, sink: &mut Sink, out: &mut RingOut) -> bool {
    for number in 0..4 {
        pass(rt, port, sink);
        if !gives(out, number) {
            return false;
        }
    }
    sink.dropped() == 0
}

#[test]
fn a_ring_that_is_drained_drops_none(rt: HostRuntime) {
    let (ring_in, mut out) = ring(rt.alloc()).expect(&rt, "memory");
    let mut port = open(&rt, rt.alloc());
    let mut sink = Sink::ring(ring_in, CUT);
    let are_given = gives_each(&rt, &mut port, &mut sink, &mut out);
    assert!(rt; are_given);
}

fn turns_at_cut(sink: &Sink) -> bool {
    !sink.wants_turn(98) && sink.wants_turn(99) && sink.wants_turn(100)
}

fn is_idle(sink: &Sink) -> bool {
    !sink.wants_turn(65_535) && sink.dropped() == 0
}

#[test]
fn a_sink_wants_a_turn_from_its_cut_on(rt: HostRuntime) {
    let (ring_in, _out) = ring(rt.alloc()).expect(&rt, "memory");
    let sink = Sink::ring(ring_in, CUT);
    let none = Sink::none();
    let is_cut = turns_at_cut(&sink);
    assert!(rt; is_cut && is_idle(&none));
}
