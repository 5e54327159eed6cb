//! Copies of a map and of a state, the chapter that a port hands out, and events kept without a copy of the reply.

use super::*;
use pon_port::{Chapter, EntryRef};

const ROWS: &[Structure] = &[(1024, Some(16), 11)];

fn copies_a_map(rt: &impl Abort, alloc: Global, port: &mut Port, frame: u64) -> bool {
    let made = made_map(rt, port);
    let copy = made.try_copy(alloc).expect(rt, "memory");
    is_map(&made, frame, ROWS) && is_map(&copy, frame, ROWS)
}

fn copies_its_state(rt: &impl Abort, alloc: Global, port: &Port) -> bool {
    let copy = port.state().try_copy(alloc).expect(rt, "memory");
    copy.taken_before() == 3 && copy.next_frame().get() == 2 && copy.roster().rows().len() == 1
}

#[test]
fn copies_equal_what_is_copied(rt: HostRuntime) {
    let mut port = open(&rt, rt.alloc(), 16, 0);
    take(&rt, &mut port, Act::Admit(5, 1024, 2560));
    for frame in 0..2 {
        assert!(rt; copies_a_map(&rt, rt.alloc(), &mut port, frame), "{frame}");
    }
    assert!(rt; copies_its_state(&rt, rt.alloc(), &port));
}

fn accept(rt: &impl Abort, port: &mut Port, act: Act) {
    let is_taken = answer(rt, port, act, 1).is_ok();
    assert!(rt; is_taken, "taken");
}

fn keep(rt: &impl Abort, port: &mut Port, act: Act) {
    let before = port.history().len();
    let index = port.keep(event(rt, act)).ok();
    assert!(rt; index == Some(before), "kept");
}

// A port that took a map and a failure.
fn took_both(rt: &impl Abort, alloc: Global) -> Port {
    let mut port = open(rt, alloc, 16, 7);
    accept(rt, &mut port, Act::MakeMap);
    accept(rt, &mut port, Act::Fail(4));
    port
}

// A port that kept the same.
fn kept_both(rt: &impl Abort, alloc: Global) -> Port {
    let mut port = open(rt, alloc, 16, 7);
    keep(rt, &mut port, Act::MakeMap);
    keep(rt, &mut port, Act::Fail(4));
    port
}

fn opens_at_7(chapter: &Chapter) -> bool {
    let opening = chapter.opening();
    chapter.number() == 0 && opening.next_frame().get() == 7 && opening.cause().is_none()
}

fn ends_by_failure(rt: &impl Abort, chapter: &Chapter) -> bool {
    match chapter.entries() {
        [_, last] => last.event() == event(rt, Act::Fail(4)),
        _ => false,
    }
}

#[test]
fn hands_out_its_chapter(rt: HostRuntime) {
    let chapter = took_both(&rt, rt.alloc()).into_chapter();
    assert!(rt; opens_at_7(&chapter) && ends_by_failure(&rt, &chapter));
}

fn begins_by_a_map(port: &Port) -> bool {
    match port.history() {
        [first, _] => matches!(first.as_ref(), EntryRef::Map(_)),
        _ => false,
    }
}

fn keeps_no_map(rt: &impl Abort, port: &mut Port) -> bool {
    let refused = port.keep(event(rt, Act::MakeMap)).err();
    refused == Some(refusal(rt, Why::PortDown(4))) && port.history().len() == 2
}

// Returns whether both ports keep the same, beginning by a map, and the second refuses one more.
fn keep_alike(rt: &impl Abort, taking: &Port, keeping: &mut Port) -> bool {
    let is_same = are_same(taking.history(), keeping.history());
    is_same && begins_by_a_map(keeping) && keeps_no_map(rt, keeping)
}

#[test]
fn keeps_what_it_takes(rt: HostRuntime) {
    let taking = took_both(&rt, rt.alloc());
    let mut keeping = kept_both(&rt, rt.alloc());
    let are_alike = keep_alike(&rt, &taking, &mut keeping);
    assert!(rt; are_alike);
}
