//! Turns of a full port: the chapter that is handed out, the map after it, and a port that goes on from it.

use super::*;
use pon_port::{Chapter, Entry};

/// The number of Alloc-IDs of an ONU.
const OF_AN_ONU: u16 = 16;

/// The number of maps in a full window.
const WINDOW: usize = 64;

/// The number of entries of a full port with a full window: 256 admissions and 65 maps.
const ENTRIES: usize = 256 + 65;

/// Opens a port, admits 256 Alloc-IDs of 16 ONUs with a fixed rate of one word a frame, and makes 65 maps.
fn full_port(rt: &impl Abort, alloc: Global) -> Port {
    let mut port = open(rt, alloc, 16, 0);
    for k in 0..256 {
        take(rt, &mut port, Act::Admit(k / OF_AN_ONU, 1024 + k, 256));
    }
    for _ in 0..65 {
        let _map = made_map(rt, &mut port);
    }
    port
}

/// Returns whether a chapter has these entries, and opens as a port just opened does.
fn is_first_chapter(chapter: &Chapter, entries: &[Entry]) -> bool {
    chapter.number() == 0
        && chapter.opening().next_frame().get() == 0
        && chapter.opening().roster().rows().is_empty()
        && are_same(chapter.entries(), entries)
}

/// Returns whether the port keeps an empty chapter that opens with 256 Alloc-IDs and a full window.
fn is_second_chapter(port: &Port) -> bool {
    let opening = port.opening();
    port.chapter_number() == 1
        && port.history().is_empty()
        && port.last().is_none()
        && opening.roster().rows().len() == 256
        && opening.loads().window().maps().len() == WINDOW
        && opening.next_frame().get() == 65
        && opening.taken_before() == ENTRIES as u64
}

/// Returns whether two ports make the same map next.
fn map_alike(rt: &impl Abort, port: &mut Port, other: &mut Port) -> bool {
    made_map(rt, port) == made_map(rt, other)
}

/// Turns the second port, and returns whether the chapter has the entries of the first.
fn turns(rt: &impl Abort, plain: &Port, turned: &mut Port) -> bool {
    let chapter = turned.turn().ok().expect(rt, "a chapter");
    is_first_chapter(&chapter, plain.history())
}

/// Turns the second of two equal ports, and returns whether both make the same map next.
fn map_alike_after_a_turn(rt: &impl Abort, plain: &mut Port, turned: &mut Port) -> bool {
    plain.history().len() == ENTRIES
        && turns(rt, plain, turned)
        && is_second_chapter(turned)
        && map_alike(rt, turned, plain)
        && shown(turned) == (1, plain.taken(), 66)
}

/// Opens a second port where the kept chapter of a port opens.
fn resumed(rt: &impl Abort, alloc: Global, port: &Port) -> Port {
    let opening = port.opening().try_copy(alloc).expect(rt, "memory");
    Port::resume(alloc, port.chapter_number(), opening).expect(rt, "a port")
}

/// Turns the second of two equal ports, resumes it, and returns whether the resumed one makes the maps of the first.
fn map_alike_once_resumed(
    rt: &impl Abort,
    alloc: Global,
    plain: &mut Port,
    turned: &mut Port,
) -> bool {
    let has_turned = turns(rt, plain, turned);
    let mut resumed = resumed(rt, alloc, turned);
    has_turned
        && is_second_chapter(&resumed)
        && map_alike(rt, &mut resumed, plain)
        && map_alike(rt, &mut resumed, plain)
        && shown(&resumed) == (2, plain.taken(), 67)
}

#[test]
fn a_resumed_port_maps_as_one_that_was_not_closed(rt: HostRuntime) {
    let mut plain = full_port(&rt, rt.alloc());
    let mut turned = full_port(&rt, rt.alloc());
    let are_alike = map_alike_once_resumed(&rt, rt.alloc(), &mut plain, &mut turned);
    assert!(rt; are_alike);
}

#[test]
fn a_turned_port_maps_as_one_that_was_not(rt: HostRuntime) {
    let mut plain = full_port(&rt, rt.alloc());
    let mut turned = full_port(&rt, rt.alloc());
    let are_alike = map_alike_after_a_turn(&rt, &mut plain, &mut turned);
    assert!(rt; are_alike);
}
