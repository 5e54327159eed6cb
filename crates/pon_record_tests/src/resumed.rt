//! Ports that go on where a recording ends.

use crate::writing::{admission, append, open_port, report, take};
use pon_admit::Event;
use pon_audit::{KeptEnds, Verdict};
use pon_device::{MemWrite, StdRead};
use pon_port::Port;
use pon_record::RecordFile;
use pon_resume::{ReadEnds, read_ends};
use pon_units::PortNo;
use std::alloc::Global;
use std::process::Abort;
use std::thread::Threads;

// The number of the chapters of each port, and of the maps of each chapter.
const CHAPTERS: u64 = 3;

const MAPS: usize = 5;

// Bytes that the device takes in a call.
const PIECE: usize = 4096;

// Place in a chapter of the last byte of the number of entries before it.
const TAKEN_BEFORE: usize = 34;

// Two ports after the last chapter of their recording, and the place of that chapter.
#[derive(Drop)]
struct Recorded {
    one: Port,
    other: Port,
    bytes: Vec<u8>,
    last: usize,
}

// Appends the next chapter of a port.
fn record_next(rt: &impl Abort, file: &mut RecordFile<MemWrite>, number: u8, port: &mut Port) {
    for _map in 0..MAPS {
        let frame = port.state().next_frame().get();
        take(rt, port, Event::MakeMap);
        take(rt, port, report(rt, frame));
    }
    let chapter = port.turn().expect(rt, "memory");
    assert!(rt; append(rt, file, number, &chapter) == Ok(()), "written");
}

// Records the chapters of port 0 and of port 1 by turns.
fn record(rt: &impl Abort, alloc: Global) -> Recorded {
    let mut one = open_port(rt, alloc, 16, 0, 0);
    let mut other = open_port(rt, alloc, 32, 1, 7);
    take(rt, &mut one, admission(rt));
    take(rt, &mut other, admission(rt));
    let device = MemWrite::new(alloc, PIECE, Vec::new(alloc));
    let mut file = RecordFile::open(alloc, device).expect(rt, "memory");
    let mut last = 0;
    for _chapter in 0..CHAPTERS {
        record_next(rt, &mut file, 0, &mut one);
        last = file.writer().bytes().len();
        record_next(rt, &mut file, 1, &mut other);
    }
    let bytes = Vec::from_slice(alloc, file.writer().bytes()).expect(rt, "memory");
    Recorded {
        one,
        other,
        bytes,
        last,
    }
}

fn ends_of(rt: &(impl Abort + Threads + Sync), alloc: Global, bytes: &[u8]) -> ReadEnds {
    let mut reader = StdRead::new(bytes);
    let mut again = StdRead::new(bytes);
    read_ends(rt, alloc, KeptEnds::OfPorts, &mut reader, &mut again).expect(rt, "memory")
}

// Resumes a port; `None` if the recording has no chapter of it.
fn resumed(rt: &impl Abort, alloc: Global, ends: &ReadEnds, number: u8) -> Option<Port> {
    let last = ends.last.as_ref().expect(rt, "last chapters");
    let port = PortNo::new(number).expect(rt, "a port");
    last.resume(alloc, port).expect(rt, "a port that goes on")
}

// Returns whether two ports make the same maps in chapters of the same number.
fn go_on_alike(rt: &impl Abort, one: &mut Port, other: &mut Port) -> bool {
    for _map in 0..MAPS {
        let frame = one.state().next_frame().get();
        if one.take(Event::MakeMap) != other.take(Event::MakeMap) {
            return false;
        }
        take(rt, one, report(rt, frame));
        take(rt, other, report(rt, frame));
    }
    one.chapter_number() == other.chapter_number()
}

// Returns whether a port goes on like the one that was not interrupted.
fn goes_on(
    rt: &impl Abort,
    alloc: Global,
    ends: &ReadEnds,
    number: u8,
    uninterrupted: &mut Port,
) -> bool {
    let mut port = resumed(rt, alloc, ends, number).expect(rt, "a chapter of the port");
    go_on_alike(rt, &mut port, uninterrupted)
}

#[test]
fn makes_the_maps_of_a_port_that_was_not_interrupted(rt: HostRuntime) {
    let alloc = rt.alloc();
    let mut recorded = record(&rt, alloc);
    let ends = ends_of(&rt, alloc, &recorded.bytes);
    assert!(rt; ends.verdict == Verdict::Good { maps: 30 }, "good");
    assert!(rt; goes_on(&rt, alloc, &ends, 0, &mut recorded.one), "port 0");
    assert!(rt;
        goes_on(&rt, alloc, &ends, 1, &mut recorded.other),
        "port 1"
    );
    assert!(rt; resumed(&rt, alloc, &ends, 2).is_none(), "port 2");
}

#[test]
fn resumes_after_the_last_whole_chapter(rt: HostRuntime) {
    let alloc = rt.alloc();
    let recorded = record(&rt, alloc);
    let cut = recorded.bytes.len().saturating_sub(1);
    let whole = recorded.bytes.get(..cut).expect(&rt, "bytes");
    let ends = ends_of(&rt, alloc, whole);
    assert!(rt;
        ends.verdict == Verdict::Truncated { at: recorded.last },
        "cut"
    );
    for (number, chapter) in [(0, CHAPTERS), (1, CHAPTERS - 1)] {
        let port = resumed(&rt, alloc, &ends, number).expect(&rt, "a chapter");
        assert!(rt; port.chapter_number() == chapter, "{number}");
    }
}

// Bytes that are no good recording: a byte of the last chapter's opening is changed, and a byte follows the chapters.
#[test]
fn keeps_no_chapter_of_a_bad_recording(rt: HostRuntime) {
    let alloc = rt.alloc();
    let Recorded { bytes, last, .. } = record(&rt, alloc);
    let at = bytes.len();
    let mut bytes = bytes;
    bytes.push(0).expect(&rt, "memory");
    let ends = ends_of(&rt, alloc, &bytes);
    assert!(rt;
        ends.verdict == Verdict::BadFormat { at } && ends.last.is_none(),
        "format"
    );
    bytes.pop();
    *bytes
        .as_mut_slice()
        .get_mut(last.saturating_add(TAKEN_BEFORE))
        .expect(&rt, "a byte") ^= 1;
    let ends = ends_of(&rt, alloc, &bytes);
    assert!(rt; !ends.verdict.is_good() && ends.last.is_none(), "chain");
}
