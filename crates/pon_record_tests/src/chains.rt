//! Verdicts on recordings with several chapters of a port.

use crate::audit;
use crate::recordings::bytes;
use std::alloc::Global;
use std::process::Abort;
use std::thread::Threads;

// The history of port 0 in three chapters: an Alloc-ID of 2,560 kbit/s with a gap of 16 words; three maps with 10 payload
// words each; a report of 100 words for each.
const FIRST: &str = "
    43 00000081 00 0000000000000000
    0010 00 00 0000000000000000 0000000000000000 0000 00 00000003
    01 0005 0400 00000a00 00000000 00000a00 00
    05 0000000000000000 002013ac 10020010000b13cb
    00 0000000000000000 0000000000000000 0000 00 0000000000000000 0000000000000000 0000
    04 0000000000000000 0005 01 00000064";

// The second chapter up to its rows: of the report for frame 0, 90 words are left.
const SECOND_ROWS: &str = "
    0000000000000001
    0010 00 00 0000000000000001 0000000000000003
    0001 0005 0400 00000a00 00000000 00000a00 00 0000000000000000 01 0000000000000000 0000005a";

const SECOND_WINDOW: &str = "01 0000000000000000 0001 0005 0400 000a 01 0005";

const SECOND_ENTRIES: &str = "00000003
    05 0000000000000001 002013ac 10020010000b13cb
    00 0000000000000000 0000000000000000 0000 00 0000000000000000 0000000000000000 0000
    04 0000000000000001 0005 01 00000064
    05 0000000000000002 002013ac 10020010000b13cb
    00 0000000000000000 0000000000000000 0000 00 0000000000000000 0000000000000000 0000";

const THIRD: &str = "
    43 00000091 00 0000000000000002
    0010 00 00 0000000000000003 0000000000000006
    0001 0005 0400 00000a00 00000000 00000a00 00 0000000000000000 01 0000000000000001 00000050
    03 0000000000000000 0001 0005 0400 000a 01 0005
    0000000000000001 0001 0005 0400 000a 01 0005
    0000000000000002 0001 0005 0400 000a 00
    00000001 04 0000000000000002 0005 01 00000064";

fn add(rt: &impl Abort, alloc: Global, recording: &mut Vec<u8>, text: &str) {
    let more = bytes(rt, alloc, text);
    recording.extend_from_slice(&more).expect(rt, "memory");
}

// Makes the second chapter with these rows and this window.
fn second(rt: &impl Abort, alloc: Global, rows: &str, window: &str) -> Vec<u8> {
    let mut body = bytes(rt, alloc, "00");
    for part in [rows, window, SECOND_ENTRIES] {
        add(rt, alloc, &mut body, part);
    }
    let mut chapter = bytes(rt, alloc, "43");
    let size = u32::try_from(body.len()).expect(rt, "a size");
    chapter
        .extend_from_slice(&size.to_be_bytes())
        .expect(rt, "memory");
    chapter.extend_from_slice(&body).expect(rt, "memory");
    chapter
}

// Makes a recording of these chapters.
fn recording(rt: &impl Abort, alloc: Global, chapters: &[&[u8]]) -> Vec<u8> {
    let mut recording = bytes(rt, alloc, "504f4e5245433031");
    for chapter in chapters {
        recording.extend_from_slice(chapter).expect(rt, "memory");
    }
    recording
}

// Returns whether the verdict on a recording of these chapters is this text.
fn is_told(
    rt: &(impl Abort + Threads + Sync),
    alloc: Global,
    chapters: &[&[u8]],
    wanted: &str,
) -> bool {
    let recording = recording(rt, alloc, chapters);
    audit::is_told(rt, alloc, &recording, wanted)
}

// Rows and window of the second chapter after the first, and the verdict: the same; another report, a failed port, no window
// and one more row, which are lawful; then one fault of an opening each, first of all rows that are out of map order.
static OPENINGS: [(&str, &str, &str); 20] = [
    (
        "0000000000000001 0010 00 00 0000000000000001 0000000000000003
         0001 0005 0400 00000a00 00000000 00000a00 00 0000000000000000 01 0000000000000000 0000005a",
        "01 0000000000000000 0001 0005 0400 000a 01 0005",
        "good maps 3",
    ),
    (
        "0000000000000001 0010 00 00 0000000000000001 0000000000000003
         0001 0005 0400 00000a00 00000000 00000a00 00 0000000000000000 01 0000000000000000 0000005b",
        "01 0000000000000000 0001 0005 0400 000a 01 0005",
        "bad port 0 chapter 1 entry 0 Chain",
    ),
    (
        "0000000000000001 0010 00 01 0000000000000001 0000000000000003
         0001 0005 0400 00000a00 00000000 00000a00 00 0000000000000000 00 0000000000000000 00000000",
        "00",
        "bad port 0 chapter 1 entry 0 Chain",
    ),
    (
        "0000000000000001 0010 00 00 0000000000000001 0000000000000003
         0001 0005 0400 00000a00 00000000 00000a00 00 0000000000000000 01 0000000000000000 0000005a",
        "00",
        "bad port 0 chapter 1 entry 0 Chain",
    ),
    (
        "0000000000000001 0010 00 00 0000000000000001 0000000000000003
         0002 0005 0400 00000a00 00000000 00000a00 00 0000000000000000 01 0000000000000000 0000005a
         0005 0401 00000100 00000000 00000100 00 0000000000000001 00 0000000000000000 00000000",
        "01 0000000000000000 0001 0005 0400 000a 01 0005",
        "bad port 0 chapter 1 entry 0 Chain",
    ),
    (
        "0000000000000001 0010 00 00 0000000000000001 0000000000000003
         0002 0005 0401 00000100 00000000 00000100 00 0000000000000001 00 0000000000000000 00000000
         0005 0400 00000a00 00000000 00000a00 00 0000000000000000 01 0000000000000000 0000005a",
        "01 0000000000000000 0001 0005 0400 000a 01 0005",
        "bad port 0 chapter 1 entry 0 Opening",
    ),
    (
        "0000000000000001 0010 00 00 0000000000000001 0000000000000003
         0002 0005 0400 00000a00 00000000 00000a00 00 0000000000000000 01 0000000000000000 0000005a
         0006 0400 00000100 00000000 00000100 00 0000000000000001 00 0000000000000000 00000000",
        "01 0000000000000000 0001 0005 0400 000a 01 0005",
        "bad port 0 chapter 1 entry 0 Opening",
    ),
    (
        "0000000000000001 0010 00 00 0000000000000001 0000000000000003
         0001 0005 0400 0025f800 00000000 0025f800 00 0000000000000000 01 0000000000000000 0000005a",
        "01 0000000000000000 0001 0005 0400 000a 01 0005",
        "bad port 0 chapter 1 entry 0 Opening",
    ),
    (
        "0000000000000001 0010 00 00 0000000000000001 0000000000000003
         0001 0005 0400 00000a00 00000000 00000a00 00 0000000000000002 00 0000000000000000 00000000",
        "01 0000000000000000 0001 0005 0400 000a 01 0005",
        "bad port 0 chapter 1 entry 0 Opening",
    ),
    (
        "0000000000000001 0010 00 00 0000000000000001 0000000000000003
         0001 0005 0400 00000a00 00000000 00000a00 00 0000000000000001 01 0000000000000000 0000005a",
        "01 0000000000000000 0001 0005 0400 000a 01 0005",
        "bad port 0 chapter 1 entry 0 Opening",
    ),
    (
        "0000000000000001 0010 00 00 0000000000000001 0000000000000003
         0001 0005 0400 00000a00 00000000 00000a00 00 0000000000000000 01 0000000000000001 0000005a",
        "01 0000000000000000 0001 0005 0400 000a 01 0005",
        "bad port 0 chapter 1 entry 0 Opening",
    ),
    (
        "0000000000000001 0010 00 00 0000000000000001 0000000000000003
         0001 0005 0400 00000a00 00000000 00000a00 00 0000000000000000 01 0000000000000000 0000005a",
        "01 0000000000000001 0001 0005 0400 000a 01 0005",
        "bad port 0 chapter 1 entry 0 Opening",
    ),
    (
        "0000000000000001 0010 00 00 0000000000000001 0000000000000003
         0001 0005 0400 00000a00 00000000 00000a00 00 0000000000000000 01 0000000000000000 0000005a",
        "01 0000000000000000 0002 0005 0400 000a 0005 0400 000a 01 0005",
        "bad port 0 chapter 1 entry 0 Opening",
    ),
    (
        "0000000000000001 0010 00 00 0000000000000001 0000000000000003
         0001 0005 0400 00000a00 00000000 00000a00 00 0000000000000000 01 0000000000000000 0000005a",
        "01 0000000000000000 0001 0005 0400 000a 02 0005 0005",
        "bad port 0 chapter 1 entry 0 Opening",
    ),
    (
        "0000000000000001 0010 00 00 0000000000000001 0000000000000003
         0001 0005 0400 00000a00 00000000 00000a00 00 0000000000000000 01 0000000000000000 0000005a",
        "01 0000000000000000 0001 0005 0400 000a 02 0005 0006",
        "bad port 0 chapter 1 entry 0 Opening",
    ),
    (
        "0000000000000001 0010 00 00 0000000000000001 0000000000000003
         0001 0005 0400 00000a00 00000000 00000a00 00 0000000000000000 01 0000000000000000 0000005a",
        "01 0000000000000000 0001 0005 0400 000a 00",
        "bad port 0 chapter 1 entry 0 Opening",
    ),
    (
        "0000000000000001 0010 00 00 0000000000000001 0000000000000003
         0001 0005 0400 00000a00 00000000 00000a00 00 0000000000000000 01 0000000000000000 0000005a",
        "01 0000000000000000 0002 0005 0400 000a 0006 0400 000a 01 0005",
        "bad port 0 chapter 1 entry 0 Opening",
    ),
    (
        "0000000000000001 0010 00 01 0000000000000001 0000000000000003
         0001 0005 0400 00000a00 00000000 00000a00 00 0000000000000000 01 0000000000000000 0000005a",
        "00",
        "bad port 0 chapter 1 entry 0 Opening",
    ),
    (
        "0000000000000001 0010 00 01 0000000000000001 0000000000000003
         0001 0005 0400 00000a00 00000000 00000a00 00 0000000000000000 00 0000000000000000 00000000",
        "01 0000000000000000 0001 0005 0400 000a 01 0005",
        "bad port 0 chapter 1 entry 0 Opening",
    ),
    (
        "0000000000000000 0010 00 00 0000000000000001 0000000000000003
         0001 0005 0400 00000a00 00000000 00000a00 00 0000000000000000 01 0000000000000000 0000005a",
        "01 0000000000000000 0001 0005 0400 000a 01 0005",
        "bad port 0 chapter 0 entry 0 Opening",
    ),
];

#[test]
fn judges_the_opening_of_a_later_chapter(rt: HostRuntime) {
    let alloc = rt.alloc();
    let first = bytes(&rt, alloc, FIRST);
    for (rows, window, wanted) in OPENINGS.iter() {
        let second = second(&rt, alloc, rows, window);
        assert!(rt;
            is_told(&rt, alloc, &[&first, &second], wanted),
            "{rows} {window}"
        );
    }
}

// Chapters in a row, without the second, without the first, and in other orders.
#[test]
fn follows_the_chapters_of_a_port(rt: HostRuntime) {
    let alloc = rt.alloc();
    let first = bytes(&rt, alloc, FIRST);
    let second = second(&rt, alloc, SECOND_ROWS, SECOND_WINDOW);
    let third = bytes(&rt, alloc, THIRD);
    assert!(rt; is_told(&rt, alloc, &[&first, &second, &third], "good maps 3"));
    assert!(rt; is_told(&rt, alloc, &[&first, &third], "good maps 1"));
    assert!(rt; is_told(&rt, alloc, &[&second, &third], "good maps 2"));
    let falls = "bad port 0 chapter 0 entry 0 Number";
    assert!(rt; is_told(&rt, alloc, &[&second, &first], falls));
    let falls = "bad port 0 chapter 1 entry 0 Number";
    assert!(rt; is_told(&rt, alloc, &[&first, &second, &second], falls));
    assert!(rt; is_told(&rt, alloc, &[&first, &third, &second], falls));
}

// A chapter that neither ascends nor continues the one before it.
#[test]
fn tells_a_broken_chain_before_a_number(rt: HostRuntime) {
    let alloc = rt.alloc();
    let first = bytes(&rt, alloc, FIRST);
    let third = bytes(&rt, alloc, THIRD);
    let other = second(&rt, alloc, SECOND_ROWS, "00");
    let broken = "bad port 0 chapter 1 entry 0 Chain";
    assert!(rt; is_told(&rt, alloc, &[&first, &third, &other], broken));
}
