//! Verdicts on recordings.

use crate::recordings::{RECORDING, bytes, bytes_again};
use crate::streams::is_streamed;
use pon_audit::{AuditReason, Verdict, audit};
use pon_record::migrate;
use std::alloc::{AllocError, Global};
use std::process::Abort;
use std::thread::Threads;

// Returns whether this is the text of a verdict.
fn is_text(rt: &impl Abort, alloc: Global, verdict: &Verdict, wanted: &str) -> bool {
    let verdict = *verdict;
    let text = format!(in alloc; "{verdict}").expect(rt, "memory");
    text.as_str() == wanted
}

/// Returns whether the verdict on these bytes is this text, and the same one if a reader gives them.
pub(crate) fn is_told(
    rt: &(impl Abort + Threads + Sync),
    alloc: Global,
    recording: &[u8],
    wanted: &str,
) -> bool {
    let verdict = audit(rt, alloc, recording).expect(rt, "memory");
    is_text(rt, alloc, &verdict, wanted) && is_streamed(rt, alloc, recording, &verdict)
}

/// Returns the recording with some bytes replaced.
pub(crate) fn with(rt: &impl Abort, alloc: Global, at: usize, replaced: &str) -> Vec<u8> {
    let mut recording = bytes(rt, alloc, RECORDING);
    let replaced = bytes(rt, alloc, replaced);
    let places = recording.as_mut_slice().get_mut(at..).expect(rt, "a place");
    assert!(rt; replaced.len() <= places.len());
    for (place, byte) in places.iter_mut().zip(replaced.iter()) {
        *place = *byte;
    }
    recording
}

// A place, the bytes from there on, and the verdict.
static CHANGES: [(usize, &str, &str); 13] = [
    (0, "50", "good maps 3"),
    (0, "504f4e5245433033", "badformat 0"),
    (8, "42", "badformat 8"),
    (21, "01", "good maps 3"),
    (25, "01", "bad port 0 chapter 0 entry 0 Opening"),
    (41, "01", "bad port 0 chapter 0 entry 0 Opening"),
    (75, "01", "bad port 0 chapter 0 entry 1 Bursts"),
    (
        88,
        "01000000000000000000000000000001",
        "bad port 0 chapter 0 entry 1 Certificate",
    ),
    (80, "10020010000c0787", "bad port 0 chapter 0 entry 1 Words"),
    (
        80,
        "10020011000b15a9",
        "bad port 0 chapter 0 entry 1 Bursts",
    ),
    (
        75,
        "01002013ac10020010000c0787",
        "bad port 0 chapter 0 entry 1 Words",
    ),
    (134, "05", "bad port 0 chapter 0 entry 2 Event"),
    (141, "c8", "good maps 3"),
];

#[test]
fn tells_what_is_wrong_with_an_entry(rt: HostRuntime) {
    for (at, replaced, wanted) in CHANGES.iter() {
        let recording = with(&rt, rt.alloc(), *at, replaced);
        assert!(rt; is_told(&rt, rt.alloc(), &recording, wanted), "{at}");
    }
}

#[test]
fn tells_a_cut_recording(rt: HostRuntime) {
    let recording = bytes(&rt, rt.alloc(), RECORDING);
    for (len, wanted) in [
        (292, "good maps 3"),
        (291, "truncated 8"),
        (8, "good maps 0"),
        (7, "truncated 0"),
    ] {
        let beginning = recording.as_slice().get(..len).expect(&rt, "bytes");
        assert!(rt; is_told(&rt, rt.alloc(), beginning, wanted), "{len}");
    }
    assert!(rt; recording.len() == 292);
}

#[test]
fn tells_the_maps_of_a_migrated_recording(rt: HostRuntime) {
    let old = bytes(&rt, rt.alloc(), RECORDING);
    let new = migrate(rt.alloc(), &old).ok().expect(&rt, "a recording");
    assert!(rt; new.len() == 293 && is_told(&rt, rt.alloc(), &new, "good maps 3"));
}

// Adds the chapter of the recording, as one of this port.
fn add_chapter(rt: &impl Abort, alloc: Global, recording: &mut Vec<u8>, port: u8) {
    let mut other = bytes(rt, alloc, RECORDING);
    let chapter = other.as_mut_slice().get_mut(8..).expect(rt, "a chapter");
    *chapter.get_mut(5).expect(rt, "a port") = port;
    recording.extend_from_slice(chapter).expect(rt, "memory");
}

#[test]
fn tells_a_number_that_does_not_rise(rt: HostRuntime) {
    let mut recording = bytes(&rt, rt.alloc(), RECORDING);
    add_chapter(&rt, rt.alloc(), &mut recording, 0);
    assert!(rt;
        is_told(
            &rt,
            rt.alloc(),
            &recording,
            "bad port 0 chapter 0 entry 0 Number"
        )
    );
}

// Adds bytes that are written as hexadecimal digits.
fn add(rt: &impl Abort, alloc: Global, recording: &mut Vec<u8>, text: &str) {
    let more = bytes(rt, alloc, text);
    add_bytes(rt, recording, &more);
}

fn add_bytes(rt: &impl Abort, recording: &mut Vec<u8>, more: &[u8]) {
    recording.extend_from_slice(more).expect(rt, "memory");
}

const OPENING: &str = "00 0000000000000000 0010 00 00 0000000000000000 0000000000000000 0000 00";

const ADMISSION: &str = "01 0005 0400 00000a00 00000000 00000a00 00";

const MAP: &str = "002013ac 10020010000b13cb
    00 0000000000000000 0000000000000000 0000 00 0000000000000000 0000000000000000 0000";

// Makes a recording of one chapter: an Alloc-ID of 2,560 kbit/s and this number of maps.
fn many_maps(rt: &impl Abort, alloc: Global, maps: u16) -> Vec<u8> {
    let mut recording = bytes(rt, alloc, "504f4e5245433031 43");
    let map = bytes(rt, alloc, MAP);
    add_bytes(
        rt,
        &mut recording,
        &(54 + 59 * u32::from(maps)).to_be_bytes(),
    );
    add(rt, alloc, &mut recording, OPENING);
    add_bytes(rt, &mut recording, &(1 + u32::from(maps)).to_be_bytes());
    add(rt, alloc, &mut recording, ADMISSION);
    for frame in 0..maps {
        add_bytes(rt, &mut recording, &[5]);
        add_bytes(rt, &mut recording, &u64::from(frame).to_be_bytes());
        add_bytes(rt, &mut recording, &map);
    }
    recording
}

fn set(rt: &impl Abort, recording: &mut Vec<u8>, at: usize) {
    *recording.get_mut(at).expect(rt, "a place") = 1;
}

// Returns whether this number of maps is judged as good, and as bad with a wrong certificate of entry 2000.
fn judges(rt: &(impl Abort + Threads + Sync), alloc: Global, maps: u16) -> bool {
    let mut recording = many_maps(rt, alloc, maps);
    let good = audit(rt, alloc, &recording).expect(rt, "memory");
    set(rt, &mut recording, 118_029);
    set(rt, &mut recording, 118_045);
    let wanted = Verdict::Good {
        maps: u64::from(maps),
    };
    let bad = audit(rt, alloc, &recording).expect(rt, "memory");
    good == wanted
        && is_text(
            rt,
            alloc,
            &bad,
            "bad port 0 chapter 0 entry 2000 Certificate",
        )
}

// The verdict is the same whatever follows the fault.
#[test]
fn judges_many_maps(rt: HostRuntime) {
    for maps in [2000u16, 2047, 2048, 2049, 65_535] {
        assert!(rt; judges(&rt, rt.alloc(), maps), "{maps}");
    }
}

// One chapter for each of three ports, with a fault in each of the last two.
#[test]
fn judges_the_ports_in_order(rt: HostRuntime) {
    let alloc = rt.alloc();
    let mut recording = bytes(&rt, alloc, RECORDING);
    add_chapter(&rt, alloc, &mut recording, 1);
    add_chapter(&rt, alloc, &mut recording, 2);
    assert!(rt; recording.len() == 860 && is_told(&rt, alloc, &recording, "good maps 9"));
    set(&rt, &mut recording, 75 + 2 * 284);
    assert!(rt;
        is_told(
            &rt,
            alloc,
            &recording,
            "bad port 2 chapter 0 entry 1 Bursts"
        )
    );
    set(&rt, &mut recording, 41 + 284);
    assert!(rt;
        is_told(
            &rt,
            alloc,
            &recording,
            "bad port 1 chapter 0 entry 0 Opening"
        )
    );
}

// Returns the verdict on the recording with one bit flipped, and flips it back.
fn flipped(
    rt: &(impl Abort + Threads + Sync),
    alloc: Global,
    recording: &mut [u8],
    at: usize,
    bit: u8,
) -> Verdict {
    assert!(rt; at < recording.len());
    let byte = recording[at];
    recording[at] = byte ^ bit;
    let verdict = audit(rt, alloc, recording).expect(rt, "memory");
    recording[at] = byte;
    verdict
}

// Returns the verdict on the recording with each of its bits flipped, one at a time.
fn all_flipped(rt: &(impl Abort + Threads + Sync), alloc: Global) -> Vec<Verdict> {
    let mut recording = bytes(rt, alloc, RECORDING);
    let mut verdicts = Vec::new(alloc);
    for at in 0..recording.len() {
        for bit in [1, 2, 4, 8, 16, 32, 64, 128] {
            let verdict = flipped(rt, alloc, recording.as_mut_slice(), at, bit);
            verdicts.push(verdict).expect(rt, "memory");
        }
    }
    verdicts
}

// The kinds of verdicts, with the reason of a bad one.
#[derive(Clone, Copy)]
enum Kind {
    Good,
    BadFormat,
    Truncated,
    Bad(AuditReason),
}

fn is_kind(verdict: &Verdict, kind: Kind) -> bool {
    match (verdict, kind) {
        (Verdict::Good { .. }, Kind::Good) => true,
        (Verdict::BadFormat { .. }, Kind::BadFormat) => true,
        (Verdict::Truncated { .. }, Kind::Truncated) => true,
        (Verdict::Bad { why, .. }, Kind::Bad(wanted)) => *why == wanted,
        _ => false,
    }
}

fn count(verdicts: &[Verdict], kind: Kind) -> usize {
    let mut count = 0usize;
    for verdict in verdicts {
        if is_kind(verdict, kind) {
            count = count.wrapping_add(1);
        }
    }
    count
}

// Of the 2,336 bits, 72 belong to occupancies that no granted word depends on, 6 name another port, 64 name another
// chapter, and 20 raise the maximum rate of an Alloc-ID that shares no surplus: these 162 recordings stay good. 27 make
// the body longer than the bytes, so they are cut. 2 reduce the fixed rate, and then the maps grant too many words.
static FLIPPED: [(&str, Kind, usize); 10] = [
    ("good", Kind::Good, 162),
    ("no recording", Kind::BadFormat, 1567),
    ("cut", Kind::Truncated, 27),
    ("opening", Kind::Bad(AuditReason::Opening), 68),
    ("chain", Kind::Bad(AuditReason::Chain), 0),
    ("number", Kind::Bad(AuditReason::Number), 0),
    ("event", Kind::Bad(AuditReason::Event), 232),
    ("certificate", Kind::Bad(AuditReason::Certificate), 0),
    ("words", Kind::Bad(AuditReason::Words), 2),
    ("bursts", Kind::Bad(AuditReason::Bursts), 278),
];

#[test]
fn judges_each_flipped_bit(rt: HostRuntime) {
    let verdicts = all_flipped(&rt, rt.alloc());
    for (name, kind, wanted) in FLIPPED.iter() {
        assert!(rt; count(&verdicts, *kind) == *wanted, "{name}");
    }
}

// Audits, a second time if memory was refused.
fn audit_again(
    rt: &(impl Abort + Threads + Sync),
    alloc: Global,
    recording: &[u8],
) -> Result<Verdict, AllocError> {
    match audit(rt, alloc, recording) {
        Ok(verdict) => Ok(verdict),
        Err(_) => audit(rt, alloc, recording),
    }
}

// One failed allocation (`rt try --test --fail-alloc N`) is an `Err`, and changes no verdict.
#[test]
fn judges_again_what_memory_refused(rt: HostRuntime) {
    let recording = bytes_again(&rt, rt.alloc(), RECORDING);
    let verdict = audit_again(&rt, rt.alloc(), &recording);
    assert!(rt; verdict == Ok(Verdict::Good { maps: 3 }));
}
