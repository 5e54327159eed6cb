//! Recordings of version one that are read.

use crate::recordings::{bytes, bytes_again};
use pon_admit::Event;
use pon_bwmap::Alloc;
use pon_cert::Level;
use pon_descr::{Cause, Class};
use pon_record::{Opening, RawChapter, RawMap, ReadFault, Recording, read_recording};
use pon_state::{EntryRef, MadeMap};
use pon_units::{BufOcc, Frac};
use std::alloc::Global;
use std::process::Abort;

// Port 0 with a gap of 16 words: an Alloc-ID of 2,560 kbit/s, three maps of one structure each, a report for each.
const THREE_MAPS: &str = "
    504f4e5245433031 43 00000117 00 0000000000000000
    0010 00 00 0000000000000000 0000000000000000 0000 00 00000007
    01 0001 0400 00000a00 00000000 00000a00 00
    05 0000000000000000 002013ac 10020010000b13cb
    00 0000000000000000 0000000000000000 0000 00 0000000000000000 0000000000000000 0000
    04 0000000000000000 0001 01 00000064
    05 0000000000000001 002013ac 10020010000b13cb
    00 0000000000000000 0000000000000000 0000 00 0000000000000000 0000000000000000 0000
    04 0000000000000001 0001 01 00000064
    05 0000000000000002 002013ac 10020010000b13cb
    00 0000000000000000 0000000000000000 0000 00 0000000000000000 0000000000000000 0000
    04 0000000000000002 0001 01 00000064";

// Port 63, failed by cause 9, with two rows, a map in its window, and all seven events, with a map and certificate.
pub(crate) const ALL_FIELDS: &str = "
    504f4e5245433031 43 0000010b 3f 0000000000000005
    0100 03 09 0000000000000007 000000000000000b 0002
    0001 0400 00000a00 00000000 00001400 02 0000000000000005 01 0000000000000006 0000005a
    0002 0401 00000000 00000100 00000200 01 0000000000000007 00 0000000000000000 00000000
    01 0000000000000006 0002 0001 0400 000a 0002 0401 25f8 01 0001 00000007
    01 0003 0402 00000000 00000000 00000100 02
    02 0402 00000100 00000100 00000300 01
    03 0402
    04 0000000000000006 0002 02 ffffffff 00ffffff
    05 0000000000000007 00400d2b 10020010000b6d5d 1005ffffffffe2a2
    01 000000000000000f 0000000000000002 0002 0100 00 0000000000000000 0000000000000000 0001 01
    06 09
    07";

/// What a reader answers: the number of chapters or of bytes, or the fault.
#[derive(Clone, Copy, Debug, PartialEq, Eq)]
pub(crate) enum Verdict {
    Whole(usize),
    Cut(usize, usize),
    Bad(usize),
    OutOfMemory,
}

/// Returns the verdict of a fault, with the number of whole chapters before a cut.
pub(crate) fn verdict_of(fault: ReadFault) -> Verdict {
    match fault {
        ReadFault::Truncated { at, whole } => Verdict::Cut(at, whole.chapters().len()),
        ReadFault::BadFormat { at } => Verdict::Bad(at),
        ReadFault::Memory => Verdict::OutOfMemory,
    }
}

/// Returns the verdict on bytes, with the number of chapters if they are a recording.
pub(crate) fn told(alloc: Global, bytes: &[u8]) -> Verdict {
    match read_recording(alloc, bytes) {
        Ok(recording) => Verdict::Whole(recording.chapters().len()),
        Err(fault) => verdict_of(fault),
    }
}

/// Returns the verdict on the bytes with the byte at `at` changed.
pub(crate) fn changed(
    rt: &impl Abort,
    bytes: &mut [u8],
    alloc: Global,
    at: usize,
    byte: u8,
) -> Verdict {
    assert!(rt; at < bytes.len());
    let before = bytes[at];
    bytes[at] = byte;
    let verdict = told(alloc, bytes);
    bytes[at] = before;
    verdict
}

/// Reads a recording from hexadecimal digits.
pub(crate) fn recording(rt: &impl Abort, alloc: Global, text: &str) -> Recording {
    read_recording(alloc, &bytes(rt, alloc, text))
        .ok()
        .expect(rt, "a recording")
}

/// Returns the only chapter.
pub(crate) fn chapter<'a>(rt: &impl Abort, recording: &'a Recording) -> &'a RawChapter {
    match recording.chapters() {
        [chapter] => chapter,
        _ => panic!(rt; "one chapter"),
    }
}

// Returns the map of an entry.
fn map(chapter: &RawChapter, index: usize) -> Option<&MadeMap> {
    match chapter.entries.as_slice().get(index)?.as_ref() {
        EntryRef::Map(made) => Some(made),
        EntryRef::Taken(_) => None,
    }
}

fn has_event(chapter: &RawChapter, index: usize, event: &Event) -> bool {
    match chapter.entries.as_slice().get(index) {
        None => false,
        Some(entry) => entry.event() == *event,
    }
}

fn is_first_chapter(chapter: &RawChapter) -> bool {
    chapter.at == 8
        && chapter.port.get() == 0
        && chapter.number == 0
        && chapter.opening.gap.get() == 16
        && chapter.entries.len() == 7
        && has_event(chapter, 1, &Event::MakeMap)
}

fn is_second_map(made: &MadeMap) -> bool {
    let rows = [Alloc::polled(1024, Some(16), 11, 0)];
    made.frame.get() == 1 && made.map.rows() == rows.as_slice() && made.cert.na.level == Level::All
}

#[test]
fn reads_the_chapter_of_a_port(rt: HostRuntime) {
    assert!(rt; bytes(&rt, rt.alloc(), THREE_MAPS).len() == 292);
    let recording = recording(&rt, rt.alloc(), THREE_MAPS);
    let chapter = chapter(&rt, &recording);
    let made = map(chapter, 3).expect(&rt, "a map");
    assert!(rt; is_first_chapter(chapter) && is_second_map(made));
}

// Returns the verdict on the first `end` bytes.
fn cut(rt: &impl Abort, alloc: Global, bytes: &[u8], end: usize) -> Verdict {
    told(alloc, bytes.get(..end).expect(rt, "bytes"))
}

#[test]
fn tells_where_it_is_cut(rt: HostRuntime) {
    let bytes = bytes(&rt, rt.alloc(), THREE_MAPS);
    for end in 0..bytes.len() {
        let wanted = match end {
            0..=7 => Verdict::Cut(0, 0),
            8 => Verdict::Whole(0),
            _ => Verdict::Cut(8, 0),
        };
        assert!(rt; cut(&rt, rt.alloc(), &bytes, end) == wanted, "{end}");
    }
}

#[test]
fn tells_other_magic_bytes(rt: HostRuntime) {
    let mut bytes = bytes(&rt, rt.alloc(), THREE_MAPS);
    for at in 0..8 {
        let verdict = changed(&rt, bytes.as_mut_slice(), rt.alloc(), at, 0);
        assert!(rt; verdict == Verdict::Bad(0), "{at}");
    }
}

/// Returns the recording of three maps with its chapter a second time.
pub(crate) fn twice(rt: &impl Abort, alloc: Global) -> Vec<u8> {
    let once = bytes(rt, alloc, THREE_MAPS);
    let mut bytes = bytes(rt, alloc, THREE_MAPS);
    let chapter = once.as_slice().get(8..).expect(rt, "a chapter");
    bytes.extend_from_slice(chapter).expect(rt, "memory");
    bytes
}

#[test]
fn tells_the_fault_of_the_first_chapter(rt: HostRuntime) {
    let alloc = rt.alloc();
    let mut bytes = twice(&rt, alloc);
    let whole = told(alloc, &bytes);
    let tag = changed(&rt, bytes.as_mut_slice(), alloc, 292, 0);
    bytes.truncate(575);
    let cut = told(alloc, &bytes);
    let both = changed(&rt, bytes.as_mut_slice(), alloc, 49, 9);
    assert!(rt; whole == Verdict::Whole(2) && tag == Verdict::Bad(292));
    assert!(rt; cut == Verdict::Cut(292, 1) && both == Verdict::Bad(8));
}

fn has_numbers(opening: &Opening) -> bool {
    opening.gap.get() == 256
        && opening.profile.get() == 3
        && opening.cause.map(Cause::get) == Some(9)
        && opening.next.get() == 7
        && opening.taken_before == 11
}

fn has_two_rows(opening: &Opening) -> bool {
    match opening.rows.as_slice() {
        [first, second] => {
            first.descriptor.class() == Class::BestEffort
                && first.counted.map(|c| c.words.get()) == Some(90)
                && second.counted.is_none()
        }
        _ => false,
    }
}

fn is_kept_map(map: &RawMap) -> bool {
    match map.grants.as_slice() {
        [_, second] => second.words.get() == 9720 && map.reported.len() == 1,
        _ => false,
    }
}

fn has_one_kept_map(opening: &Opening) -> bool {
    match opening.window.as_slice() {
        [map] => is_kept_map(map),
        _ => false,
    }
}

#[test]
fn reads_each_field(rt: HostRuntime) {
    let recording = recording(&rt, rt.alloc(), ALL_FIELDS);
    let chapter = chapter(&rt, &recording);
    let opening = &chapter.opening;
    assert!(rt; chapter.port.get() == 63 && chapter.number == 5 && has_numbers(opening));
    assert!(rt; has_two_rows(opening) && has_one_kept_map(opening));
}

fn has_report(chapter: &RawChapter) -> bool {
    let wanted = [None, BufOcc::new(16_777_215)];
    match chapter.entries.as_slice() {
        [_, _, _, entry, ..] => match entry.as_ref() {
            EntryRef::Taken(Event::Report { frame, onu, occ }) => {
                frame.get() == 6 && onu.get() == 2 && occ.as_slice() == wanted.as_slice()
            }
            _ => false,
        },
        _ => false,
    }
}

fn has_two_structures(made: &MadeMap) -> bool {
    match made.map.rows() {
        [_, second] => second.grant() == 65_535,
        _ => false,
    }
}

fn has_level(made: &MadeMap) -> bool {
    made.cert.na.level == Level::At(Frac::new(15, 2))
        && made.cert.na.saturated.as_slice() == [true, false].as_slice()
}

#[test]
fn reads_each_event(rt: HostRuntime) {
    let recording = recording(&rt, rt.alloc(), ALL_FIELDS);
    let chapter = chapter(&rt, &recording);
    assert!(rt; chapter.entries.len() == 7 && has_report(chapter));
    let made = map(chapter, 4).expect(&rt, "a map");
    assert!(rt; has_two_structures(made) && has_level(made));
    assert!(rt; has_event(chapter, 6, &Event::Restore));
}

// Place and new value of a byte of `ALL_FIELDS`, and the verdict.
static CHANGES: [(usize, u8, Verdict); 33] = [
    (8, 0x42, Verdict::Bad(8)),
    (9, 1, Verdict::Cut(8, 0)),
    (12, 0x0c, Verdict::Cut(8, 0)),
    (12, 0x0a, Verdict::Bad(8)),
    (13, 64, Verdict::Bad(8)),
    (22, 2, Verdict::Bad(8)),
    (24, 4, Verdict::Bad(8)),
    (25, 10, Verdict::Bad(8)),
    (42, 1, Verdict::Bad(8)),
    (44, 4, Verdict::Bad(8)),
    (46, 0x40, Verdict::Bad(8)),
    (46, 3, Verdict::Bad(8)),
    (58, 9, Verdict::Bad(8)),
    (60, 1, Verdict::Whole(1)),
    (60, 3, Verdict::Bad(8)),
    (69, 0, Verdict::Bad(8)),
    (69, 2, Verdict::Bad(8)),
    (78, 1, Verdict::Bad(8)),
    (107, 1, Verdict::Whole(1)),
    (116, 1, Verdict::Bad(8)),
    (120, 65, Verdict::Bad(8)),
    (129, 1, Verdict::Bad(8)),
    (141, 0x26, Verdict::Bad(8)),
    (146, 1, Verdict::Bad(8)),
    (150, 8, Verdict::Bad(8)),
    (198, 0, Verdict::Bad(8)),
    (198, 17, Verdict::Bad(8)),
    (199, 1, Verdict::Bad(8)),
    (219, 0x2a, Verdict::Bad(8)),
    (227, 0x5c, Verdict::Bad(8)),
    (236, 2, Verdict::Bad(8)),
    (278, 0, Verdict::Bad(8)),
    (278, 10, Verdict::Bad(8)),
];

#[test]
fn tells_each_field_out_of_its_range(rt: HostRuntime) {
    let mut bytes = bytes(&rt, rt.alloc(), ALL_FIELDS);
    for (at, byte, wanted) in CHANGES.iter() {
        let verdict = changed(&rt, bytes.as_mut_slice(), rt.alloc(), *at, *byte);
        assert!(rt; verdict == *wanted, "{at} {byte}");
    }
}

// If one allocation fails (`rt try --test --fail-alloc N`), the fault is `Memory`, and no result of a reading changes.
#[test]
fn reads_again_what_memory_refused(rt: HostRuntime) {
    let bytes = bytes_again(&rt, rt.alloc(), ALL_FIELDS);
    let mut verdict = told(rt.alloc(), &bytes);
    if verdict == Verdict::OutOfMemory {
        verdict = told(rt.alloc(), &bytes);
    }
    assert!(rt; verdict == Verdict::Whole(1));
}
