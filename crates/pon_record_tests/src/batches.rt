//! Verdicts on a recording of many chapters, which are audited in many threads, batch by batch.

use crate::audit::is_told;
use crate::writing::{admission, append, open_port, report, take};
use pon_admit::Event;
use pon_device::MemWrite;
use pon_port::Port;
use pon_record::{MAGIC_BYTES, RecordFile};
use std::alloc::Global;
use std::process::Abort;
use std::thread::Threads;

// Chapters of each of two ports, and maps of each chapter: more chapters than a batch has, and maps enough for many threads.
pub(crate) const CHAPTERS: usize = 35;

const MAPS: usize = 30;

// Bytes that the device takes in a call.
const PIECE: usize = 4096;

/// A recording, and the place of each of its chapters.
#[derive(Drop)]
pub(crate) struct Recorded {
    bytes: Vec<u8>,
    places: Vec<usize>,
}

/// Takes the maps of a chapter at a port, each with a report.
pub(crate) fn run(rt: &impl Abort, port: &mut Port) {
    for _map in 0..MAPS {
        let frame = port.state().next_frame().get();
        take(rt, port, Event::MakeMap);
        take(rt, port, report(rt, frame));
    }
}

// Appends the next chapter of a port, and its place.
fn record_next(
    rt: &impl Abort,
    file: &mut RecordFile<MemWrite>,
    places: &mut Vec<usize>,
    number: u8,
    port: &mut Port,
) {
    run(rt, port);
    let chapter = port.turn().expect(rt, "memory");
    let place = file.writer().bytes().len();
    places.push(place).expect(rt, "memory");
    assert!(rt; append(rt, file, number, &chapter) == Ok(()), "written");
}

/// Records the chapters of two ports by turns.
pub(crate) fn record(rt: &impl Abort, alloc: Global) -> Recorded {
    let mut one = open_port(rt, alloc, 16, 0, 0);
    let mut other = open_port(rt, alloc, 32, 1, 7);
    take(rt, &mut one, admission(rt));
    take(rt, &mut other, admission(rt));
    let device = MemWrite::new(alloc, PIECE, Vec::new(alloc));
    let mut file = RecordFile::open(alloc, device).expect(rt, "memory");
    let mut places = Vec::new(alloc);
    for _chapter in 0..CHAPTERS {
        record_next(rt, &mut file, &mut places, 0, &mut one);
        record_next(rt, &mut file, &mut places, 1, &mut other);
    }
    let bytes = Vec::from_slice(alloc, file.writer().bytes()).expect(rt, "memory");
    Recorded { bytes, places }
}

// Returns the place of a chapter; after the last one, the end of the recording.
fn place_of(recorded: &Recorded, chapter: usize) -> usize {
    match recorded.places.get(chapter) {
        Some(place) => *place,
        None => recorded.bytes.len(),
    }
}

// Returns the bytes from the place of a chapter on up to the place of another.
fn between<'a>(rt: &impl Abort, recorded: &'a Recorded, chapter: usize, end: usize) -> &'a [u8] {
    let (start, end) = (place_of(recorded, chapter), place_of(recorded, end));
    recorded.bytes.get(start..end).expect(rt, "bytes")
}

/// Returns the recording with these ranges of its chapters, one after another.
pub(crate) fn of_chapters(
    rt: &impl Abort,
    alloc: Global,
    recorded: &Recorded,
    ranges: &[(usize, usize)],
) -> Vec<u8> {
    let magic = recorded.bytes.get(..MAGIC_BYTES).expect(rt, "magic bytes");
    let mut bytes = Vec::from_slice(alloc, magic).expect(rt, "memory");
    for (start, end) in ranges {
        let part = between(rt, recorded, *start, *end);
        bytes.extend_from_slice(part).expect(rt, "memory");
    }
    bytes
}

// Ranges of the 70 chapters, and the verdict on a recording of them: all; all but one of the second batch; two of the second
// batch in another order; one of the second batch twice.
static RANGES: [(&[(usize, usize)], &str); 4] = [
    (&[(0, 70)], "good maps 2100"),
    (&[(0, 66), (67, 70)], "good maps 2070"),
    (
        &[(0, 64), (66, 67), (65, 66), (64, 65), (67, 70)],
        "bad port 0 chapter 32 entry 0 Number",
    ),
    (&[(0, 67), (66, 70)], "bad port 0 chapter 33 entry 0 Number"),
];

#[test]
fn judges_chapters_in_batches(rt: HostRuntime) {
    let alloc = rt.alloc();
    let recorded = record(&rt, alloc);
    for (ranges, wanted) in RANGES.iter() {
        let recording = of_chapters(&rt, alloc, &recorded, ranges);
        assert!(rt; is_told(&rt, alloc, &recording, wanted), "{wanted}");
    }
}

// Returns whether the verdict on the recording with one byte of a chapter changed is this text.
fn is_told_changed(
    rt: &(impl Abort + Threads + Sync),
    alloc: Global,
    recorded: &Recorded,
    place: (usize, usize),
    wanted: &str,
) -> bool {
    let (chapter, byte) = place;
    let mut recording = Vec::from_slice(alloc, &recorded.bytes).expect(rt, "memory");
    let start = *recorded.places.get(chapter).expect(rt, "a chapter");
    let rest = recording
        .as_mut_slice()
        .get_mut(start..)
        .expect(rt, "bytes");
    *rest.get_mut(byte).expect(rt, "a byte") ^= 1;
    is_told(rt, alloc, &recording, wanted)
}

// Places in a chapter: the last bytes of the number of entries before it, of the first row's since-frame, and of the words of
// its report.
const TAKEN_BEFORE: usize = 34;

const SINCE: usize = 61;

const WORDS: usize = 74;

// A chapter, the place of a byte of it that is changed, and the verdict: in the first batch, at its end, and in the second.
static CHANGES: [((usize, usize), &str); 4] = [
    ((2, WORDS), "bad port 0 chapter 1 entry 0 Chain"),
    ((63, TAKEN_BEFORE), "bad port 1 chapter 31 entry 0 Chain"),
    ((64, SINCE), "bad port 0 chapter 32 entry 0 Chain"),
    ((69, WORDS), "bad port 1 chapter 34 entry 0 Chain"),
];

#[test]
fn tells_a_broken_chain_in_a_batch(rt: HostRuntime) {
    let alloc = rt.alloc();
    let recorded = record(&rt, alloc);
    for (place, wanted) in CHANGES.iter() {
        assert!(rt;
            is_told_changed(&rt, alloc, &recorded, *place, wanted),
            "{wanted}"
        );
    }
}
