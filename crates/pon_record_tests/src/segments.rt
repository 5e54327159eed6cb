//! Recordings that go on in the next device, over memory.

ghost use Rattle.std.specs.Prelude.{◌≤◌, Some};
ghost use Rattle.std.specs.Vec.{vec_len};
ghost use Rattle.pon_recorder.specs.Rings.{AreRingsOf};

use crate::audit::is_told;
use crate::batches::{CHAPTERS, Recorded, of_chapters, record, run};
use crate::writing::{admission, open_port, take};
use pon_device::{DevWrite, DeviceFault, Failed, MemWrite};
use pon_port::Port;
use pon_record::MAGIC_BYTES;
use pon_recorder::{
    ChapterWatch, Ended, Held, NextDevice, PortRing, Recorder, Recording, Rings, Sinks, open_rings,
};
use pon_units::{MAX_PORTS, PortNo};
use std::alloc::Global;
use std::cell::Cell;
use std::io;
use std::marker::Brand;
use std::process::Abort;
use std::sync::Wait;
use std::sync::atomic::{AtomicBool, Ordering};
use std::thread::Threads;
use std::time::{Clock, Duration};

// Bytes that a device takes in a call, fewer than a chapter has.
const PIECE: usize = 512;

// The numbers of the ports, and of the chapters of both.
const PORTS: usize = 2;

const ALL: usize = PORTS * CHAPTERS;

/// What is to come of the next device that is wanted.
#[derive(Drop)]
enum Next {
    /// None can be made.
    None,
    /// It fails in the calls with these numbers.
    Fails(Vec<u64>),
}

/// The devices after the first one, the last one first, and the bytes of those that have ended. After the last one each
/// device is sound.
#[derive(Drop)]
struct Shelf<'a, R> {
    rt: &'a R,
    alloc: Global,
    next: Cell<Vec<Next>>,
    ended: Cell<Vec<Vec<u8>>>,
}

impl<R: Wait> Wait for Shelf<'_, R> {}

impl<R: Clock> Clock for Shelf<'_, R> {
    fn monotonic(&self) -> io::Result<Duration> {
        self.rt.monotonic()
    }

    fn since_1970(&self) -> io::Result<Duration> {
        self.rt.since_1970()
    }
}

impl<R: Abort> Shelf<'_, R> {
    // Takes what is to come of the next device.
    fn take_next(&self) -> Next {
        let mut next = self.next.replace(Vec::new(self.alloc));
        let first = next.pop();
        self.next.set(next);
        first.unwrap_or(Next::Fails(Vec::new(self.alloc)))
    }

    // Keeps the whole chapters of a device that has ended, if it has any.
    fn keep(&self, device: &MemWrite, held: Held) {
        if held.chapters == 0 {
            return;
        }
        let bytes = device.bytes().get(..held.bytes as usize);
        let bytes = bytes.expect(self.rt, "whole chapters");
        let bytes = Vec::from_slice(self.alloc, bytes).expect(self.rt, "memory");
        let mut ended = self.ended.replace(Vec::new(self.alloc));
        ended.push(bytes).expect(self.rt, "memory");
        self.ended.set(ended);
    }
}

/// A device that is followed by another one after a number of maps of one port, if there is one.
#[derive(Drop)]
struct Segment {
    device: MemWrite,
    maps: Option<u64>,
}

impl DevWrite for Segment {
    ghost failures = { λ s. s.device.failures };

    ghost contents = { λ s. Some s.device.taken };

    fn write(&mut self, buf: &[u8]) -> Result<usize, Failed> {
        self.device.write(buf)
    }

    fn flush(&mut self) -> Result<(), Failed> {
        self.device.flush()
    }
}

impl<R: Abort> NextDevice<Shelf<'_, R>> for Segment {
    ghost most = { λ s. s.maps };

    fn most_maps(&self) -> Option<u64> {
        self.maps
    }

    fn open_next(&self, rt: &Shelf<'_, R>, alloc: Global, _held: Held) -> Option<Segment> {
        match rt.take_next() {
            Next::None => None,
            Next::Fails(failing) => Some(Segment {
                device: MemWrite::new(alloc, PIECE, failing),
                maps: self.maps,
            }),
        }
    }

    fn close(
        self,
        rt: &Shelf<'_, R>,
        _alloc: Global,
        held: Held,
        recorded: Result<(), DeviceFault>,
    ) -> Result<(), DeviceFault> {
        rt.keep(&self.device, held);
        recorded
    }
}

/// Stops the recorder at each chapter.
#[derive(Drop)]
struct OneChapter {
    stop: AtomicBool,
}

impl ChapterWatch for OneChapter {
    fn took(&self, _port: PortNo, _dropped: u64) {
        self.stop.store(true, Ordering::SeqCst);
    }

    fn is_over(&self) -> bool {
        self.stop.load(Ordering::SeqCst)
    }
}

/// What a recording in segments gave: the whole chapters of each device, the number of each port's dropped chapters, and
/// how it ended.
#[derive(Drop)]
struct Given {
    segments: Vec<Vec<u8>>,
    dropped: [u64; PORTS],
    result: Result<(), DeviceFault>,
}

// Opens the ports of the recording that is recorded in one piece.
fn open_ports(rt: &impl Abort, alloc: Global) -> [Port; PORTS] {
    let mut one = open_port(rt, alloc, 16, 0, 0);
    let mut other = open_port(rt, alloc, 32, 1, 7);
    take(rt, &mut one, admission(rt));
    take(rt, &mut other, admission(rt));
    [one, other]
}

// Records the next chapter of a port.
fn record_next<R: Abort + Wait + Clock, K: Rings>(
    shelf: &Shelf<'_, R>,
    sinks: &mut Sinks<K, Segment>,
    place: usize,
    port: &mut Port,
    recording: Recording<K, Segment>,
) -> Recording<K, Segment> {
    run(shelf.rt, port);
    let chapter = port.turn().expect(shelf.rt, "memory");
    let sink = sinks.sinks.get_mut(place).expect(shelf.rt, "a sink");
    sink.sink.pass(chapter);
    let watch = OneChapter {
        stop: AtomicBool::new(false),
    };
    recording.run(shelf.rt, shelf, &watch)
}

// Records the chapters of two ports by turns. Returns the numbers of the dropped ones, and how the recording ended.
fn record_all<R: Abort + Wait + Clock, K: Rings>(
    shelf: &Shelf<'_, R>,
    rings: Vec<PortRing>,
    recorder: Recorder<Segment>,
) -> ([u64; PORTS], Ended<Segment>)
    requires few { vec_len rings ≤ MAX_PORTS }
    requires named { AreRingsOf K.ring rings.items }
{
    let (rt, alloc) = (shelf.rt, shelf.alloc);
    let split = Sinks::<K, Segment>::split(alloc, rings, Some(recorder), false);
    let mut sinks = split.expect(rt, "memory");
    let mut recording = sinks.recording.take().expect(rt, "a recording");
    let mut ports = open_ports(rt, alloc);
    for _chapter in 0..CHAPTERS {
        for (place, port) in ports.iter_mut().enumerate() {
            recording = record_next(shelf, &mut sinks, place, port, recording);
        }
    }
    let mut dropped = [0; PORTS];
    let kept = Vec::from_array(alloc, ports).expect(rt, "memory");
    let ended = recording.finish(kept, &mut dropped);
    (dropped, ended)
}

// Records the chapters of two ports by turns, in devices that fail so.
fn record_segments<R: Abort + Wait + Clock>(
    rt: &R,
    alloc: Global,
    maps: Option<u64>,
    failing: Vec<u64>,
    next: Vec<Next>,
) -> Given {
    let shelf = Shelf {
        rt,
        alloc,
        next: Cell::new(next),
        ended: Cell::new(Vec::new(alloc)),
    };
    let device = MemWrite::new(alloc, PIECE, failing);
    let recorder = Recorder::begin(alloc, Segment { device, maps }).expect(rt, "a recorder");
    let recorder = Some(recorder);
    let rings = open_rings(alloc, PORTS, &recorder).expect(rt, "memory");
    let recorder = recorder.expect(rt, "a recorder");
    let (dropped, ended) = record_all::<R, Brand>(&shelf, rings, recorder);
    shelf.keep(&ended.device.device, ended.held);
    Given {
        segments: shelf.ended.replace(Vec::new(alloc)),
        dropped,
        result: ended.result,
    }
}

// Returns the segments as one recording.
fn joined(rt: &impl Abort, alloc: Global, segments: &[Vec<u8>]) -> Vec<u8> {
    let mut bytes = Vec::new(alloc);
    for segment in segments {
        let from = if bytes.is_empty() { 0 } else { MAGIC_BYTES };
        let rest = segment.as_slice().get(from..).expect(rt, "magic bytes");
        bytes.extend_from_slice(rest).expect(rt, "memory");
    }
    bytes
}

// Returns whether the segments are one recording of these ranges of the chapters, and then of the chapters that the ports
// keep, and the verdict on it is this text.
fn are_chapters(
    rt: &(impl Abort + Threads + Sync),
    alloc: Global,
    given: &Given,
    recorded: &Recorded,
    ranges: &[(usize, usize)],
    wanted: &str,
) -> bool {
    let joined = joined(rt, alloc, given.segments.as_slice());
    let chapters = of_chapters(rt, alloc, recorded, ranges);
    joined.as_slice().starts_with(chapters.as_slice()) && is_told(rt, alloc, &joined, wanted)
}

// The maps of one port after which a segment ends: those of two chapters. Then it has three chapters of both ports.
const MAPS: u64 = 60;

const IN_SEGMENT: usize = 3;

#[test]
fn joins_to_the_recording_in_one_piece(rt: HostRuntime) {
    let alloc = rt.alloc();
    let recorded = record(&rt, alloc);
    let given = record_segments(&rt, alloc, Some(MAPS), Vec::new(alloc), Vec::new(alloc));
    assert!(rt; given.result == Ok(()) && given.dropped == [0, 0]);
    assert!(rt; given.segments.len() == ALL.div_ceil(IN_SEGMENT));
    for (number, segment) in given.segments.iter().enumerate() {
        let first = number * IN_SEGMENT;
        let range = (first, (first + IN_SEGMENT).min(ALL));
        let chapters = of_chapters(&rt, alloc, &recorded, &[range]);
        assert!(rt;
            segment.as_slice().starts_with(chapters.as_slice()),
            "{number}"
        );
        let last = first + IN_SEGMENT > ALL;
        assert!(rt; last || segment.len() == chapters.len(), "{number}");
    }
    assert!(rt; are_chapters(&rt, alloc, &given, &recorded, &[(0, ALL)], "good maps 2100"));
}

// Returns the number of calls for the bytes of these chapters, each of which is written by itself.
fn calls_of(rt: &impl Abort, alloc: Global, recorded: &Recorded, chapters: usize) -> u64 {
    let mut calls: u64 = 0;
    for chapter in 0..chapters {
        let bytes = of_chapters(rt, alloc, recorded, &[(chapter, chapter + 1)]);
        let body = bytes.len().saturating_sub(MAGIC_BYTES);
        calls = calls.saturating_add(body.div_ceil(PIECE) as u64);
    }
    calls
}

// Returns the calls in which a device fails three times in a row, in the chapter after these, behind its first bytes.
fn failing_after(rt: &impl Abort, alloc: Global, recorded: &Recorded, chapters: usize) -> Vec<u64> {
    let before = calls_of(rt, alloc, recorded, chapters);
    let failing = [2, 3, 4].map(|call: u64| before.saturating_add(call));
    Vec::from_slice(alloc, &failing).expect(rt, "memory")
}

// Records in devices of which the first fails in chapter 4, and these are to come, the last one first.
fn record_after_failure<R: Abort + Wait + Clock>(
    rt: &R,
    alloc: Global,
    recorded: &Recorded,
    next: &[&[u64]],
) -> Given {
    let failing = failing_after(rt, alloc, recorded, 4);
    let mut coming = Vec::new(alloc);
    for failing in next {
        let failing = Vec::from_slice(alloc, failing).expect(rt, "memory");
        let device = if failing.is_empty() {
            Next::None
        } else {
            Next::Fails(failing)
        };
        coming.push(device).expect(rt, "memory");
    }
    record_segments(rt, alloc, None, failing, coming)
}

// The calls that fail in each of the devices to come, the last one first; none for a device that cannot be made. Then the
// first chapter that is recorded again, the numbers of the dropped ones, and the verdict.
static FAILURES: [(&[&[u64]], usize, [u64; PORTS], &str); 5] = [
    (&[], 5, [1, 0], "good maps 2070"),
    (&[&[], &[]], 7, [2, 1], "good maps 2010"),
    (&[&[0]], 6, [1, 1], "good maps 2040"),
    (&[&[1, 2, 3]], 6, [1, 1], "good maps 2040"),
    (&[&[], &[2, 3, 4], &[0], &[]], 9, [3, 2], "good maps 1950"),
];

#[test]
fn loses_the_chapters_of_the_failed_time_alone(rt: HostRuntime) {
    let alloc = rt.alloc();
    let recorded = record(&rt, alloc);
    for (next, again, dropped, wanted) in FAILURES.iter() {
        let given = record_after_failure(&rt, alloc, &recorded, next);
        assert!(rt;
            given.result == Err(DeviceFault::Write) && given.dropped == *dropped,
            "{again}"
        );
        assert!(rt; given.segments.len() == 2, "{again}");
        let ranges = [(0, 4), (*again, ALL)];
        assert!(rt;
            are_chapters(&rt, alloc, &given, &recorded, &ranges, wanted),
            "{again}"
        );
    }
}
