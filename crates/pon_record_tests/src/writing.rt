//! Recordings on devices over memory, with ample memory.

use crate::recordings::{RECORDING_TWO, bytes, bytes_again};
use pon_admit::{Event, Row};
use pon_dbru::Occupancies;
use pon_descr::{Class, Descriptor};
use pon_device::MemWrite;
use pon_port::{Chapter, Port, PortCfg};
use pon_record::{RecordFault, RecordFile, Version, read_recording};
use pon_units::{AllocId, BufOcc, FrameNo, Gap, OnuId, PortNo, Profile};
use std::alloc::Global;
use std::process::Abort;

// Port 63 just opened, under the rule in force, with a gap of 256 words, profile 3 and 7 as its first frame.
const EMPTY_CHAPTER: &str = "
    504f4e5245433032 43 00000025 02 3f 0000000000000000
    0100 03 00 0000000000000007 0000000000000000 0000 00 00000000";

// Place of the rule in the first chapter of a recording of version two.
const RULE: usize = 13;

// Returns the recording with its chapter under the rule in force.
fn in_force(rt: &impl Abort, recording: Vec<u8>) -> Vec<u8> {
    let mut recording = recording;
    *recording.get_mut(RULE).expect(rt, "a rule") = 2;
    recording
}

fn number(rt: &impl Abort, port: u8) -> PortNo {
    PortNo::new(port).expect(rt, "a port")
}

fn cfg(rt: &impl Abort, gap: u16, profile: u8) -> PortCfg {
    PortCfg {
        gap: Gap::new(gap).expect(rt, "a gap"),
        profile: Profile::new(profile).expect(rt, "a profile"),
    }
}

pub(crate) fn open_port(rt: &impl Abort, alloc: Global, gap: u16, profile: u8, first: u64) -> Port {
    Port::open(alloc, cfg(rt, gap, profile), FrameNo::new(first)).expect(rt, "memory")
}

pub(crate) fn admission(rt: &impl Abort) -> Event {
    let descriptor = Descriptor::new(2560, 0, 2560, Class::Plain);
    Event::Admit(Row::new(
        OnuId::new(5).expect(rt, "an ONU-ID"),
        AllocId::new(1024).expect(rt, "an Alloc-ID"),
        descriptor.expect(rt, "a descriptor"),
    ))
}

/// Reports 100 words for the map of a frame.
pub(crate) fn report(rt: &impl Abort, frame: u64) -> Event {
    let mut occ = Occupancies::new();
    occ.push(BufOcc::new(100));
    Event::Report {
        frame: FrameNo::new(frame),
        onu: OnuId::new(5).expect(rt, "an ONU-ID"),
        occ,
    }
}

pub(crate) fn take(rt: &impl Abort, port: &mut Port, event: Event) {
    assert!(rt; port.take(event).is_ok(), "taken");
}

fn chapter_of(rt: &impl Abort, alloc: Global) -> Chapter {
    let mut port = open_port(rt, alloc, 16, 0, 0);
    take(rt, &mut port, admission(rt));
    for frame in 0..3u64 {
        take(rt, &mut port, Event::MakeMap);
        take(rt, &mut port, report(rt, frame));
    }
    port.into_chapter()
}

// Opens a recording on a device that takes at most `most` bytes in a call and fails in one of its calls.
fn failing_at(rt: &impl Abort, alloc: Global, most: usize, call: u64) -> RecordFile<MemWrite> {
    let mut failing = Vec::new(alloc);
    failing.push(call).expect(rt, "memory");
    let device = MemWrite::new(alloc, most.max(1), failing);
    RecordFile::open(alloc, device).expect(rt, "memory")
}

// Opens a recording on a device that takes 64 bytes in a call and fails in one of its calls.
fn failing_in(rt: &impl Abort, alloc: Global, call: u64) -> RecordFile<MemWrite> {
    failing_at(rt, alloc, 64, call)
}

// Opens a recording on a device that does not fail.
fn sound(rt: &impl Abort, alloc: Global) -> RecordFile<MemWrite> {
    failing_in(rt, alloc, 100)
}

pub(crate) fn append(
    rt: &impl Abort,
    file: &mut RecordFile<MemWrite>,
    port: u8,
    chapter: &Chapter,
) -> Result<(), RecordFault> {
    file.append(number(rt, port), chapter)
}

fn is_read_back(alloc: Global, bytes: &[u8]) -> bool {
    match read_recording(alloc, bytes) {
        Ok(recording) => recording.chapters().len() == 1,
        Err(_) => false,
    }
}

// Returns whether a recording of the chapter, of this port, has these bytes.
fn is_written(rt: &impl Abort, alloc: Global, port: u8, chapter: &Chapter, wanted: &[u8]) -> bool {
    let mut file = sound(rt, alloc);
    append(rt, &mut file, port, chapter) == Ok(())
        && file.flush().is_ok()
        && file.writer().bytes() == wanted
        && file.left().is_empty()
        && is_read_back(alloc, file.writer().bytes())
}

#[test]
fn writes_the_chapter_of_a_port(rt: HostRuntime) {
    let wanted = in_force(&rt, bytes(&rt, rt.alloc(), RECORDING_TWO));
    let chapter = chapter_of(&rt, rt.alloc());
    assert!(rt; wanted.len() == 293 && is_written(&rt, rt.alloc(), 0, &chapter, &wanted));
}

#[test]
fn writes_an_empty_chapter(rt: HostRuntime) {
    let wanted = bytes(&rt, rt.alloc(), EMPTY_CHAPTER);
    let chapter = open_port(&rt, rt.alloc(), 256, 3, 7).into_chapter();
    assert!(rt; is_written(&rt, rt.alloc(), 63, &chapter, &wanted));
}

// Appends the chapter, a second time after a flush if bytes were left before.
fn append_after_flush(rt: &impl Abort, file: &mut RecordFile<MemWrite>, chapter: &Chapter) {
    if append(rt, file, 0, chapter) == Err(RecordFault::Busy) {
        assert!(rt; file.flush().is_ok() && append(rt, file, 0, chapter) == Ok(()));
    }
}

// Returns whether a device that fails in this call has all bytes after two flushes.
fn holds_all(
    rt: &impl Abort,
    alloc: Global,
    (most, call): (usize, u64),
    chapter: &Chapter,
    wanted: &[u8],
) -> bool {
    let mut file = failing_at(rt, alloc, most, call);
    append_after_flush(rt, &mut file, chapter);
    let _ = file.flush();
    file.flush().is_ok() && file.writer().bytes() == wanted
}

// Maximum number of bytes of a call, and the number of calls that write a recording of 293 bytes and flush it: for the magic
// bytes, for the chapter and for the flush.
static CALLS: [(usize, u64); 4] = [(1, 294), (5, 60), (64, 7), (4096, 3)];

#[test]
fn holds_all_bytes_after_a_flush(rt: HostRuntime) {
    let wanted = in_force(&rt, bytes(&rt, rt.alloc(), RECORDING_TWO));
    let chapter = chapter_of(&rt, rt.alloc());
    for (most, calls) in CALLS.iter() {
        for call in 0..*calls {
            assert!(rt;
                holds_all(&rt, rt.alloc(), (*most, call), &chapter, &wanted),
                "{most} {call}"
            );
        }
    }
}

// Returns whether a device that fails in its call after the last bytes fails to be flushed, once.
fn fails_to_be_flushed(rt: &impl Abort, alloc: Global, chapter: &Chapter) -> bool {
    let mut file = failing_in(rt, alloc, 6);
    append(rt, &mut file, 0, chapter) == Ok(())
        && file.flush().is_err()
        && file.left().is_empty()
        && file.flush().is_ok()
}

#[test]
fn flushes_the_device(rt: HostRuntime) {
    let chapter = chapter_of(&rt, rt.alloc());
    assert!(rt; fails_to_be_flushed(&rt, rt.alloc(), &chapter));
}

// Returns whether a recording whose first bytes are left is busy, and is left as it is.
fn is_busy_from_the_start(rt: &impl Abort, alloc: Global, chapter: &Chapter) -> bool {
    let mut file = failing_in(rt, alloc, 0);
    let magic = Version::Two.magic();
    file.left() == magic.as_slice()
        && append(rt, &mut file, 0, chapter) == Err(RecordFault::Busy)
        && file.left() == magic.as_slice()
}

// Returns whether a device that fails within the chapter leaves the rest of its bytes.
fn is_busy_after_a_failure(rt: &impl Abort, alloc: Global, chapter: &Chapter) -> bool {
    let mut file = failing_in(rt, alloc, 2);
    append(rt, &mut file, 0, chapter) == Err(RecordFault::Device)
        && file.left().len() == 221
        && append(rt, &mut file, 0, chapter) == Err(RecordFault::Busy)
}

#[test]
fn is_busy_while_something_is_left(rt: HostRuntime) {
    let chapter = chapter_of(&rt, rt.alloc());
    assert!(rt; is_busy_from_the_start(&rt, rt.alloc(), &chapter));
    assert!(rt; is_busy_after_a_failure(&rt, rt.alloc(), &chapter));
}

// Opens a port, a second time if memory was refused.
fn open_again(rt: &impl Abort, alloc: Global) -> Port {
    match Port::open(alloc, cfg(rt, 16, 0), FrameNo::new(0)) {
        Ok(port) => port,
        Err(_) => open_port(rt, alloc, 16, 0, 0),
    }
}

// Takes an event, a second time if memory was refused.
fn take_again(rt: &impl Abort, port: &mut Port, event: Event) {
    let again = event.copy();
    if port.take(event).is_err() {
        take(rt, port, again);
    }
}

fn chapter_again(rt: &impl Abort, alloc: Global) -> Chapter {
    let mut port = open_again(rt, alloc);
    take_again(rt, &mut port, admission(rt));
    for frame in 0..3u64 {
        take_again(rt, &mut port, Event::MakeMap);
        take_again(rt, &mut port, report(rt, frame));
    }
    port.into_chapter()
}

fn open_file(alloc: Global) -> Option<RecordFile<MemWrite>> {
    RecordFile::open(alloc, MemWrite::new(alloc, 64, Vec::new(alloc))).ok()
}

// Opens a recording, a second time if memory was refused.
fn file_again(rt: &impl Abort, alloc: Global) -> RecordFile<MemWrite> {
    match open_file(alloc) {
        Some(file) => file,
        None => open_file(alloc).expect(rt, "memory"),
    }
}

fn flush(rt: &impl Abort, file: &mut RecordFile<MemWrite>) {
    assert!(rt; file.flush().is_ok(), "flushed");
}

// Appends the chapter, a second time if memory was refused. Flushes bytes that are left before or after.
fn append_again(rt: &impl Abort, file: &mut RecordFile<MemWrite>, chapter: &Chapter) {
    if !file.left().is_empty() {
        flush(rt, file);
    }
    match append(rt, file, 0, chapter) {
        Ok(()) => {}
        Err(RecordFault::Memory) => assert!(rt; append(rt, file, 0, chapter) == Ok(())),
        Err(_) => flush(rt, file),
    }
}

// If one allocation fails (`rt try --test --fail-alloc N`), the recording has the same bytes.
#[test]
fn appends_again_what_memory_refused(rt: HostRuntime) {
    let wanted = in_force(&rt, bytes_again(&rt, rt.alloc(), RECORDING_TWO));
    let chapter = chapter_again(&rt, rt.alloc());
    let mut file = file_again(&rt, rt.alloc());
    append_again(&rt, &mut file, &chapter);
    assert!(rt; file.writer().bytes() == wanted.as_slice());
}
