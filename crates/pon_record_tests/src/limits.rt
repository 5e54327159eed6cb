//! Recordings at the limits of the product: a chapter of as many entries as a port keeps, and several chapters of each of as
//! many ports as there may be.

use crate::audit::is_told;
use crate::writing::{admission, append, open_port, take};
use pon_admit::Event;
use pon_descr::Cause;
use pon_device::MemWrite;
use pon_port::{Chapter, Port};
use pon_record::{RecordFile, read_recording};
use std::alloc::Global;
use std::process::Abort;

// Entries that a port keeps.
const ENTRIES: usize = 65_536;

const PORTS: u8 = 64;

// Chapters of each port.
const CHAPTERS: usize = 5;

fn open_file(rt: &impl Abort, alloc: Global) -> RecordFile<MemWrite> {
    let device = MemWrite::new(alloc, 65_536, Vec::new(alloc));
    RecordFile::open(alloc, device).expect(rt, "memory")
}

// Makes a chapter of as many entries as a port keeps: failures and restorations by turns.
fn full_chapter(rt: &impl Abort, alloc: Global) -> Chapter {
    let mut port = open_port(rt, alloc, 16, 0, 0);
    let cause = Cause::new(9).expect(rt, "a cause");
    for _pair in 0..ENTRIES / 2 {
        take(rt, &mut port, Event::Fail { cause });
        take(rt, &mut port, Event::Restore);
    }
    port.into_chapter()
}

// Returns the number of entries of the first chapter that is read.
fn entries_read(alloc: Global, bytes: &[u8]) -> Option<usize> {
    let recording = read_recording(alloc, bytes).ok()?;
    let chapter = recording.chapters().first()?;
    Some(chapter.entries.len())
}

#[test]
fn records_a_full_chapter(rt: HostRuntime) {
    let alloc = rt.alloc();
    let chapter = full_chapter(&rt, alloc);
    let mut file = open_file(&rt, alloc);
    assert!(rt; append(&rt, &mut file, 63, &chapter) == Ok(()), "appended");
    let bytes = file.writer().bytes();
    assert!(rt; entries_read(alloc, bytes) == Some(ENTRIES), "read");
    assert!(rt; is_told(&rt, alloc, bytes, "good maps 0"), "judged");
}

// Appends a chapter as one of each port.
fn append_at_each_port(rt: &impl Abort, file: &mut RecordFile<MemWrite>, chapter: &Chapter) {
    for number in 0..PORTS {
        assert!(rt; append(rt, file, number, chapter) == Ok(()), "{number}");
    }
}

// Takes this number of maps, and turns the port.
fn chapter_with(rt: &impl Abort, port: &mut Port, maps: usize) -> Chapter {
    for _map in 0..maps {
        take(rt, port, Event::MakeMap);
    }
    port.turn().expect(rt, "memory")
}

// Records chapters of each port, each with this number of maps.
fn record(rt: &impl Abort, alloc: Global, maps: usize) -> RecordFile<MemWrite> {
    let mut port = open_port(rt, alloc, 16, 0, 0);
    take(rt, &mut port, admission(rt));
    let mut file = open_file(rt, alloc);
    for _chapter in 0..CHAPTERS {
        let chapter = chapter_with(rt, &mut port, maps);
        append_at_each_port(rt, &mut file, &chapter);
    }
    file
}

// The maps of a chapter, and the verdict on all 320: too few maps for many threads, and enough.
static RECORDINGS: [(usize, &str); 2] = [(1, "good maps 320"), (7, "good maps 2240")];

#[test]
fn judges_320_chapters_of_64_ports(rt: HostRuntime) {
    for (maps, wanted) in RECORDINGS.iter() {
        let file = record(&rt, rt.alloc(), *maps);
        let bytes = file.writer().bytes();
        assert!(rt; is_told(&rt, rt.alloc(), bytes, wanted), "{wanted}");
    }
}
