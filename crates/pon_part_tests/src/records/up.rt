ghost use Rattle.std.specs.Prelude.{◌<◌};

use super::{NEVER, device};
use pon_dbru::Occupancies;
use pon_device::MemRead;
use pon_link::{LinkFault, PullFault, Pulled, UpReader, UpRecord, encode_up};
use pon_units::{BufOcc, FrameNo};
use pon_xgtc::BurstHead;
use std::alloc::Global;

const BYTES: &[u8; 18] = b"\x55\0\0\0\0\0\0\0\0\x01\x40\x13\xf1\x01\0\0\x64\x3b";

// Makes a record of frame 0 with this burst header and this occupancy.
fn record(head: Option<BurstHead>, words: Option<BufOcc>) -> UpRecord {
    let mut occ = Occupancies::new();
    occ.push(words);
    UpRecord {
        frame: FrameNo::new(0),
        head,
        occ,
    }
}

// Makes the record of the bytes: ONU 5 reports 100 words.
fn onu_five() -> UpRecord {
    record(BurstHead::new(5, 0), BufOcc::new(100))
}

// Returns the bytes with one of them changed.
fn changed(at: usize, byte: u8) -> [u8; 18] {
    let mut bytes = *BYTES;
    if at < 18 {
        bytes[at] = byte;
    }
    bytes
}

fn gives(reader: &mut UpReader, record: &UpRecord) -> bool {
    match reader.next() {
        Ok(Some(given)) => given == *record,
        _ => false,
    }
}

fn gives_nothing(reader: &mut UpReader) -> bool {
    matches!(reader.next(), Ok(None))
}

// Feeds a record in two pieces, and returns whether it is given once, and only when it is whole.
fn reads_two_pieces(first: &[u8], second: &[u8]) -> bool {
    let mut reader = UpReader::new();
    let begun = reader.feed(first) == first.len();
    let waits = second.is_empty() || gives_nothing(&mut reader);
    let whole = reader.feed(second) == second.len();
    let full = reader.feed(BYTES) == 0;
    let given = gives(&mut reader, &onu_five()) && gives_nothing(&mut reader);
    begun && waits && whole && full && given
}

#[test]
fn reads_a_record_in_every_cut(rt: HostRuntime) {
    let bytes = BYTES.as_slice();
    for cut in 0..19 {
        assert!(rt; reads_two_pieces(&bytes[..cut], &bytes[cut..]), "{cut}");
    }
}

#[test]
fn writes_the_bytes(rt: HostRuntime) {
    let head = BurstHead::new(5, 0);
    let words = BufOcc::new(100);
    assert!(rt; head.is_some() && words.is_some());
    let mut occ = Occupancies::new();
    occ.push(words);
    let frame = FrameNo::new(0);
    let burst = UpRecord { frame, head, occ };
    assert!(rt; encode_up(&burst).as_slice() == BYTES.as_slice());
}

// Returns the reader's fault, if it returns no record.
fn fault_of(reader: &mut UpReader) -> Option<LinkFault> {
    reader.next().err()
}

// Feeds the bytes to a reader, and returns the number of bytes taken if it then returns the fault three times and
// takes no more bytes.
fn taken_up_to(bytes: &[u8], fault: LinkFault) -> Option<usize> {
    let mut reader = UpReader::new();
    let taken = reader.feed(bytes);
    let mut kept = true;
    for _ in 0..3 {
        let told = fault_of(&mut reader) == Some(fault);
        kept = reader.feed(BYTES) == 0 && kept && told;
    }
    if kept { Some(taken) } else { None }
}

#[test]
fn keeps_a_fault(rt: HostRuntime) {
    for (at, byte, fault) in [
        (0, 0x54, LinkFault::BadTag),
        (13, 0x00, LinkFault::BadCount),
        (13, 0x11, LinkFault::BadCount),
    ] {
        let told = taken_up_to(&changed(at, byte), fault);
        assert!(rt; told == Some(at + 1), "byte {at}, {byte}: {told:?}");
    }
}

// Returns whether the bytes are taken and read as the record.
fn reads(bytes: &[u8], record: &UpRecord) -> bool {
    let mut reader = UpReader::new();
    reader.feed(bytes) == bytes.len() && gives(&mut reader, record)
}

#[test]
fn gives_none_for_what_is_garbled(rt: HostRuntime) {
    for (at, byte, head, words) in [
        (12, 0xf6, None, BufOcc::new(100)),
        (12, 0xf0, BurstHead::new(5, 0), BufOcc::new(100)),
        (17, 0x3a, BurstHead::new(5, 0), None),
    ] {
        let read = reads(&changed(at, byte), &record(head, words));
        assert!(rt; read, "byte {at}, {byte}");
    }
}

// Pulls until the record is whole, and again if the device fails; returns the number of failures.
fn pull_record(reader: &mut UpReader, device: &mut MemRead) -> Option<usize> {
    let mut failures = 0usize;
    for _ in 0..40 {
        match reader.pull(device) {
            Ok(Pulled::Bytes(0)) => break,
            Ok(_) => {}
            Err(PullFault::Device) => failures = failures.saturating_add(1),
            Err(_) => return None,
        }
    }
    Some(failures)
}

// Pulls a record from a device with a failure, and returns the number of failures if the record is given.
fn failures_before_a_record(alloc: Global, most: usize, failing: u64) -> Option<usize>
    requires { 0 < most }
{
    let mut device = device(alloc, BYTES, most, failing)?;
    let mut reader = UpReader::new();
    let failures = pull_record(&mut reader, &mut device);
    if gives(&mut reader, &onu_five()) {
        failures
    } else {
        None
    }
}

#[test]
fn pulls_again_after_a_failure(rt: HostRuntime) {
    for (most, calls) in [(1usize, 18), (5, 4), (4096, 2)] {
        for failing in 0..20u64 {
            let failures = failures_before_a_record(rt.alloc(), most.max(1), failing);
            let wanted = if failing < calls { 1 } else { 0 };
            assert!(rt;
                failures == Some(wanted),
                "in pieces of {most}, call {failing}"
            );
        }
    }
}

// Pulls a beginning of the record whole, and returns whether two more pulls end so.
fn pulls_up_to(
    alloc: Global,
    bytes: &[u8],
    pulls: u32,
    end: Result<Pulled, PullFault>,
) -> Option<bool> {
    let mut device = device(alloc, bytes, 4096, NEVER)?;
    let mut reader = UpReader::new();
    let mut pulled = true;
    for _ in 0..pulls {
        pulled = reader.pull(&mut device).is_ok() && pulled;
    }
    let first = reader.pull(&mut device) == end;
    let second = reader.pull(&mut device) == end;
    Some(pulled && first && second)
}

#[test]
fn tells_where_the_input_ended(rt: HostRuntime) {
    let truncated = Err(PullFault::Link(LinkFault::Truncated { left: 17 }));
    for (size, pulls, end) in [(0, 0, Ok(Pulled::End)), (17, 2, truncated)] {
        let ended = pulls_up_to(rt.alloc(), &BYTES[..size], pulls, end);
        assert!(rt; ended == Some(true), "{size}");
    }
}
