ghost use Rattle.std.specs.Prelude.{◌<◌};

use super::{NEVER, device};
use pon_bwmap::{Alloc, Map};
use pon_device::MemRead;
use pon_link::{DownFault, DownReader, DownRecord, DownWriter, LinkFault, PullFault, Pulled};
use pon_units::FrameNo;
use std::alloc::Global;

// The record of frame 0 and a map that grants 11 words to Alloc-ID 1024.
const BYTES: &[u8; 21] = b"\x44\0\0\0\0\0\0\0\0\x00\x20\x13\xac\x10\x02\x00\x10\x00\x0b\x13\xcb";

// Returns the bytes with one of them changed.
fn changed(at: usize, byte: u8) -> [u8; 21] {
    let mut bytes = *BYTES;
    if at < 21 {
        bytes[at] = byte;
    }
    bytes
}

// Returns whether this is the record of the bytes.
fn is_the_record(record: &DownRecord) -> bool {
    let row = Alloc::polled(1024, Some(16), 11, 0);
    record.frame == FrameNo::new(0) && record.map.rows() == [row].as_slice()
}

// Returns whether the reader gives the record of the bytes.
fn gives_the_record(reader: &mut DownReader) -> bool {
    match reader.next() {
        Ok(Some(record)) => is_the_record(&record),
        _ => false,
    }
}

fn gives_nothing(reader: &mut DownReader) -> bool {
    matches!(reader.next(), Ok(None))
}

// Returns the reader's fault, if it returns no record.
fn fault_of(reader: &mut DownReader) -> Option<DownFault> {
    reader.next().err()
}

// Feeds a record in two pieces, and returns whether it is given once, and only when it is whole.
fn reads_two_pieces(alloc: Global, first: &[u8], second: &[u8]) -> bool {
    let mut reader = DownReader::new(alloc);
    let begun = reader.feed(first) == first.len();
    let waits = second.is_empty() || gives_nothing(&mut reader);
    let whole = reader.feed(second) == second.len();
    let full = reader.feed(BYTES) == 0;
    let given = gives_the_record(&mut reader) && gives_nothing(&mut reader);
    begun && waits && whole && full && given
}

#[test]
fn reads_a_record_in_every_cut(rt: HostRuntime) {
    let bytes = BYTES.as_slice();
    for cut in 0..22 {
        let read = reads_two_pieces(rt.alloc(), &bytes[..cut], &bytes[cut..]);
        assert!(rt; read, "{cut}");
    }
}

// Returns whether the reader returns the fault three times, from both calls, and takes no more bytes.
fn keeps(reader: &mut DownReader, device: &mut MemRead, fault: LinkFault) -> bool {
    let mut kept = true;
    for _ in 0..3 {
        let told = fault_of(reader) == Some(DownFault::Link(fault));
        let pulled = reader.pull(device) == Err(PullFault::Link(fault));
        let fed = reader.feed(BYTES) == 0;
        kept = kept && told && pulled && fed;
    }
    kept
}

// Feeds the bytes to a reader, and returns the number of bytes taken if it then keeps to the fault.
fn taken_up_to(alloc: Global, bytes: &[u8], fault: LinkFault) -> Option<usize> {
    let mut device = device(alloc, BYTES, 4096, NEVER)?;
    let mut reader = DownReader::new(alloc);
    let taken = reader.feed(bytes);
    if keeps(&mut reader, &mut device, fault) {
        Some(taken)
    } else {
        None
    }
}

#[test]
fn keeps_a_fault(rt: HostRuntime) {
    for (at, byte, taken, fault) in [
        (0, 0x55, 1, LinkFault::BadTag),
        (12, 0x53, 13, LinkFault::BadMap),
        (20, 0xcc, 21, LinkFault::BadMap),
    ] {
        let told = taken_up_to(rt.alloc(), &changed(at, byte), fault);
        assert!(rt; told == Some(taken), "byte {at}: {told:?}");
    }
    let messages = b"\x44\0\0\0\0\0\0\0\0\x00\x00\x2a\x73";
    let told = taken_up_to(rt.alloc(), messages, LinkFault::BadMap);
    assert!(rt; told == Some(13), "announced messages: {told:?}");
}

// Pulls a record with a wrong last byte, and returns whether the pull after it returns the fault.
fn pulls_a_wrong_map(alloc: Global) -> Option<bool> {
    let mut device = device(alloc, &changed(20, 0xcc), 4096, NEVER)?;
    let mut reader = DownReader::new(alloc);
    let head = reader.pull(&mut device) == Ok(Pulled::Bytes(13));
    let rest = reader.pull(&mut device) == Ok(Pulled::Bytes(8));
    let bad = Err(PullFault::Link(LinkFault::BadMap));
    let first = reader.pull(&mut device) == bad;
    let told = fault_of(&mut reader) == Some(DownFault::Link(LinkFault::BadMap));
    let second = reader.pull(&mut device) == bad;
    Some(head && rest && first && told && second)
}

#[test]
fn tells_a_refused_map_at_the_pull_after_its_last_byte(rt: HostRuntime) {
    assert!(rt; pulls_a_wrong_map(rt.alloc()) == Some(true));
}

// Returns whether a reader gives the record, if memory is refused once after the next call.
fn gives_it_again(alloc: Global) -> bool {
    let mut reader = DownReader::new(alloc);
    let fed = reader.feed(BYTES) == 21;
    let given = match reader.next() {
        Ok(Some(record)) => is_the_record(&record),
        Ok(None) => false,
        Err(fault) => {
            let kept = fault == DownFault::Memory && reader.feed(BYTES) == 0;
            kept && gives_the_record(&mut reader)
        }
    };
    fed && given
}

// One failed allocation (`rt try --test --fail-alloc N`) leaves the record in the reader, and the next call returns it.
#[test]
fn keeps_a_record_where_memory_is_refused(rt: HostRuntime) {
    assert!(rt; gives_it_again(rt.alloc()));
}

// Pulls until the record is whole, and again if the device fails; returns the number of failures.
fn pull_record(reader: &mut DownReader, device: &mut MemRead) -> Option<usize> {
    let mut failures = 0usize;
    for _ in 0..50 {
        match reader.pull(device) {
            Ok(Pulled::Bytes(0)) => break,
            Ok(_) => {}
            Err(PullFault::Device) => failures = failures.saturating_add(1),
            Err(_) => return None,
        }
    }
    Some(failures)
}

// Pulls a record from a device with a failure, and returns the number of failures if the record is given.
fn failures_before_a_record(alloc: Global, most: usize, failing: u64) -> Option<usize>
    requires { 0 < most }
{
    let mut device = device(alloc, BYTES, most, failing)?;
    let mut reader = DownReader::new(alloc);
    let failures = pull_record(&mut reader, &mut device);
    if gives_the_record(&mut reader) {
        failures
    } else {
        None
    }
}

#[test]
fn pulls_again_after_a_failure(rt: HostRuntime) {
    for (most, calls) in [(1usize, 21), (5, 5), (4096, 2)] {
        for failing in 0..23u64 {
            let failures = failures_before_a_record(rt.alloc(), most.max(1), failing);
            let wanted = if failing < calls { 1 } else { 0 };
            assert!(rt;
                failures == Some(wanted),
                "in pieces of {most}, call {failing}"
            );
        }
    }
}

// Pulls a beginning of the record whole, and returns whether two more pulls end so.
fn pulls_up_to(
    alloc: Global,
    bytes: &[u8],
    pulls: u32,
    end: Result<Pulled, PullFault>,
) -> Option<bool> {
    let mut device = device(alloc, bytes, 4096, NEVER)?;
    let mut reader = DownReader::new(alloc);
    let mut pulled = true;
    for _ in 0..pulls {
        pulled = reader.pull(&mut device).is_ok() && pulled;
    }
    let first = reader.pull(&mut device) == end;
    let second = reader.pull(&mut device) == end;
    Some(pulled && first && second)
}

#[test]
fn tells_where_the_input_ended(rt: HostRuntime) {
    let truncated = Err(PullFault::Link(LinkFault::Truncated { left: 20 }));
    for (size, pulls, end) in [(0, 0, Ok(Pulled::End)), (20, 2, truncated)] {
        let ended = pulls_up_to(rt.alloc(), &BYTES[..size], pulls, end);
        assert!(rt; ended == Some(true), "{size}");
    }
}

// Makes a map of `count` structures, each a burst of its own.
fn long_map(alloc: Global, count: usize) -> Option<Map> {
    let rows = vec![in alloc; Alloc::polled(1024, Some(16), 11, 3); count].ok()?;
    Map::from_rows(rows).ok()
}

// Writes a map and reads it, and returns the size of the record if the same map is read.
fn size_read_back(alloc: Global, count: usize) -> Option<usize> {
    let map = long_map(alloc, count)?;
    let last = FrameNo::new(u64::MAX);
    let mut writer = DownWriter::new();
    let put = writer.put(last, &map) == Ok(());
    let mut reader = DownReader::new(alloc);
    let size = reader.feed(writer.left());
    match reader.next() {
        Ok(Some(record)) if put && record.frame == last && record.map == map => Some(size),
        _ => None,
    }
}

#[test]
fn reads_what_a_writer_wrote(rt: HostRuntime) {
    for (count, size) in [(0, 13), (1, 21), (512, 4109)] {
        let read = size_read_back(rt.alloc(), count);
        assert!(rt; read == Some(size), "{count}: {read:?}");
    }
}
