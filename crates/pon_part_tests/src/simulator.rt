// Simulated units that answer the maps of a device: the answers, and what is written up to each failure.
use arrayvec::ArrayVec;
use pon_bwmap::{Alloc, Map};
use pon_device::{MemRead, MemWrite};
use pon_link::{DownWriter, LinkFault, Unit, UnitsFault, serve_units};
use pon_units::{AllocId, FrameNo, OnuId};
use std::alloc::Global;

// The answers in frame 0: ONU 5 reports 100 and 7 words, no unit reports for a series of two, ONU 6 reports 50 words.
const FIRST: &[u8; 62] = b"\
    \x55\0\0\0\0\0\0\0\0\x01\x40\x13\xf1\x02\0\0\x64\x3b\0\0\x07\x15\
    \x55\0\0\0\0\0\0\0\0\xff\xc0\x1f\x16\x02\0\0\0\0\0\0\0\0\
    \x55\0\0\0\0\0\0\0\0\x01\x80\x04\x8f\x01\0\0\x32\x9e";

// The answers in frame 1: 10, 4 and 2 words less.
const SECOND: &[u8; 62] = b"\
    \x55\0\0\0\0\0\0\0\x01\x01\x40\x13\xf1\x02\0\0\x5a\x81\0\0\x03\x09\
    \x55\0\0\0\0\0\0\0\x01\xff\xc0\x1f\x16\x02\0\0\0\0\0\0\0\0\
    \x55\0\0\0\0\0\0\0\x01\x01\x80\x04\x8f\x01\0\0\x30\x90";

// The answers in frame 0 if there are no units.
const NOBODYS: &[u8; 62] = b"\
    \x55\0\0\0\0\0\0\0\0\xff\xc0\x1f\x16\x02\0\0\0\0\0\0\0\0\
    \x55\0\0\0\0\0\0\0\0\xff\xc0\x1f\x16\x02\0\0\0\0\0\0\0\0\
    \x55\0\0\0\0\0\0\0\0\xff\xc0\x1f\x16\x01\0\0\0\0";

// Returns ONU 5 with 100 words for Alloc-ID 1024 and 7 for 1025, and ONU 6 with 50 words for Alloc-ID 1026.
fn two_units() -> Option<[Unit; 2]> {
    let mut first = ArrayVec::new();
    first.push((AllocId::new(1024)?, 100));
    first.push((AllocId::new(1025)?, 7));
    let mut second = ArrayVec::new();
    second.push((AllocId::new(1026)?, 50));
    Some([
        Unit::open(OnuId::new(5)?, first),
        Unit::open(OnuId::new(6)?, second),
    ])
}

// Makes a map of a series of ONU 5, one of no unit and one of ONU 6.
fn map(alloc: Global) -> Option<Map> {
    let rows = [
        Alloc::polled(1024, Some(16), 11, 0),
        Alloc::polled(1025, None, 5, 0),
        Alloc::polled(1030, Some(100), 5, 0),
        Alloc::polled(1024, None, 9, 0),
        Alloc::polled(1026, Some(200), 3, 0),
    ];
    Map::from_rows(Vec::from_slice(alloc, &rows).ok()?).ok()
}

// Returns the records of two frames with this map, of 53 bytes each; `None` if memory is refused.
fn two_records(alloc: Global) -> Option<Vec<u8>> {
    let map = map(alloc)?;
    let mut bytes = Vec::new(alloc);
    for frame in 0..2 {
        let mut down = DownWriter::new();
        down.put(FrameNo::new(frame), &map).ok()?;
        bytes.extend_from_slice(down.left()).ok()?;
    }
    Some(bytes)
}

// What the units read: the first bytes of two records, with the byte at `RECORD` in place of the second tag.
#[derive(Clone, Copy)]
struct Input {
    size: usize,
    tag: u8,
}

// Size of a record.
const RECORD: usize = 53;

// The two records.
const BOTH: Input = Input {
    size: 106,
    tag: 0x44,
};

// Returns the bytes of an input.
fn bytes_of(alloc: Global, input: Input) -> Option<Vec<u8>> {
    let mut bytes = two_records(alloc)?;
    if bytes.len() != BOTH.size {
        return None;
    }
    *bytes.get_mut(RECORD)? = input.tag;
    bytes.truncate(input.size);
    Some(bytes)
}

// Returns whether the bytes begin the answers in frames 0 and 1.
fn is_beginning(bytes: &[u8]) -> bool {
    match bytes.get(62..) {
        None => FIRST.starts_with(bytes),
        Some(rest) => bytes.starts_with(FIRST) && SECOND.starts_with(rest),
    }
}

// How a run ended, and the number of the bytes that it wrote if they begin the answers.
type Ended = (Result<(), UnitsFault>, Option<usize>);

// Runs the units on the bytes, over devices that fail in the calls `read` and `write`; 99 means none.
fn run(
    alloc: Global,
    units: &mut [Unit],
    bytes: Vec<u8>,
    read: u64,
    write: u64,
) -> Option<(Result<(), UnitsFault>, MemWrite)> {
    let mut reader = MemRead::new(bytes, 4096, vec![in alloc; read].ok()?);
    let mut writer = MemWrite::new(alloc, 4096, vec![in alloc; write].ok()?);
    let end = serve_units(alloc, units, &mut reader, &mut writer);
    Some((end, writer))
}

// Runs two units on an input; `None` if memory is refused to the test itself.
fn two_answer(alloc: Global, input: Input, read: u64, write: u64) -> Option<Ended> {
    let mut units = two_units()?;
    let (end, writer) = run(alloc, &mut units, bytes_of(alloc, input)?, read, write)?;
    let written = writer.bytes();
    if is_beginning(written) {
        Some((end, Some(written.len())))
    } else {
        Some((end, None))
    }
}

// Each map takes three writes, a flush and two reads; one more read finds the end.
#[test]
fn answers_each_series_up_to_a_failed_device(rt: HostRuntime) {
    let device = Err(UnitsFault::Device);
    for (read, write, end, size) in [
        (99, 99, Ok(()), 124),
        (0, 99, device, 0),
        (3, 99, device, 62),
        (4, 99, device, 124),
        (5, 99, Ok(()), 124),
        (99, 0, device, 0),
        (99, 1, device, 22),
        (99, 3, device, 62),
        (99, 4, device, 62),
        (99, 7, device, 124),
        (99, 8, Ok(()), 124),
    ] {
        let ended = two_answer(rt.alloc(), BOTH, read, write);
        assert!(rt;
            ended == Some((end, Some(size))),
            "{read} {write}: {ended:?}"
        );
    }
}

#[test]
fn tells_what_is_no_map(rt: HostRuntime) {
    for (size, tag, fault) in [
        (RECORD + 1, 0x44, LinkFault::Truncated { left: 1 }),
        (RECORD + 20, 0x44, LinkFault::Truncated { left: 20 }),
        (RECORD + 52, 0x44, LinkFault::Truncated { left: 52 }),
        (BOTH.size, 0x55, LinkFault::BadTag),
    ] {
        let ended = two_answer(rt.alloc(), Input { size, tag }, 99, 99);
        let wanted = (Err(UnitsFault::Link(fault)), Some(62));
        assert!(rt; ended == Some(wanted), "{size} bytes, tag {tag}: {ended:?}");
    }
}

// Returns whether the answers to the first record are those of no units.
fn nobody_answers(alloc: Global) -> Option<bool> {
    let input = Input {
        size: RECORD,
        tag: 0x44,
    };
    let bytes = bytes_of(alloc, input)?;
    let mut units = Vec::new(alloc);
    let (end, writer) = run(alloc, units.as_mut_slice(), bytes, 99, 99)?;
    Some(end == Ok(()) && writer.bytes() == NOBODYS.as_slice())
}

#[test]
fn answers_for_no_unit(rt: HostRuntime) {
    assert!(rt; nobody_answers(rt.alloc()) == Some(true));
}

// Returns whether a run with refused memory may end so: with the fault of the map or of the device, and a beginning of
// the answers.
fn may_end(ended: Ended) -> bool {
    match ended {
        (Ok(()), size) => size == Some(124),
        (Err(UnitsFault::Memory), size) => size == Some(0) || size == Some(62),
        (Err(fault), size) => fault == UnitsFault::Device && size.is_some(),
    }
}

// One failed allocation (`rt try --test --fail-alloc N`) leaves a beginning of the answers.
#[test]
fn stops_where_memory_is_refused(rt: HostRuntime) {
    if let Some(ended) = two_answer(rt.alloc(), BOTH, 99, 99) {
        assert!(rt; may_end(ended), "{ended:?}");
    }
}
