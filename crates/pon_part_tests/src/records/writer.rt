ghost use Rattle.std.specs.Prelude.{◌<◌};

use pon_bwmap::{Alloc, Map};
use pon_device::MemWrite;
use pon_link::{Busy, Device, DownWriter};
use pon_units::FrameNo;
use std::alloc::Global;

// The record of frame 0 and a map that grants 11 words to Alloc-ID 1024.
const BYTES: &[u8; 21] = b"\x44\0\0\0\0\0\0\0\0\x00\x20\x13\xac\x10\x02\x00\x10\x00\x0b\x13\xcb";

fn map(alloc: Global) -> Option<Map> {
    let rows = vec![in alloc; Alloc::polled(1024, Some(16), 11, 0)].ok()?;
    Map::from_rows(rows).ok()
}

// Makes a device that takes at most `most` bytes in a call, and fails in the call `failing`; `None` if memory is refused.
fn device(alloc: Global, most: usize, failing: u64) -> Option<MemWrite>
    requires { 0 < most }
{
    let failures = vec![in alloc; failing].ok()?;
    Some(MemWrite::new(alloc, most, failures))
}

// Puts the record into the writer.
fn put_record(alloc: Global, writer: &mut DownWriter) -> bool {
    match map(alloc) {
        Some(map) => writer.put(FrameNo::new(0), &map) == Ok(()),
        None => false,
    }
}

// Puts the next record into the writer, and returns whether the writer is busy.
fn is_busy(alloc: Global, writer: &mut DownWriter) -> bool {
    match map(alloc) {
        Some(map) => writer.put(FrameNo::new(1), &map) == Err(Busy),
        None => false,
    }
}

// Pushes the writer's bytes to a device that fails in the second call, and returns whether those after the first piece
// are left.
fn fails_after_five(alloc: Global, writer: &mut DownWriter) -> Option<bool> {
    let mut device = device(alloc, 5, 1)?;
    let failed = writer.push(&mut device) == Err(Device);
    let bytes = BYTES.as_slice();
    Some(failed && writer.left() == &bytes[5..])
}

// Pushes the writer's bytes to a device that never fails, and returns whether it has those after the first piece.
fn pushes_the_rest(alloc: Global, writer: &mut DownWriter) -> bool {
    let mut other = MemWrite::new(alloc, 5, Vec::new(alloc));
    let pushed = writer.push(&mut other) == Ok(());
    let bytes = BYTES.as_slice();
    pushed && other.bytes() == &bytes[5..] && writer.left().is_empty()
}

#[test]
fn writes_what_is_left_after_a_failure(rt: HostRuntime) {
    let mut writer = DownWriter::new();
    assert!(rt; put_record(rt.alloc(), &mut writer));
    assert!(rt; fails_after_five(rt.alloc(), &mut writer) == Some(true));
    assert!(rt; is_busy(rt.alloc(), &mut writer));
    assert!(rt; pushes_the_rest(rt.alloc(), &mut writer));
}

// Pushes the record to a device with a failure, and returns whether the first push failed, if the second writes the rest.
fn first_push_fails(alloc: Global, most: usize, failing: u64) -> Option<bool>
    requires { 0 < most }
{
    let mut device = device(alloc, most, failing)?;
    let mut writer = DownWriter::new();
    let put = put_record(alloc, &mut writer);
    let failed = writer.push(&mut device).is_err();
    let pushed = writer.push(&mut device) == Ok(());
    if put && pushed && device.bytes() == BYTES.as_slice() {
        Some(failed)
    } else {
        None
    }
}

#[test]
fn pushes_again_after_each_failure(rt: HostRuntime) {
    for (most, calls) in [(1usize, 21), (5, 5), (4096, 1)] {
        for failing in 0..23u64 {
            let failed = first_push_fails(rt.alloc(), most.max(1), failing);
            let wanted = Some(failing < calls);
            assert!(rt; failed == wanted, "in pieces of {most}, call {failing}");
        }
    }
}
