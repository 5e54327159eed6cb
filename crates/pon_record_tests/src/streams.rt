//! Verdicts on recordings that a reader gives in pieces, and on readers that fail.

use crate::audit::with;
use crate::recordings::{RECORDING, bytes};
use pon_audit::{Verdict, audit_from};
use pon_device::{DeviceFault, MemRead};
use std::alloc::Global;
use std::process::Abort;
use std::thread::Threads;

// A number of a call that no reader makes.
const NO_CALL: u64 = u64::MAX;

// Audits a recording that a reader gives, at most `most` bytes a call; the call `failing` fails.
fn streamed(
    rt: &(impl Abort + Threads + Sync),
    alloc: Global,
    recording: &[u8],
    most: usize,
    failing: u64,
) -> Result<Verdict, DeviceFault> {
    let bytes = Vec::from_slice(alloc, recording).expect(rt, "memory");
    let failing = vec![in alloc; failing; 1].expect(rt, "memory");
    let mut reader = MemRead::new(bytes, most.max(1), failing);
    audit_from(rt, alloc, &mut reader)
}

// Maximum numbers of bytes of a call.
static PIECES: [usize; 3] = [1, 5, 4096];

/// Returns whether the verdict on the bytes in pieces of several sizes is this one.
pub(crate) fn is_streamed(
    rt: &(impl Abort + Threads + Sync),
    alloc: Global,
    recording: &[u8],
    wanted: &Verdict,
) -> bool {
    for most in PIECES.iter() {
        if streamed(rt, alloc, recording, *most, NO_CALL) != Ok(*wanted) {
            return false;
        }
    }
    true
}

// Sizes of pieces, and the number of calls up to the end of the recording: for the magic bytes, for the head, for the body of
// 279 bytes and for the end.
static CALLS: [(usize, u64); 3] = [(1, 293), (5, 60), (4096, 4)];

// Returns whether each of the calls, if it fails, is a failed read, and the call after them is not made.
fn fails_in_each(
    rt: &(impl Abort + Threads + Sync),
    alloc: Global,
    most: usize,
    calls: u64,
) -> bool {
    let recording = bytes(rt, alloc, RECORDING);
    for call in 0..calls {
        if streamed(rt, alloc, &recording, most, call) != Err(DeviceFault::Read) {
            return false;
        }
    }
    streamed(rt, alloc, &recording, most, calls) == Ok(Verdict::Good { maps: 3 })
}

#[test]
fn takes_no_failed_read_for_the_end(rt: HostRuntime) {
    for (most, calls) in CALLS.iter() {
        assert!(rt; fails_in_each(&rt, rt.alloc(), *most, *calls), "{most}");
    }
}

// A place, the byte there, the verdict, and the number of calls of 4,096 bytes that it takes.
static WRONG: [(usize, &str, usize, u64); 2] = [(0, "51", 0, 1), (8, "42", 8, 2)];

#[test]
fn reads_no_further_than_wrong_bytes(rt: HostRuntime) {
    for (at, byte, wanted, calls) in WRONG.iter() {
        let recording = with(&rt, rt.alloc(), *at, byte);
        let verdict = streamed(&rt, rt.alloc(), &recording, 4096, *calls);
        assert!(rt; verdict == Ok(Verdict::BadFormat { at: *wanted }), "{at}");
    }
}
