//! Lines whose devices fail, at each call in turn, in pieces of several lengths.

use crate::plan::{Answered, Devices, ends_with, run};
use pon_device::DeviceFault;
use std::alloc::Global;

const LINES: &[u8] = b"0 admit 5 1024 2560 0 2560 none\n0 map\n0 cert\n";

const TEXT: &[u8] = b"ok 0\nmap 0 002013ac10020010000b13cb\ncert 0 na all - be all -\n";

/// Maximum number of bytes of a call, the number of calls that read the lines and their end, and of those that write the
/// text and flush it.
static CALLS: [(usize, u64, u64); 3] = [(1, 46, 62), (5, 10, 14), (4_096, 2, 2)];

// Runs the lines over devices of which one call fails, a read or a write.
fn run_failing(alloc: Global, most: usize, reads: &[u64], writes: &[u64]) -> Option<Answered> {
    let devices = Devices {
        most: most.max(1),
        reads,
        writes,
    };
    run(alloc, 16, LINES, devices)
}

// Returns the bytes that were read or written before a call.
fn bytes_before(most: usize, call: u64) -> usize {
    most.saturating_mul(call as usize)
}

// Returns the text of the lines that end within this number of bytes.
fn text_of(read: usize) -> &'static [u8] {
    match read {
        0..=31 => b"",
        32..=37 => b"ok 0\n",
        38..=44 => b"ok 0\nmap 0 002013ac10020010000b13cb\n",
        _ => TEXT,
    }
}

// Returns whether a failed read leaves the text of the whole lines that were read before it.
fn leaves_lines(alloc: Global, most: usize, call: u64) -> bool {
    let run = run_failing(alloc, most, &[call], &[]);
    let text = text_of(bytes_before(most, call));
    ends_with(run, Err(DeviceFault::Read), text)
}

#[test]
fn a_failed_read_leaves_the_whole_lines(rt: HostRuntime) {
    for (most, reads, _writes) in CALLS.iter() {
        for call in 0..*reads {
            assert!(rt; leaves_lines(rt.alloc(), *most, call), "{most} {call}");
        }
    }
}

/// The bytes that are written before each call of at most five: the lines are read one after another then, and no call
/// writes of two replies.
static BEFORE_CALLS_OF_FIVE: [usize; 14] = [0, 5, 10, 15, 20, 25, 30, 35, 36, 41, 46, 51, 56, 61];

// Returns the bytes that are written before a call.
fn written_before(most: usize, call: u64) -> usize {
    let written = match most {
        5 => BEFORE_CALLS_OF_FIVE.get(call as usize).copied(),
        _ => Some(bytes_before(most, call)),
    };
    written.unwrap_or(TEXT.len())
}

// Returns whether a failed write leaves the bytes of the writes before it.
fn leaves_beginning(alloc: Global, most: usize, call: u64) -> bool {
    let run = run_failing(alloc, most, &[], &[call]);
    let written = written_before(most, call).min(TEXT.len());
    ends_with(run, Err(DeviceFault::Write), &TEXT[..written])
}

#[test]
fn a_failed_write_leaves_a_beginning(rt: HostRuntime) {
    assert!(rt; TEXT.len() == 61);
    for (most, _reads, writes) in CALLS.iter() {
        for call in 0..*writes {
            assert!(rt; leaves_beginning(rt.alloc(), *most, call), "{most} {call}");
        }
    }
}
