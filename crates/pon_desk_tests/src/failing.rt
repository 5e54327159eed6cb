//! A worker whose devices fail, at each call in turn.

use crate::links::{are_maps, bursts};
use crate::serving::{End, Served, Task, serve, why};
use pon_device::{MemRead, MemWrite};
use pon_worker::{OpenGate, StopReason};
use std::alloc::Global;
use std::process::Abort;
use std::sync::Wait;

// Maximum number of bytes of a call, and the numbers of calls that read a burst and write a map.
static CALLS: [(usize, u64, u64); 3] = [(1, 18, 21), (5, 4, 5), (4_096, 2, 1)];

// Serves a turn over devices that fail in these calls.
fn serve_failing(
    rt: &(impl Wait + Abort),
    alloc: Global,
    most: usize,
    reads: Vec<u64>,
    writes: Vec<u64>,
) -> Served {
    let task = Task {
        turns: 1,
        reader: MemRead::new(bursts(rt, alloc, 1), most.max(1), reads),
        writer: MemWrite::new(alloc, most.max(1), writes),
    };
    serve(rt, alloc, &OpenGate, task)
}

// Returns calls of which two in each three are given.
fn two_of_three(rt: &impl Abort, alloc: Global) -> Vec<u64> {
    let mut calls = Vec::new(alloc);
    for call in 0..99u64 {
        if call % 3 < 2 {
            calls.push(call).expect(rt, "memory");
        }
    }
    calls
}

// Returns whether a worker whose devices fail twice before each call does as one with sound devices.
fn is_unchanged(rt: &(impl Wait + Abort), alloc: Global, most: usize) -> bool {
    let (reads, writes) = (two_of_three(rt, alloc), two_of_three(rt, alloc));
    let served = serve_failing(rt, alloc, most, reads, writes);
    served.end.why == StopReason::Finished
        && served.end.counts.maps == 1
        && served.end.counts.reports == 1
        && are_maps(rt, alloc, served.writer.bytes(), 1)
}

#[test]
fn two_failures_before_each_call_change_nothing(rt: HostRuntime) {
    for (most, _reads, _writes) in CALLS.iter() {
        assert!(rt; is_unchanged(&rt, rt.alloc(), *most), "{most}");
    }
}

// Returns three calls in a row.
fn three_from(rt: &impl Abort, alloc: Global, call: u64) -> Vec<u64> {
    let mut calls = Vec::new(alloc);
    for more in 0..3u64 {
        let failing = call.saturating_add(more);
        calls.push(failing).expect(rt, "memory");
    }
    calls
}

// Returns whether a worker that fails in three reads in a row gives up its link for cause 2, after its map is written.
fn gives_up_reads(rt: &(impl Wait + Abort), alloc: Global, most: usize, call: u64) -> bool {
    let reads = three_from(rt, alloc, call);
    let served = serve_failing(rt, alloc, most, reads, Vec::new(alloc));
    served.end.why == why(rt, End::Gave(2)) && are_maps(rt, alloc, served.writer.bytes(), 1)
}

// Returns whether a worker that fails in three writes in a row gives up its link for cause 3, after the bytes of the calls
// before.
fn gives_up_writes(rt: &(impl Wait + Abort), alloc: Global, most: usize, call: u64) -> bool {
    let writes = three_from(rt, alloc, call);
    let served = serve_failing(rt, alloc, most, Vec::new(alloc), writes);
    let written = served.writer.bytes().len() as u64;
    served.end.why == why(rt, End::Gave(3)) && written == call.saturating_mul(most as u64)
}

#[test]
fn three_failures_at_any_call_end_a_worker(rt: HostRuntime) {
    for (most, reads, writes) in CALLS.iter() {
        for call in 0..*reads {
            assert!(rt;
                gives_up_reads(&rt, rt.alloc(), *most, call),
                "{most} {call}"
            );
        }
        for call in 0..*writes {
            assert!(rt;
                gives_up_writes(&rt, rt.alloc(), *most, call),
                "{most} {call}"
            );
        }
    }
}
