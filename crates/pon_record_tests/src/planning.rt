//! Recordings of management lines.

ghost use Rattle.std.specs.Prelude.{true};

use crate::audit::is_told;
use pon_admit::Event;
use pon_descr::Cause;
use pon_device::{DeviceFault, MemRead, MemWrite};
use pon_manage::{LineRefusal, Notes, Opening, PlanEnd, Step, plan, plan_recorded};
use pon_plant::Plant;
use pon_port::PortCfg;
use pon_recorder::Recorder;
use pon_units::{FrameNo, Gap, PortNo, Profile};
use std::alloc::Global;
use std::process::Abort;

// Bytes that a device takes or gives in a call.
const PIECE: usize = 4096;

// Pairs of events that leave room for two more entries in a chapter.
const PAIRS: usize = 32_767;

// Lines at a port whose chapter has room for two entries: the third map turns it, and the index counts anew.
const LAST_LINES: &[u8] = b"0 map\n0 map\n0 map\n0 fail 1\n1 fail 1\n0 cert\n";

const LAST_TEXT: &[u8] =
    b"map 0 00000000\nmap 1 00000000\nmap 2 00000000\nok 1\nok 0\ncert 2 na all - be all -\n";

const LINES: &[u8] =
    b"0 admit 5 1024 2560 0 2560 none\n1 map\n0 map\n0 report 0 5 100\n0 report 0 5 100\n0 map\n1 polls\n1 map";

const TEXT: &[u8] =
    b"ok 0\nmap 0 00000000\nmap 0 002013ac10020010000b13cb\nok 2\nerr E16 AlreadyReported\nmap 1 002013ac10020010000b13cb\nerr L1 UnknownCommand\nmap 1 00000000\n";

/// Counts the refused lines.
#[derive(Drop)]
struct Refused {
    lines: u64,
}

impl Notes for Refused {
    ghost noted = { λ _. true };

    fn note(&mut self, number: u64, _plant: &Plant, _line: &[u8], _refusal: LineRefusal) {
        self.lines = number;
    }
}

/// What lines gave: how they and the recording ended, their text, the recording, and the last refused line.
#[derive(Drop)]
struct Given {
    lines: Result<PlanEnd, DeviceFault>,
    recorded: Result<(), DeviceFault>,
    text: Vec<u8>,
    recording: Vec<u8>,
    refused: u64,
}

fn port(rt: &impl Abort) -> (PortCfg, FrameNo) {
    let gap = Gap::new(16).expect(rt, "a gap");
    let profile = Profile::new(0).expect(rt, "a profile");
    (PortCfg { gap, profile }, FrameNo::new(0))
}

fn ports(rt: &impl Abort) -> [(PortCfg, FrameNo); 2] {
    [port(rt), port(rt)]
}

fn reader(rt: &impl Abort, alloc: Global, lines: &[u8]) -> MemRead {
    let bytes = Vec::from_slice(alloc, lines).expect(rt, "memory");
    MemRead::new(bytes, PIECE, Vec::new(alloc))
}

// Makes a writer that fails at these calls.
fn writer(rt: &impl Abort, alloc: Global, failing: &[u64]) -> MemWrite {
    let failing = Vec::from_slice(alloc, failing).expect(rt, "memory");
    MemWrite::new(alloc, PIECE, failing)
}

fn copy(rt: &impl Abort, alloc: Global, device: &MemWrite) -> Vec<u8> {
    Vec::from_slice(alloc, device.bytes()).expect(rt, "memory")
}

// Begins a recording on a device that fails at these calls.
fn begin(rt: &impl Abort, alloc: Global, failing: &[u64]) -> Recorder<MemWrite> {
    let tape = writer(rt, alloc, failing);
    Recorder::begin(alloc, tape).expect(rt, "a recorder")
}

// Answers lines at two ports after these steps and records them, with devices that fail at these calls.
fn record(
    rt: &impl Abort,
    alloc: Global,
    steps: Vec<Step>,
    lines: &[u8],
    writes: &[u64],
    tape: &[u64],
) -> Given {
    let mut reader = reader(rt, alloc, lines);
    let mut writer = writer(rt, alloc, writes);
    let mut notes = Refused { lines: 0 };
    let recorder = begin(rt, alloc, tape);
    let ports = Vec::from_slice(alloc, &ports(rt)).expect(rt, "memory");
    let planned = plan_recorded(
        alloc,
        Opening { ports, steps },
        &mut notes,
        recorder,
        &mut reader,
        &mut writer,
    );
    Given {
        lines: planned.lines,
        recorded: planned.recording.result,
        text: copy(rt, alloc, &writer),
        recording: copy(rt, alloc, &planned.recording.device),
        refused: notes.lines,
    }
}

// Returns whether lines and recording ended well, with this text.
fn is_given(given: &Given, text: &[u8]) -> bool {
    given.lines == Ok(PlanEnd) && given.recorded == Ok(()) && given.text.as_slice() == text
}

#[test]
fn records_what_lines_leave(rt: HostRuntime) {
    let alloc = rt.alloc();
    let given = record(&rt, alloc, Vec::new(alloc), LINES, &[], &[]);
    assert!(rt; is_given(&given, TEXT) && given.refused == 7);
    assert!(rt; is_told(&rt, alloc, given.recording.as_slice(), "good maps 4"));
}

// Answers the same lines without a recording.
fn unrecorded(rt: &impl Abort, alloc: Global) -> Vec<u8> {
    let mut reader = reader(rt, alloc, LINES);
    let mut writer = writer(rt, alloc, &[]);
    let mut notes = Refused { lines: 0 };
    let steps = Vec::new(alloc);
    let ended = plan(
        alloc,
        &ports(rt),
        steps,
        &mut notes,
        &mut reader,
        &mut writer,
    );
    assert!(rt; ended == Ok(PlanEnd) && notes.lines == 7);
    copy(rt, alloc, &writer)
}

#[test]
fn replies_as_without_a_recording(rt: HostRuntime) {
    assert!(rt; unrecorded(&rt, rt.alloc()).as_slice() == TEXT);
}

// Makes the steps that fail the first port and restore it again and again, until its chapter is almost full.
fn failures(rt: &impl Abort, alloc: Global) -> Vec<Step> {
    let port = PortNo::at(0);
    let cause = Cause::new(9).expect(rt, "a cause");
    let mut steps = Vec::with_capacity(alloc, 2 * PAIRS).expect(rt, "memory");
    for _pair in 0..PAIRS {
        for event in [Event::Fail { cause }, Event::Restore] {
            steps.push(Step { port, event }).expect(rt, "memory");
        }
    }
    steps
}

#[test]
fn turns_a_full_port(rt: HostRuntime) {
    let alloc = rt.alloc();
    let steps = failures(&rt, alloc);
    let given = record(&rt, alloc, steps, LAST_LINES, &[], &[]);
    assert!(rt; is_given(&given, LAST_TEXT) && given.refused == 0);
    assert!(rt; is_told(&rt, alloc, given.recording.as_slice(), "good maps 3"));
}

#[test]
fn records_also_if_no_reply_can_be_written(rt: HostRuntime) {
    let alloc = rt.alloc();
    let given = record(&rt, alloc, Vec::new(alloc), LINES, &[0], &[]);
    assert!(rt; given.lines == Err(DeviceFault::Write) && given.recorded == Ok(()));
    assert!(rt; is_told(&rt, alloc, given.recording.as_slice(), "good maps 3"));
}

#[test]
fn answers_also_if_nothing_can_be_recorded(rt: HostRuntime) {
    let alloc = rt.alloc();
    let given = record(&rt, alloc, Vec::new(alloc), LINES, &[], &[1, 2, 3]);
    assert!(rt; given.lines == Ok(PlanEnd) && given.recorded == Err(DeviceFault::Write));
    assert!(rt; given.text.as_slice() == TEXT);
    assert!(rt; is_told(&rt, alloc, given.recording.as_slice(), "good maps 0"));
}
