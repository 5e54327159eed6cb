//! Management lines at desks: the text is that of a plant with the same ports. Each port has a gap of 16 words and
//! starts at frame 0.
ghost use Rattle.std.specs.Prelude.{◌≡◌, ◌<◌, true};

use crate::bench::{admission, cfg, number};
use pon_desk::{Desk, Seat};
use pon_device::{DeviceFault, MemRead, MemWrite};
use pon_manage::{LineRefusal, Notes, PlanEnd, Step, operate, plan};
use pon_plant::Plant;
use std::alloc::Global;
use std::marker::Brand;
use std::process::Abort;
use std::sync::Wait;
use std::sync::ledger::{Blank, Ledger};

// Maximum number of bytes that a device reads or writes in a call.
pub(crate) const ALL: usize = 4096;

// Notes no refusal.
#[derive(Drop)]
pub(crate) struct Unnoted;

impl Notes for Unnoted {
    ghost noted = { λ _. true };

    fn note(&mut self, _number: u64, _plant: &Plant, _line: &[u8], _refusal: LineRefusal) {}
}

// Makes the steps that admit an Alloc-ID at the first `count` ports. `None` if memory is refused.
fn admissions(rt: &impl Abort, alloc: Global, count: u8) -> Option<Vec<Step>> {
    let mut steps = Vec::new(alloc);
    for port in 0..count {
        let step = Step {
            port: number(rt, port),
            event: admission(rt),
        };
        steps.push(step).ok()?;
    }
    Some(steps)
}

// The result of a run, and the bytes in its writer.
#[derive(Drop)]
pub(crate) struct Answered {
    pub(crate) result: Result<PlanEnd, DeviceFault>,
    pub(crate) text: Vec<u8>,
}

// Devices that read and write at most `most` bytes in a call, and fail in the given calls.
#[derive(Drop)]
pub(crate) struct Devices {
    pub(crate) reader: MemRead,
    pub(crate) writer: MemWrite,
}

pub(crate) fn make_devices(
    alloc: Global,
    input: &[u8],
    most: usize,
    reads: &[u64],
    writes: &[u64],
) -> Option<Devices>
    requires { 0 < most }
{
    Some(Devices {
        reader: MemRead::new(input.to_vec(alloc).ok()?, most, reads.to_vec(alloc).ok()?),
        writer: MemWrite::new(alloc, most, writes.to_vec(alloc).ok()?),
    })
}

pub(crate) fn with_text(
    alloc: Global,
    writer: &MemWrite,
    told: Result<PlanEnd, DeviceFault>,
) -> Option<Answered> {
    let text = writer.bytes().to_vec(alloc).ok()?;
    Some(Answered { result: told, text })
}

// Posts the steps. `false` if memory is refused.
fn posts<L: Ledger, M: Ledger, R: Wait>(
    rt: &R,
    desk: &Desk<L, M>,
    seat: &mut Seat<L, M>,
    steps: Vec<Step>,
) -> bool {
    let mut is_posted = true;
    for Step { port, event } in steps {
        is_posted &= desk.post(rt, seat, port, event).is_ok();
    }
    is_posted
}

// Answers the input at a desk of two ports, after the posts of these steps. `None` if memory is refused to the test
// itself.
fn operate_at<L: Ledger, M: Ledger, R: Wait + Abort>(
    rt: &R,
    alloc: Global,
    of_ports: Blank,
    of_seats: Blank,
    steps: Vec<Step>,
    mut devices: Devices,
) -> Option<Answered>
    requires ports { (of_ports.name ≡ L.name) × (of_ports.parts ≡ L.parts) × (L.parts ≡ 2) }
    requires seats { (of_seats.name ≡ M.name) × (of_seats.parts ≡ M.parts) × (M.parts ≡ 1) }
{
    let ports = [cfg(rt, 16, 0), cfg(rt, 16, 0)];
    let (desk, mut seats) = Desk::<L, M>::open(alloc, of_ports, of_seats, &ports, 1).ok()?;
    let seat = seats.get_mut(0).expect(rt, "a seat");
    if !posts(rt, &desk, seat, steps) {
        return None;
    }
    let told = operate(
        rt,
        alloc,
        &desk,
        seat,
        &mut devices.reader,
        &mut devices.writer,
    );
    with_text(alloc, &devices.writer, told)
}

// Answers the input at a desk whose first ports have admitted an Alloc-ID.
fn at_desk(
    rt: &(impl Wait + Abort),
    alloc: Global,
    admitted: u8,
    devices: Devices,
) -> Option<Answered> {
    let (of_ports, of_seats) = (Blank::new(2), Blank::new(1));
    let steps = admissions(rt, alloc, admitted)?;
    operate_at::<Brand, Brand, _>(rt, alloc, of_ports, of_seats, steps, devices)
}

// Answers the input at a plant of two ports, after the same admissions.
fn at_plant(
    rt: &impl Abort,
    alloc: Global,
    admitted: u8,
    mut devices: Devices,
) -> Option<Answered> {
    let ports = [cfg(rt, 16, 0), cfg(rt, 16, 0)];
    let steps = admissions(rt, alloc, admitted)?;
    let told = plan(
        alloc,
        &ports,
        steps,
        &mut Unnoted,
        &mut devices.reader,
        &mut devices.writer,
    );
    with_text(alloc, &devices.writer, told)
}

// Returns whether the run was not refused memory, and ended with this result and text.
fn ends_with(run: Option<Answered>, wanted: Result<PlanEnd, DeviceFault>, text: &[u8]) -> bool {
    match run {
        None => false,
        Some(run) => run.result == wanted && run.text.as_slice() == text,
    }
}

// Number of admissions at the first ports, the lines that follow, and their text.
static WORKED: [(u8, &[u8], &[u8]); 7] = [
    (
        0,
        b"0 admit 5 1024 2560 0 25600 be\n0 map\n0 report 0 5 100\n0 map\n0 map\n0 cert\n",
        b"ok 0\nmap 0 002013ac10020010000b13cb\nok 2\nmap 1 002013ac10020010005b1736\nmap 2 002013ac10020010000b13cb\ncert 2 na all - be all 1024\n",
    ),
    (
        0,
        b"0 admit 5 1024 2560 0 2560 none\n0 map\n0 report 0 5 7\n0 report 0 5 7\n0 report 0 5 7 7\n0 report 0 6 7\n0 report 1 5 7\n",
        b"ok 0\nmap 0 002013ac10020010000b13cb\nok 2\nerr E16 AlreadyReported\nerr E15 ReportCount\nerr E14 NotPolled\nerr E13 StaleFrame\n",
    ),
    (
        2,
        b"0 map\n1 fail 4\n1 map\n0 map\n0 show\n1 show\n",
        b"map 0 002013ac10020010000b13cb\nok 1\nerr E17 PortDown 4\nmap 1 002013ac10020010000b13cb\nshow up next 2 allocs 1 onus 1 guaranteed 2560 capacity 2483200\nshow down 4 next 0 allocs 1 onus 1 guaranteed 2560 capacity 2483200\n",
    ),
    (
        0,
        b"7 map\n2 map\n0 cert\n",
        b"err L4 NoSuchPort\nerr L4 NoSuchPort\nerr L5 NoMap\n",
    ),
    (
        2,
        b"0 list\n0 map\n0 report 0 5 100\n0 list\n1 list\n0 fail 1\n0 list\n2 list\n",
        b"list 1\nalloc 1024 onu 5 fixed 2560 assured 0 max 2560 class none report - left - load 0 words -\nmap 0 002013ac10020010000b13cb\nok 2\nlist 1\nalloc 1024 onu 5 fixed 2560 assured 0 max 2560 class none report 0 left 90 load 23040 words 10\nlist 1\nalloc 1024 onu 5 fixed 2560 assured 0 max 2560 class none report - left - load 0 words -\nok 3\nlist 1\nalloc 1024 onu 5 fixed 2560 assured 0 max 2560 class none report - left - load 0 words -\nerr L4 NoSuchPort\n",
    ),
    (0, b"\n# a comment\n0 mop\n\r\n", b"err L1 UnknownCommand\n"),
    (0, b"0 map", b"map 0 00000000\n"),
];

// Returns whether the desk answers these lines by this text, and the plant too.
fn is_text(
    rt: &(impl Wait + Abort),
    alloc: Global,
    admitted: u8,
    input: &[u8],
    most: usize,
    text: &[u8],
) -> bool
    requires { 0 < most }
{
    let devices = make_devices(alloc, input, most, &[], &[]).expect(rt, "memory");
    let by_desk = at_desk(rt, alloc, admitted, devices);
    let devices = make_devices(alloc, input, most, &[], &[]).expect(rt, "memory");
    let by_plant = at_plant(rt, alloc, admitted, devices);
    let is_of_desk = ends_with(by_desk, Ok(PlanEnd), text);
    ends_with(by_plant, Ok(PlanEnd), text) && is_of_desk
}

#[test]
fn a_desk_answers_as_a_plant(rt: HostRuntime) {
    for (k, (admitted, input, text)) in WORKED.iter().enumerate() {
        for most in [1, ALL] {
            let is_told = is_text(&rt, rt.alloc(), *admitted, input, most, text);
            assert!(rt; is_told, "row {k} in pieces of {most}");
        }
    }
}

// The lines that only a run answers.
#[test]
fn a_desk_stops_and_lists_the_line_that_does(rt: HostRuntime) {
    let input = b"0 stop\n1 stop\n0 stop 1\n2 stop\n1 help\n";
    let text =
        b"ok stop\nok stop\nerr L2 WordCount\nerr L4 NoSuchPort\nhelp 14\n<port> admit <onu> <alloc> <fixed> <assured> <max> <class>\n<port> change <alloc> <fixed> <assured> <max> <class>\n<port> remove <alloc>\n<port> report <frame> <onu> <occupancy> ..\n<port> map\n<port> fail <cause>\n<port> restore\n<port> cert\n<port> show\n<port> list\n<port> why <alloc>\n<port> sure <alloc>\n<port> help\n<port> stop\n";
    let devices = make_devices(rt.alloc(), input, ALL, &[], &[]).expect(&rt, "memory");
    let told = at_desk(&rt, rt.alloc(), 0, devices);
    let is_told = ends_with(told, Ok(PlanEnd), text);
    assert!(rt; is_told);
}

const FIRST_MAP: &[u8] = b"0 admit 5 1024 2560 0 2560 none\n0 map\n";

const FIRST_TEXT: &[u8] = b"ok 0\nmap 0 002013ac10020010000b13cb\n";

// Returns whether the lines of `FIRST_MAP`, read and written by single bytes with these failures, end with this fault
// and the first `len` bytes of their text.
fn stops(
    rt: &(impl Wait + Abort),
    alloc: Global,
    reads: &[u64],
    writes: &[u64],
    fault: DeviceFault,
    len: usize,
) -> bool {
    let devices = make_devices(alloc, FIRST_MAP, 1, reads, writes).expect(rt, "memory");
    let text = FIRST_TEXT.get(..len).expect(rt, "a beginning");
    ends_with(at_desk(rt, alloc, 0, devices), Err(fault), text)
}

// The reader reads one byte a call: call k fails after k bytes.
#[test]
fn a_failed_read_leaves_the_whole_lines(rt: HostRuntime) {
    for (call, written) in [(0, 0), (31, 0), (32, 5), (37, 5), (38, 36)] {
        let is_left = stops(&rt, rt.alloc(), &[call], &[], DeviceFault::Read, written);
        assert!(rt; is_left, "{call}");
    }
}

// The writer writes one byte a call: call b fails after b bytes, and call 36 is the flush.
#[test]
fn a_failed_write_leaves_a_beginning(rt: HostRuntime) {
    for (call, written) in [(0, 0), (4, 4), (5, 5), (35, 35), (36, 36)] {
        let is_left = stops(&rt, rt.alloc(), &[], &[call], DeviceFault::Write, written);
        assert!(rt; is_left, "{call}");
    }
}

// Answers `FIRST_MAP`. `None` if memory is refused to the test itself.
fn first_map(rt: &(impl Wait + Abort), alloc: Global) -> Option<Answered> {
    at_desk(rt, alloc, 0, make_devices(alloc, FIRST_MAP, ALL, &[], &[])?)
}

// Returns whether the text is that of the result: a beginning if memory was refused.
fn is_beginning(run: Option<Answered>) -> bool {
    let Some(run) = run else {
        return true;
    };
    match run.result {
        Ok(PlanEnd) => run.text.as_slice() == FIRST_TEXT,
        Err(DeviceFault::Read) => false,
        Err(_) => FIRST_TEXT.starts_with(run.text.as_slice()),
    }
}

// One failed allocation (`rt try --test --fail-alloc N`) leaves a prefix of the text, and no refusal is printed for it.
#[test]
fn refused_memory_leaves_a_beginning(rt: HostRuntime) {
    assert!(rt; is_beginning(first_map(&rt, rt.alloc())));
}
