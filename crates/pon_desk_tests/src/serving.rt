//! A worker over memory, at port 0 of a desk: cases of what its devices give, each with how it ends.
ghost use Rattle.std.specs.Prelude.{◌≡◌};

use crate::bench::{ONU, cause, close, number, put, seat};
use crate::links::{add_burst, are_maps, bursts, open};
use pon_desk::Closed;
use pon_device::{MemRead, MemWrite};
use pon_units::PortNo;
use pon_worker::{Gate, OpenGate, Point, Sink, StopReason, Turns, WorkerEnd, serve_port};
use std::alloc::Global;
use std::marker::Brand;
use std::process::Abort;
use std::sync::Wait;
use std::sync::ledger::{Blank, Ledger};

/// The number of bytes of a burst.
const BURST: usize = 18;

// What the worker reads.
#[derive(Clone, Copy)]
enum Input {
    // The bursts of the unit in the first frames.
    Bursts(u64),
    // Two bursts, the second with this wrong byte at this place, truncated to this number of bytes.
    Damaged(usize, u8, usize),
    // A burst without a sender, and one of a later frame.
    NotPosted,
}

// Why a worker ends.
#[derive(Clone, Copy)]
pub(crate) enum End {
    Finished,
    // It gave up its link for this cause.
    Gave(u8),
    GateLimit,
}

// What the worker wrote.
#[derive(Clone, Copy)]
enum Written {
    // The maps of the first frames.
    Maps(u64),
    // The first five bytes of the first map.
    FiveBytes,
}

// A case: the point at which the gate is shut, the number of turns, what is read, the reads and the writes that fail;
// the numbers of maps, reports, bursts without a sender and refused reports, why it ends, what it wrote, the number of
// entries of its port.
struct Case {
    name: &'static str,
    shut: Option<Point>,
    turns: u64,
    input: Input,
    reads: &'static [u64],
    writes: &'static [u64],
    counts: [u64; 4],
    end: End,
    written: Written,
    entries: usize,
}

static CASES: [Case; 19] = [
    Case {
        name: "serves_its_turns",
        shut: None,
        turns: 3,
        input: Input::Bursts(3),
        reads: &[],
        writes: &[],
        counts: [3, 3, 0, 0],
        end: End::Finished,
        written: Written::Maps(3),
        entries: 7,
    },
    Case {
        name: "makes_no_map_without_a_turn",
        shut: None,
        turns: 0,
        input: Input::Bursts(0),
        reads: &[],
        writes: &[],
        counts: [0, 0, 0, 0],
        end: End::Finished,
        written: Written::Maps(0),
        entries: 1,
    },
    Case {
        name: "tries_each_write_three_times: two fail",
        shut: None,
        turns: 1,
        input: Input::Bursts(1),
        reads: &[],
        writes: &[1, 2],
        counts: [1, 1, 0, 0],
        end: End::Finished,
        written: Written::Maps(1),
        entries: 3,
    },
    Case {
        name: "tries_each_write_three_times: three fail",
        shut: None,
        turns: 1,
        input: Input::Bursts(1),
        reads: &[],
        writes: &[1, 2, 3],
        counts: [1, 0, 0, 0],
        end: End::Gave(3),
        written: Written::FiveBytes,
        entries: 3,
    },
    Case {
        name: "tries_each_read_three_times: two fail",
        shut: None,
        turns: 1,
        input: Input::Bursts(1),
        reads: &[0, 1],
        writes: &[],
        counts: [1, 1, 0, 0],
        end: End::Finished,
        written: Written::Maps(1),
        entries: 3,
    },
    Case {
        name: "tries_each_read_three_times: three fail",
        shut: None,
        turns: 1,
        input: Input::Bursts(1),
        reads: &[1, 2, 3],
        writes: &[],
        counts: [1, 0, 0, 0],
        end: End::Gave(2),
        written: Written::Maps(1),
        entries: 3,
    },
    Case {
        name: "tries_each_write_three_times in a row: two fail at each",
        shut: None,
        turns: 1,
        input: Input::Bursts(1),
        reads: &[],
        writes: &[0, 1, 3, 4, 6, 7, 9, 10, 12, 13],
        counts: [1, 1, 0, 0],
        end: End::Finished,
        written: Written::Maps(1),
        entries: 3,
    },
    Case {
        name: "tries_each_write_three_times in a row: two fail, and then three",
        shut: None,
        turns: 1,
        input: Input::Bursts(1),
        reads: &[],
        writes: &[0, 1, 3, 4, 5],
        counts: [1, 0, 0, 0],
        end: End::Gave(3),
        written: Written::FiveBytes,
        entries: 3,
    },
    Case {
        name: "tries_each_read_three_times in a row: two fail at each",
        shut: None,
        turns: 1,
        input: Input::Bursts(1),
        reads: &[0, 1, 3, 4, 6, 7, 9, 10, 12, 13, 15, 16, 18, 19],
        writes: &[],
        counts: [1, 1, 0, 0],
        end: End::Finished,
        written: Written::Maps(1),
        entries: 3,
    },
    Case {
        name: "tries_each_read_three_times in a row: two fail, and then three",
        shut: None,
        turns: 1,
        input: Input::Bursts(1),
        reads: &[0, 1, 3, 4, 5],
        writes: &[],
        counts: [1, 0, 0, 0],
        end: End::Gave(2),
        written: Written::Maps(1),
        entries: 3,
    },
    Case {
        name: "gives_up_what_is_no_record: first byte",
        shut: None,
        turns: 2,
        input: Input::Damaged(0, 0x54, 36),
        reads: &[],
        writes: &[],
        counts: [2, 1, 0, 0],
        end: End::Gave(4),
        written: Written::Maps(2),
        entries: 5,
    },
    Case {
        name: "gives_up_what_is_no_record: no occupancy",
        shut: None,
        turns: 2,
        input: Input::Damaged(13, 0, 36),
        reads: &[],
        writes: &[],
        counts: [2, 1, 0, 0],
        end: End::Gave(4),
        written: Written::Maps(2),
        entries: 5,
    },
    Case {
        name: "gives_up_what_is_no_record: 17 occupancies",
        shut: None,
        turns: 2,
        input: Input::Damaged(13, 17, 36),
        reads: &[],
        writes: &[],
        counts: [2, 1, 0, 0],
        end: End::Gave(4),
        written: Written::Maps(2),
        entries: 5,
    },
    Case {
        name: "gives_up_what_is_no_record: an input that ends between records",
        shut: None,
        turns: 2,
        input: Input::Damaged(0, 0x55, 18),
        reads: &[],
        writes: &[],
        counts: [2, 1, 0, 0],
        end: End::Gave(5),
        written: Written::Maps(2),
        entries: 5,
    },
    Case {
        name: "gives_up_what_is_no_record: an input that ends within a record",
        shut: None,
        turns: 2,
        input: Input::Damaged(0, 0x55, 35),
        reads: &[],
        writes: &[],
        counts: [2, 1, 0, 0],
        end: End::Gave(5),
        written: Written::Maps(2),
        entries: 5,
    },
    Case {
        name: "counts_what_it_does_not_post",
        shut: None,
        turns: 2,
        input: Input::NotPosted,
        reads: &[],
        writes: &[],
        counts: [2, 0, 1, 1],
        end: End::Finished,
        written: Written::Maps(2),
        entries: 3,
    },
    Case {
        name: "counts_a_damaged_burst",
        shut: None,
        turns: 2,
        input: Input::Damaged(9, 0xff, 36),
        reads: &[],
        writes: &[],
        counts: [2, 1, 1, 0],
        end: End::Finished,
        written: Written::Maps(2),
        entries: 4,
    },
    Case {
        name: "a_shut_gate_ends_it: send",
        shut: Some(Point::Send),
        turns: 1,
        input: Input::Bursts(1),
        reads: &[],
        writes: &[],
        counts: [1, 0, 0, 0],
        end: End::GateLimit,
        written: Written::Maps(0),
        entries: 2,
    },
    Case {
        name: "a_shut_gate_ends_it: read",
        shut: Some(Point::Read),
        turns: 1,
        input: Input::Bursts(1),
        reads: &[],
        writes: &[],
        counts: [1, 0, 0, 0],
        end: End::GateLimit,
        written: Written::Maps(1),
        entries: 2,
    },
];

// Replaces a byte of the second of two bursts, and keeps this number of bytes.
fn damage(bytes: &mut Vec<u8>, at: usize, byte: u8, len: usize) {
    if let Some(place) = bytes.get_mut(at.saturating_add(BURST)) {
        *place = byte;
    }
    bytes.truncate(len);
}

fn not_posted(rt: &impl Abort, alloc: Global) -> Vec<u8> {
    let mut bytes = Vec::new(alloc);
    add_burst(rt, &mut bytes, 0, 1023);
    add_burst(rt, &mut bytes, 7, ONU);
    bytes
}

fn bytes_of(rt: &impl Abort, alloc: Global, input: Input) -> Vec<u8> {
    match input {
        Input::Bursts(frames) => bursts(rt, alloc, frames),
        Input::Damaged(at, byte, len) => {
            let mut bytes = bursts(rt, alloc, 2);
            damage(&mut bytes, at, byte, len);
            bytes
        }
        Input::NotPosted => not_posted(rt, alloc),
    }
}

// Returns a reader that reads three bytes at a time.
fn reader(rt: &impl Abort, alloc: Global, case: &Case) -> MemRead {
    let failing = case.reads.to_vec(alloc).expect(rt, "memory");
    MemRead::new(bytes_of(rt, alloc, case.input), 3, failing)
}

// Returns a writer that takes five bytes at a time.
fn writer(rt: &impl Abort, alloc: Global, case: &Case) -> MemWrite {
    MemWrite::new(alloc, 5, case.writes.to_vec(alloc).expect(rt, "memory"))
}

pub(crate) fn why(rt: &impl Abort, end: End) -> StopReason {
    match end {
        End::Finished => StopReason::Finished,
        End::Gave(number) => StopReason::Gave {
            cause: cause(rt, number),
        },
        End::GateLimit => StopReason::GateLimit,
    }
}

// Returns the number of bursts that no unit owns.
fn unowned(input: Input) -> u64 {
    match input {
        Input::NotPosted => 1,
        Input::Bursts(_) | Input::Damaged(..) => 0,
    }
}

fn is_end(rt: &impl Abort, end: &WorkerEnd, case: &Case) -> bool {
    let [maps, reports, garbled, refused] = case.counts;
    end.counts.maps == maps
        && end.counts.reports == reports
        && end.counts.garbled == garbled
        && end.counts.unowned == unowned(case.input)
        && end.counts.refused == refused
        && end.why == why(rt, case.end)
}

fn is_written(rt: &impl Abort, alloc: Global, bytes: &[u8], written: Written) -> bool {
    match written {
        Written::Maps(frames) => are_maps(rt, alloc, bytes, frames),
        Written::FiveBytes => bytes == [0x44, 0, 0, 0, 0].as_slice(),
    }
}

// Returns whether port 0 kept the entries, and failed for the cause for which the worker gave up its link.
fn is_kept(rt: &impl Abort, closed: &Closed, case: &Case) -> bool {
    let wanted = match case.end {
        End::Gave(number) => Some(number),
        _ => None,
    };
    match closed.port(number(rt, 0)) {
        None => false,
        Some(kept) => {
            kept.history().len() == case.entries
                && kept.state().cause().map(|cause| cause.get()) == wanted
        }
    }
}

// The end of a worker, what it wrote, and its ports.
#[derive(Drop)]
pub(crate) struct Served {
    pub(crate) end: WorkerEnd,
    pub(crate) writer: MemWrite,
    closed: Closed,
}

// The number of turns of a worker, and its devices.
#[derive(Drop)]
pub(crate) struct Task {
    pub(crate) turns: u64,
    pub(crate) reader: MemRead,
    pub(crate) writer: MemWrite,
}

// Serves port 0 for some turns over these devices.
fn serve_at<L: Ledger, M: Ledger, G: Gate, R: Wait + Abort>(
    rt: &R,
    alloc: Global,
    of_ports: Blank,
    of_seats: Blank,
    gate: &G,
    task: Task,
) -> Served
    requires ports { (of_ports.name ≡ L.name) × (of_ports.parts ≡ L.parts) × (L.parts ≡ 2) }
    requires seats { (of_seats.name ≡ M.name) × (of_seats.parts ≡ M.parts) × (M.parts ≡ 3) }
{
    let (desk, mut seats) = open::<L, M, R>(rt, alloc, of_ports, of_seats);
    let mut seat = seat(rt, &mut seats);
    let Task {
        turns,
        mut reader,
        mut writer,
    } = task;
    let mut pace = Turns::new(turns);
    let end = serve_port(
        rt,
        &desk,
        &mut seat,
        number(rt, 0),
        gate,
        &mut pace,
        &mut reader,
        &mut writer,
        &mut Sink::none(),
    );
    put(rt, &mut seats, seat);
    let closed = close(rt, desk, seats);
    Served {
        end,
        writer,
        closed,
    }
}

pub(crate) fn serve<G: Gate, R: Wait + Abort>(
    rt: &R,
    alloc: Global,
    gate: &G,
    task: Task,
) -> Served {
    serve_at::<Brand, Brand, G, R>(rt, alloc, Blank::new(2), Blank::new(3), gate, task)
}

// Returns the turns and the devices of a case.
fn task_of(rt: &impl Abort, alloc: Global, case: &Case) -> Task {
    Task {
        turns: case.turns,
        reader: reader(rt, alloc, case),
        writer: writer(rt, alloc, case),
    }
}

// Lets no worker pass one point.
#[derive(Drop)]
struct ShutAt {
    point: Point,
}

impl Gate for ShutAt {
    fn pass(&self, _port: PortNo, point: Point) -> bool {
        point != self.point
    }
}

fn is_as_told(rt: &impl Abort, alloc: Global, served: &Served, case: &Case) -> bool {
    is_end(rt, &served.end, case)
        && is_written(rt, alloc, served.writer.bytes(), case.written)
        && is_kept(rt, &served.closed, case)
}

fn ends_as(rt: &(impl Wait + Abort), alloc: Global, case: &Case) -> bool {
    let task = task_of(rt, alloc, case);
    let served = match case.shut {
        None => serve(rt, alloc, &OpenGate, task),
        Some(point) => serve(rt, alloc, &ShutAt { point }, task),
    };
    is_as_told(rt, alloc, &served, case)
}

#[test]
fn a_worker_ends_as_its_devices_tell(rt: HostRuntime) {
    for case in CASES.iter() {
        assert!(rt; ends_as(&rt, rt.alloc(), case), "{}", case.name);
    }
}
