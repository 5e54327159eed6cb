//! Workers of two ports in two threads, held by a gate until both have called it.
ghost use Rattle.std.specs.Prelude.{◌≡◌};

use crate::bench::{close, each_took, number, put, seat};
use crate::links::{are_maps, bursts, open};
use pon_desk::{Desk, Seat};
use pon_device::{MemRead, MemWrite};
use pon_units::PortNo;
use pon_worker::{Gate, Point, Sink, StopReason, Turns, WorkerEnd, serve_port};
use std::alloc::Global;
use std::marker::Brand;
use std::process::Abort;
use std::sync::Wait;
use std::sync::atomic::{AtomicU64, Ordering};
use std::sync::ledger::{Blank, Ledger};
use std::thread;
use std::thread::Threads;

// How often a held worker checks for the other one before the gate refuses it.
const LOOKS: u32 = 1_000;

// Holds the worker of each port at `Send` until the worker of the other port is there too.
#[derive(Drop)]
struct Both {
    asked: [AtomicU64; 2],
}

impl Gate for Both {
    fn pass(&self, port: PortNo, point: Point) -> bool {
        if point == Point::Read {
            return true;
        }
        let mine = usize::from(port.get() > 0);
        self.asked[mine].fetch_add(1, Ordering::SeqCst);
        for _look in 0..LOOKS {
            if self.asked[1 - mine].load(Ordering::SeqCst) > 0 {
                return true;
            }
            thread::yield_now();
        }
        false
    }
}

// What a worker reads, and what it writes.
type Line = (MemRead, MemWrite);

// The seat of a worker, how it ended, and what it wrote.
type Done<L, M> = (Seat<L, M>, WorkerEnd, MemWrite);

// Serves a port for some turns, and returns the seat with the bytes that were written.
fn serve<L: Ledger, M: Ledger, G: Gate, R: Wait>(
    rt: &R,
    desk: &Desk<L, M>,
    mut seat: Seat<L, M>,
    port: PortNo,
    gate: &G,
    line: Line,
) -> Done<L, M> {
    let (mut reader, mut writer) = line;
    let mut pace = Turns::new(2);
    let end = serve_port(
        rt,
        desk,
        &mut seat,
        port,
        gate,
        &mut pace,
        &mut reader,
        &mut writer,
        &mut Sink::none(),
    );
    (seat, end, writer)
}

fn line(rt: &impl Abort, alloc: Global) -> Line {
    let reader = MemRead::new(bursts(rt, alloc, 2), 7, Vec::new(alloc));
    (reader, MemWrite::new(alloc, 7, Vec::new(alloc)))
}

fn serve_both<L: Ledger + Send + Sync, M: Ledger + Send + Sync, R: Threads + Wait + Abort + Sync>(
    rt: &R,
    alloc: Global,
    desk: &Desk<L, M>,
    one: Seat<L, M>,
    two: Seat<L, M>,
) -> (Done<L, M>, Done<L, M>) {
    let gate = Both {
        asked: [AtomicU64::new(0), AtomicU64::new(0)],
    };
    let held = &gate;
    let (first, second) = (number(rt, 0), number(rt, 1));
    let (line, other) = (line(rt, alloc), line(rt, alloc));
    thread::join(
        rt,
        move || serve(rt, desk, one, first, held, line),
        move || serve(rt, desk, two, second, held, other),
    )
}

// Gives the seat back. Returns whether its worker finished and wrote its maps.
fn is_done<L: Ledger, M: Ledger>(
    rt: &impl Abort,
    alloc: Global,
    seats: &mut Vec<Seat<L, M>>,
    done: Done<L, M>,
) -> bool {
    let (seat, end, writer) = done;
    put(rt, seats, seat);
    end.counts.maps == 2
        && end.counts.reports == 2
        && end.why == StopReason::Finished
        && are_maps(rt, alloc, writer.bytes(), 2)
}

// Returns whether two workers whose gate lets neither pass alone each make their maps.
fn are_done<L: Ledger + Send + Sync, M: Ledger + Send + Sync, R: Threads + Wait + Abort + Sync>(
    rt: &R,
    alloc: Global,
    of_ports: Blank,
    of_seats: Blank,
) -> bool
    requires ports { (of_ports.name ≡ L.name) × (of_ports.parts ≡ L.parts) × (L.parts ≡ 2) }
    requires seats { (of_seats.name ≡ M.name) × (of_seats.parts ≡ M.parts) × (M.parts ≡ 3) }
{
    let (desk, mut seats) = open::<L, M, R>(rt, alloc, of_ports, of_seats);
    let one = seat(rt, &mut seats);
    let two = seat(rt, &mut seats);
    let (one, two) = serve_both(rt, alloc, &desk, one, two);
    let is_one_done = is_done(rt, alloc, &mut seats, one);
    let is_two_done = is_done(rt, alloc, &mut seats, two);
    let is_taken = each_took(close(rt, desk, seats), &[5, 5]);
    is_one_done && is_two_done && is_taken
}

#[test]
fn workers_wait_for_each_other(rt: HostRuntime) {
    let (of_ports, of_seats) = (Blank::new(2), Blank::new(3));
    assert!(rt; are_done::<Brand, Brand, HostRuntime>(&rt, rt.alloc(), of_ports, of_seats));
}
