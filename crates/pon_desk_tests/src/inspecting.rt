//! An inspection of one port, and a post that waits there for its end, do not block a post of another thread at another
//! port.
ghost use Rattle.std.specs.Prelude.{◌≡◌};

use crate::bench::{cfg, number, seat};
use pon_admit::Event;
use pon_desk::{Desk, Seat};
use std::alloc::Global;
use std::marker::Brand;
use std::process::Abort;
use std::sync::Wait;
use std::sync::atomic::{AtomicBool, Ordering};
use std::sync::ledger::{Blank, Ledger};
use std::thread;
use std::thread::Threads;
use std::time::{Clock, Duration};

// Maximum number of times that a thread reads the flag of another one, a millisecond apart.
const ASKS: u32 = 10_000;

// How long the post at the inspected port has begun before the post at the other port is made, in milliseconds.
const HEAD_START: u64 = 50;

// What the threads have done.
#[derive(Drop)]
struct Flags {
    // The inspection began.
    inspecting: AtomicBool,
    // The post at the inspected port begins.
    waiting: AtomicBool,
    // The post at the other port was answered.
    answered: AtomicBool,
}

// Waits until the flag is set, and returns whether it was.
fn is_set<R: Clock>(rt: &R, flag: &AtomicBool) -> bool {
    for _ask in 0..ASKS {
        if flag.load(Ordering::SeqCst) {
            return true;
        }
        thread::sleep(rt, Duration::from_millis(1));
    }
    false
}

// Inspects port 0 until the post at port 1 was answered.
fn inspect<L: Ledger, M: Ledger, R: Wait + Clock + Abort>(
    rt: &R,
    desk: &Desk<L, M>,
    flags: &Flags,
) -> bool {
    let seen = desk.inspect(rt, number(rt, 0), |_port| {
        flags.inspecting.store(true, Ordering::SeqCst);
        is_set(rt, &flags.answered)
    });
    seen.ok().expect(rt, "a port")
}

// Makes a map at a port.
fn makes_map<L: Ledger, M: Ledger, R: Wait + Abort>(
    rt: &R,
    desk: &Desk<L, M>,
    seat: &mut Seat<L, M>,
    port: u8,
) -> bool {
    desk.post(rt, seat, number(rt, port), Event::MakeMap)
        .is_ok()
}

// Posts at port 0 during the inspection.
fn post_there<L: Ledger, M: Ledger, R: Wait + Clock + Abort>(
    rt: &R,
    desk: &Desk<L, M>,
    mut seat: Seat<L, M>,
    flags: &Flags,
) -> bool {
    let is_begun = is_set(rt, &flags.inspecting);
    flags.waiting.store(true, Ordering::SeqCst);
    is_begun && makes_map(rt, desk, &mut seat, 0)
}

// Posts at port 1 after the post at port 0 began.
fn post_beside<L: Ledger, M: Ledger, R: Wait + Clock + Abort>(
    rt: &R,
    desk: &Desk<L, M>,
    mut seat: Seat<L, M>,
    flags: &Flags,
) -> bool {
    let is_begun = is_set(rt, &flags.waiting);
    thread::sleep(rt, Duration::from_millis(HEAD_START));
    let is_posted = makes_map(rt, desk, &mut seat, 1);
    flags.answered.store(true, Ordering::SeqCst);
    is_begun && is_posted
}

fn post_both<
    L: Ledger + Send + Sync,
    M: Ledger + Send + Sync,
    R: Threads + Wait + Clock + Abort + Sync,
>(rt: &R, desk: &Desk<L, M>, one: Seat<L, M>, two: Seat<L, M>, flags: &Flags) -> bool {
    let (is_there, is_beside) = thread::join(
        rt,
        move || post_there(rt, desk, one, flags),
        move || post_beside(rt, desk, two, flags),
    );
    is_there && is_beside
}

fn inspect_beside_posts<
    L: Ledger + Send + Sync,
    M: Ledger + Send + Sync,
    R: Threads + Wait + Clock + Abort + Sync,
>(rt: &R, desk: &Desk<L, M>, one: Seat<L, M>, two: Seat<L, M>) -> (bool, bool) {
    let flags = Flags {
        inspecting: AtomicBool::new(false),
        waiting: AtomicBool::new(false),
        answered: AtomicBool::new(false),
    };
    let shared = &flags;
    thread::join(
        rt,
        move || inspect(rt, desk, shared),
        move || post_both(rt, desk, one, two, shared),
    )
}

// Returns whether the post at port 1 was answered during the inspection, and whether both posts made a map.
fn are_all_done<
    L: Ledger + Send + Sync,
    M: Ledger + Send + Sync,
    R: Threads + Wait + Clock + Abort + Sync,
>(rt: &R, alloc: Global, of_ports: Blank, of_seats: Blank) -> (bool, bool)
    requires ports { (of_ports.name ≡ L.name) × (of_ports.parts ≡ L.parts) × (L.parts ≡ 2) }
    requires seats { (of_seats.name ≡ M.name) × (of_seats.parts ≡ M.parts) × (M.parts ≡ 2) }
{
    let ports = [cfg(rt, 16, 0), cfg(rt, 16, 0)];
    let opened = Desk::<L, M>::open(alloc, of_ports, of_seats, &ports, 2);
    let (desk, mut seats) = opened.ok().expect(rt, "a desk");
    let (one, two) = (seat(rt, &mut seats), seat(rt, &mut seats));
    inspect_beside_posts(rt, &desk, one, two)
}

#[test]
fn a_waiting_post_keeps_no_other_port(rt: HostRuntime) {
    let (of_ports, of_seats) = (Blank::new(2), Blank::new(2));
    let (seen, posted) = are_all_done::<Brand, Brand, HostRuntime>(
        &rt,
        rt.alloc(),
        of_ports,
        of_seats,
    );
    assert!(rt; seen, "a post at another port was answered meanwhile");
    assert!(rt; posted, "two maps");
}
