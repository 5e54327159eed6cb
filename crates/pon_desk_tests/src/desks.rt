//! Desks of two ports and two seats. Port 0 has a gap of 16 words and frame 0, port 1 a gap of 32 words and frame 7.
ghost use Rattle.std.specs.Prelude.{◌≡◌, ◌<◌, length};

use crate::bench::{EVENTS, cause, cfg, close, each_took, event, id, number, put, seat};
use pon_admit::Event;
use pon_descr::Refusal;
use pon_desk::{CloseFault, Closed, Desk, PlantFault, PortView, Receipt, Seat, StepFault};
use pon_port::{Entry, EntryRef, Port, PortCfg};
use pon_units::FrameNo;
use std::alloc::Global;
use std::marker::Brand;
use std::process::Abort;
use std::sync::Wait;
use std::sync::ledger::{Blank, Ledger};
use std::thread;
use std::thread::Threads;

// Gap and first frame of each port.
const PORTS: [(u16, u64); 2] = [(16, 0), (32, 7)];

fn open<L: Ledger, M: Ledger>(
    rt: &impl Abort,
    alloc: Global,
    of_ports: Blank,
    of_seats: Blank,
) -> Result<(Desk<L, M>, Vec<Seat<L, M>>), PlantFault>
    requires ports { (of_ports.name ≡ L.name) × (of_ports.parts ≡ L.parts) × (L.parts ≡ 2) }
    requires seats { (of_seats.name ≡ M.name) × (of_seats.parts ≡ M.parts) × (M.parts ≡ 2) }
{
    let [(gap, first), (other_gap, other_first)] = PORTS;
    let ports = [cfg(rt, gap, first), cfg(rt, other_gap, other_first)];
    Desk::<L, M>::open(alloc, of_ports, of_seats, &ports, 2)
}

pub(crate) fn opened<L: Ledger, M: Ledger>(
    rt: &impl Abort,
    alloc: Global,
    of_ports: Blank,
    of_seats: Blank,
) -> (Desk<L, M>, Vec<Seat<L, M>>)
    requires ports { (of_ports.name ≡ L.name) × (of_ports.parts ≡ L.parts) × (L.parts ≡ 2) }
    requires seats { (of_seats.name ≡ M.name) × (of_seats.parts ≡ M.parts) × (M.parts ≡ 2) }
{
    open::<L, M>(rt, alloc, of_ports, of_seats)
        .ok()
        .expect(rt, "a desk")
}

// Makes a map at a port.
fn post_map<L: Ledger, M: Ledger, R: Wait + Abort>(
    rt: &R,
    desk: &Desk<L, M>,
    seat: &mut Seat<L, M>,
    port: u8,
) {
    let posted = desk.post(rt, seat, number(rt, port), Event::MakeMap);
    assert!(rt; posted.is_ok(), "a map");
}

// Posts maps at both ports in turn, and returns the seat. No post is refused.
fn post_maps<L: Ledger, M: Ledger, R: Wait + Abort>(
    rt: &R,
    desk: &Desk<L, M>,
    mut seat: Seat<L, M>,
) -> Seat<L, M> {
    for k in 0..400u16 {
        post_map(rt, desk, &mut seat, (k % 2) as u8);
    }
    seat
}

fn post_from_two_threads<
    L: Ledger + Send + Sync,
    M: Ledger + Send + Sync,
    R: Threads + Wait + Abort + Sync,
>(rt: &R, desk: &Desk<L, M>, one: Seat<L, M>, two: Seat<L, M>) -> (Seat<L, M>, Seat<L, M>) {
    thread::join(
        rt,
        move || post_maps(rt, desk, one),
        move || post_maps(rt, desk, two),
    )
}

// Closes the desk too early, and returns it with the seats.
fn close_early<L: Ledger, M: Ledger>(
    rt: &impl Abort,
    desk: Desk<L, M>,
    seats: Vec<Seat<L, M>>,
) -> (Desk<L, M>, Vec<Seat<L, M>>) {
    match desk.close(seats) {
        Err(CloseFault::Missing { desk, seats }) => (desk, seats),
        _ => panic!(rt; "a seat is missing"),
    }
}

// Posts 400 maps from each of two threads. The desk can be closed when both seats are back, and not before.
fn is_closed_with_both_seats<
    L: Ledger + Send + Sync,
    M: Ledger + Send + Sync,
    R: Threads + Wait + Abort + Sync,
>(rt: &R, alloc: Global, of_ports: Blank, of_seats: Blank) -> bool
    requires ports { (of_ports.name ≡ L.name) × (of_ports.parts ≡ L.parts) × (L.parts ≡ 2) }
    requires seats { (of_seats.name ≡ M.name) × (of_seats.parts ≡ M.parts) × (M.parts ≡ 2) }
{
    let (desk, mut seats) = opened::<L, M>(rt, alloc, of_ports, of_seats);
    let one = seat(rt, &mut seats);
    let two = seat(rt, &mut seats);
    let (one, two) = post_from_two_threads(rt, &desk, one, two);
    let is_even = one.counts() == [200, 200].as_slice();
    put(rt, &mut seats, one);
    let (desk, mut seats) = close_early(rt, desk, seats);
    put(rt, &mut seats, two);
    let is_taken = each_took(close(rt, desk, seats), &[400, 400]);
    is_even && is_taken
}

#[test]
fn two_seats_post_from_two_threads(rt: HostRuntime) {
    let (of_ports, of_seats) = (Blank::new(2), Blank::new(2));
    let alloc = rt.alloc();
    assert!(rt;
        is_closed_with_both_seats::<Brand, Brand, HostRuntime>(&rt, alloc, of_ports, of_seats)
    );
}

// Posts the k-th event at a port.
fn post<L: Ledger, M: Ledger, R: Wait + Abort>(
    rt: &R,
    desk: &Desk<L, M>,
    seat: &mut Seat<L, M>,
    port: u8,
    k: u8,
) -> Receipt {
    let (_, first) = PORTS[usize::from(port % 2)];
    desk.post(rt, seat, number(rt, port), event(rt, first, k))
        .expect(rt, "taken")
}

// Posts the k-th event at a port, with the seat whose turn it is.
pub(crate) fn post_in_turn<L: Ledger, M: Ledger, R: Wait + Abort>(
    rt: &R,
    desk: &Desk<L, M>,
    seats: &mut [Seat<L, M>],
    port: u8,
    k: u8,
) -> Receipt {
    let seat = seats.get_mut(usize::from(k.wrapping_add(port) % 2));
    post(rt, desk, seat.expect(rt, "a seat"), port, k)
}

// Posts each event in turn at both ports, with the two seats in turn, and returns the receipts of each port.
pub(crate) fn post_all<L: Ledger, M: Ledger, R: Wait + Abort>(
    rt: &R,
    alloc: Global,
    desk: &Desk<L, M>,
    seats: &mut [Seat<L, M>],
) -> (Vec<Receipt>, Vec<Receipt>) {
    let mut at_first = Vec::new(alloc);
    let mut at_second = Vec::new(alloc);
    for k in 0..EVENTS {
        add(rt, &mut at_first, post_in_turn(rt, desk, seats, 0, k));
        add(rt, &mut at_second, post_in_turn(rt, desk, seats, 1, k));
    }
    (at_first, at_second)
}

pub(crate) fn add(rt: &impl Abort, posted: &mut Vec<Receipt>, receipt: Receipt) {
    posted.push(receipt).expect(rt, "memory");
}

// Returns whether a map is of this frame; true if the entry has no map.
fn is_of_frame(entry: &Entry, frame: u64) -> bool {
    match entry.as_ref() {
        EntryRef::Taken(_) => true,
        EntryRef::Map(made) => made.frame.get() == frame,
    }
}

// Returns whether an entry is the k-th event with the reply of its post, at its index.
fn is_kept(rt: &impl Abort, entry: &Entry, receipt: &Receipt, first: u64, k: u8) -> bool {
    receipt.chapter() == 0
        && receipt.index() == usize::from(k)
        && entry.event() == event(rt, first, k)
        && entry.is_same(receipt.entry())
        && is_of_frame(entry, first.wrapping_add(u64::from(k > 1)))
}

// Returns whether the port has its gap and has made two maps.
fn has_made_two_maps(port: &Port, gap: u16, first: u64) -> bool {
    let state = port.state();
    state.cfg().gap.get() == gap && state.next_frame().get() == first.wrapping_add(2)
}

// Returns whether the entries of the port are the events with the replies of their posts, each at its index.
fn are_kept(rt: &impl Abort, port: &Port, number: u8, posted: &[Receipt]) -> bool {
    let (gap, first) = PORTS[usize::from(number % 2)];
    let entries = port.history();
    let mut k = 0u8;
    for (entry, receipt) in entries.iter().zip(posted) {
        if !is_kept(rt, entry, receipt, first, k) {
            return false;
        }
        k = k.wrapping_add(1);
    }
    has_made_two_maps(port, gap, first) && k == EVENTS && entries.len() == usize::from(EVENTS)
}

fn keeps(rt: &impl Abort, closed: &Closed, number: u8, posted: &[Receipt]) -> bool {
    match closed.port(self::number(rt, number)) {
        None => false,
        Some(port) => are_kept(rt, port, number, posted),
    }
}

fn keeps_both(rt: &impl Abort, closed: &Closed, first: &[Receipt], second: &[Receipt]) -> bool {
    keeps(rt, closed, 0, first)
        && keeps(rt, closed, 1, second)
        && closed.port(number(rt, 2)).is_none()
}

fn count_four<L: Ledger, M: Ledger>(seats: &[Seat<L, M>]) -> bool {
    for seat in seats {
        if seat.counts() != [4, 4].as_slice() {
            return false;
        }
    }
    seats.len() == 2
}

fn is_all_kept<L: Ledger, M: Ledger, R: Wait + Abort>(
    rt: &R,
    alloc: Global,
    of_ports: Blank,
    of_seats: Blank,
) -> bool
    requires ports { (of_ports.name ≡ L.name) × (of_ports.parts ≡ L.parts) × (L.parts ≡ 2) }
    requires seats { (of_seats.name ≡ M.name) × (of_seats.parts ≡ M.parts) × (M.parts ≡ 2) }
{
    let (desk, mut seats) = opened::<L, M>(rt, alloc, of_ports, of_seats);
    let (at_first, at_second) = post_all(rt, alloc, &desk, seats.as_mut_slice());
    let is_even = count_four(seats.as_slice());
    let closed = close(rt, desk, seats);
    let is_kept = keeps_both(rt, &closed, at_first.as_slice(), at_second.as_slice());
    is_even && is_kept
}

#[test]
fn kept_is_posted(rt: HostRuntime) {
    let (of_ports, of_seats) = (Blank::new(2), Blank::new(2));
    assert!(rt; is_all_kept::<Brand, Brand, HostRuntime>(&rt, rt.alloc(), of_ports, of_seats));
}

// Returns whether a view has these numbers: next frame, cause, Alloc-IDs, ONUs, guaranteed kbit/s, capacity in words.
pub(crate) fn has_numbers(
    view: &PortView,
    wanted: (u64, Option<u8>, usize, usize, u32, u16),
) -> bool {
    let (next, cause, allocs, onus, guaranteed, capacity) = wanted;
    view.next.get() == next
        && view.cause.map(|cause| cause.get()) == cause
        && view.allocs == allocs
        && view.onus == onus
        && view.guaranteed.get() == guaranteed
        && view.capacity.get() == capacity
}

// Returns whether the last map is that of frame 0 with one Alloc-ID, of the best-effort class.
fn has_first_map(rt: &impl Abort, view: &PortView) -> bool {
    match &view.last {
        None => false,
        Some(last) => {
            last.made().frame.get() == 0
                && last.made().map.rows().len() == 1
                && last.non_assured().is_empty()
                && last.best_effort() == [id(rt)].as_slice()
        }
    }
}

// Returns whether the view of port 0 shows that it failed after one map, with one Alloc-ID.
fn is_failed<L: Ledger, M: Ledger, R: Wait + Abort>(
    rt: &R,
    alloc: Global,
    desk: &Desk<L, M>,
) -> bool {
    let view = desk.look(rt, alloc, number(rt, 0)).expect(rt, "a view");
    has_numbers(&view, (1, Some(4), 1, 1, 2560, 9700)) && has_first_map(rt, &view)
}

// Returns whether the view of port 1 shows it as it was opened.
fn is_unused<L: Ledger, M: Ledger, R: Wait + Abort>(
    rt: &R,
    alloc: Global,
    desk: &Desk<L, M>,
) -> bool {
    let view = desk.look(rt, alloc, number(rt, 1)).expect(rt, "a view");
    has_numbers(&view, (7, None, 0, 0, 0, 9720)) && view.last.is_none()
}

fn is_absent<L: Ledger, M: Ledger, R: Wait + Abort>(
    rt: &R,
    alloc: Global,
    desk: &Desk<L, M>,
) -> bool {
    desk.look(rt, alloc, number(rt, 2)).err() == Some(StepFault::NoSuchPort)
}

fn assert_inspections<L: Ledger, M: Ledger, R: Wait + Abort>(rt: &R, desk: &Desk<L, M>) {
    for (port, wanted) in [(0, Ok(3)), (1, Ok(0)), (2, Err(StepFault::NoSuchPort))] {
        let taken = desk.inspect(rt, number(rt, port), |port| port.taken());
        assert!(rt; taken == wanted, "port {port}");
    }
}

fn refuses<L: Ledger, M: Ledger, R: Wait + Abort>(
    rt: &R,
    desk: &Desk<L, M>,
    seat: &mut Seat<L, M>,
    port: u8,
    wanted: StepFault,
) -> bool {
    desk.post(rt, seat, number(rt, port), Event::MakeMap).err() == Some(wanted)
}

// Returns whether the failed port and a port that there is not are refused, and neither is counted.
fn refuses_both<L: Ledger, M: Ledger, R: Wait + Abort>(
    rt: &R,
    desk: &Desk<L, M>,
    seat: &mut Seat<L, M>,
) -> bool {
    let cause = cause(rt, 4);
    let down = StepFault::Refused(Refusal::PortDown { cause });
    refuses(rt, desk, seat, 0, down)
        && refuses(rt, desk, seat, 2, StepFault::NoSuchPort)
        && seat.counts() == [3, 0].as_slice()
}

// Admits an Alloc-ID at port 0, makes a map, and fails the port.
fn fail_after_a_map<L: Ledger, M: Ledger, R: Wait + Abort>(
    rt: &R,
    desk: &Desk<L, M>,
    seat: &mut Seat<L, M>,
) {
    for k in [0, 1, 5] {
        let _receipt = post(rt, desk, seat, 0, k);
    }
}

fn shows_both<L: Ledger, M: Ledger, R: Wait + Abort>(
    rt: &R,
    alloc: Global,
    of_ports: Blank,
    of_seats: Blank,
) -> bool
    requires ports { (of_ports.name ≡ L.name) × (of_ports.parts ≡ L.parts) × (L.parts ≡ 2) }
    requires seats { (of_seats.name ≡ M.name) × (of_seats.parts ≡ M.parts) × (M.parts ≡ 2) }
{
    let (desk, mut seats) = opened::<L, M>(rt, alloc, of_ports, of_seats);
    let mut seat = seat(rt, &mut seats);
    fail_after_a_map(rt, &desk, &mut seat);
    assert_inspections(rt, &desk);
    let is_refused = refuses_both(rt, &desk, &mut seat);
    let is_shown = is_failed(rt, alloc, &desk);
    let is_other_shown = is_unused(rt, alloc, &desk);
    let is_none = is_absent(rt, alloc, &desk);
    is_refused && is_shown && is_other_shown && is_none
}

#[test]
fn looks_show_the_present_port(rt: HostRuntime) {
    let (of_ports, of_seats) = (Blank::new(2), Blank::new(2));
    assert!(rt; shows_both::<Brand, Brand, HostRuntime>(&rt, rt.alloc(), of_ports, of_seats));
}

fn opening_fault<L: Ledger, M: Ledger>(
    alloc: Global,
    of_ports: Blank,
    of_seats: Blank,
    ports: &[(PortCfg, FrameNo)],
) -> Option<PlantFault>
    requires ports { (of_ports.name ≡ L.name) × (of_ports.parts ≡ L.parts)
        × (L.parts ≡ length ports.now) }
    requires seats { (of_seats.name ≡ M.name) × (of_seats.parts ≡ M.parts) × (M.parts ≡ 1) }
{
    Desk::<L, M>::open(alloc, of_ports, of_seats, ports, 1).err()
}

// Opens a desk of this number of ports.
fn opens(rt: &impl Abort, alloc: Global, count: usize) -> Option<PlantFault> {
    let ports = vec![in alloc; cfg(rt, 16, 0); count].expect(rt, "memory");
    let of_ports = Blank::new(ports.len() as u64);
    opening_fault::<Brand, Brand>(alloc, of_ports, Blank::new(1), ports.as_slice())
}

#[test]
fn has_1_to_64_ports(rt: HostRuntime) {
    for (ports, wanted) in [
        (0usize, Some(PlantFault::Ports)),
        (1, None),
        (64, None),
        (65, Some(PlantFault::Ports)),
    ] {
        assert!(rt; opens(&rt, rt.alloc(), ports) == wanted, "{ports}");
    }
}

// Posts an event at port 0, and posts it again if memory is refused.
fn post_again<L: Ledger, M: Ledger, R: Wait + Abort>(
    rt: &R,
    desk: &Desk<L, M>,
    seat: &mut Seat<L, M>,
    k: u8,
) -> Receipt {
    match desk.post(rt, seat, number(rt, 0), event(rt, 0, k)) {
        Ok(posted) => posted,
        Err(StepFault::Refused(Refusal::OutOfMemory)) => post(rt, desk, seat, 0, k),
        Err(_) => panic!(rt; "memory was refused"),
    }
}

// Looks at port 0, and again if memory is refused. Returns whether it has made a map.
fn has_map<L: Ledger, M: Ledger, R: Wait + Abort>(
    rt: &R,
    alloc: Global,
    desk: &Desk<L, M>,
) -> bool {
    match desk.look(rt, alloc, number(rt, 0)) {
        Ok(view) => view.last.is_some(),
        Err(fault) => {
            assert!(rt; fault == StepFault::Refused(Refusal::OutOfMemory));
            let view = desk.look(rt, alloc, number(rt, 0)).expect(rt, "a view");
            view.last.is_some()
        }
    }
}

// Posts each event at port 0, and looks after each. Returns whether each is at its index, and maps are shown.
fn are_shown<L: Ledger, M: Ledger, R: Wait + Abort>(
    rt: &R,
    alloc: Global,
    desk: &Desk<L, M>,
    seat: &mut Seat<L, M>,
) -> bool {
    for k in 0..EVENTS {
        let index = post_again(rt, desk, seat, k).index();
        if index != usize::from(k) || has_map(rt, alloc, desk) != (k > 0) {
            return false;
        }
    }
    true
}

// Posts, looks and closes. Returns whether each result is that with ample memory.
fn is_run<L: Ledger, M: Ledger, R: Wait + Abort>(
    rt: &R,
    alloc: Global,
    desk: Desk<L, M>,
    mut seats: Vec<Seat<L, M>>,
) -> bool {
    let mut seat = seat(rt, &mut seats);
    let is_shown = are_shown(rt, alloc, &desk, &mut seat);
    let is_counted = seat.counts() == [8, 0].as_slice();
    put(rt, &mut seats, seat);
    let is_taken = each_took(close(rt, desk, seats), &[8, 0]);
    is_shown && is_counted && is_taken
}

// Opens a desk and runs it. `None` if memory is refused to the opening.
fn run<L: Ledger, M: Ledger, R: Wait + Abort>(
    rt: &R,
    alloc: Global,
    of_ports: Blank,
    of_seats: Blank,
) -> Option<bool>
    requires ports { (of_ports.name ≡ L.name) × (of_ports.parts ≡ L.parts) × (L.parts ≡ 2) }
    requires seats { (of_seats.name ≡ M.name) × (of_seats.parts ≡ M.parts) × (M.parts ≡ 2) }
{
    match open::<L, M>(rt, alloc, of_ports, of_seats) {
        Ok((desk, seats)) => Some(is_run(rt, alloc, desk, seats)),
        Err(fault) => {
            assert!(rt; fault == PlantFault::Memory);
            None
        }
    }
}

fn run_two_seats(rt: &(impl Wait + Abort), alloc: Global) -> Option<bool> {
    run::<Brand, Brand, _>(rt, alloc, Blank::new(2), Blank::new(2))
}

// One failed allocation (`rt try --test --fail-alloc N`) changes no result.
#[test]
fn posts_again_what_memory_refused(rt: HostRuntime) {
    let is_same = match run_two_seats(&rt, rt.alloc()) {
        Some(is_same) => is_same,
        None => run_two_seats(&rt, rt.alloc()) == Some(true),
    };
    assert!(rt; is_same);
}
