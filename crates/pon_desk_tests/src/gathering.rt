//! Four seats post at three ports from four threads, and turn them between. The receipts and the chapters that the threads
//! gather settle each port, and a receipt that is lost, doubled or changed is found.
ghost use Rattle.std.specs.Prelude.{◌≡◌, ◌<◌};

use crate::bench::{cfg, close, event, number, put, seat};
use pon_desk::{Closed, Desk, Receipt, Seat, Unsettled};
use pon_port::Chapter;
use std::alloc::Global;
use std::marker::Brand;
use std::process::Abort;
use std::sync::Wait;
use std::sync::ledger::{Blank, Ledger};
use std::thread;
use std::thread::Threads;

const PORTS: u8 = 3;

// Number of the calls of each thread.
const CALLS: u32 = 60;

// The kinds of events of `event`, maps most often. No port fails, so no map is refused.
static KINDS: [u8; 8] = [0, 1, 1, 1, 1, 2, 3, 7];

// What a thread has: its seat, the seed of its choices, the receipts of its posts, and the chapters of its turns with the
// numbers of their ports.
#[derive(Drop)]
struct Hand<L: Ledger, M: Ledger> {
    seat: Seat<L, M>,
    seed: u64,
    receipts: Vec<Receipt>,
    chapters: Vec<(u8, Chapter)>,
}

// Returns the next number of a fixed sequence, below `below`.
fn next_below(seed: &mut u64, below: u64) -> u64
    requires { 0 < below }
    ensures { result < below }
{
    *seed = seed
        .wrapping_mul(6364136223846793005)
        .wrapping_add(1442695040888963407);
    (*seed >> 33) % below
}

pub(crate) fn turn<L: Ledger, M: Ledger, R: Wait + Abort>(
    rt: &R,
    desk: &Desk<L, M>,
    port: u8,
) -> Chapter {
    desk.turn(rt, number(rt, port)).expect(rt, "a chapter")
}

// Posts an event at a port, and keeps the receipt if the port takes it.
fn try_post<L: Ledger, M: Ledger, R: Wait + Abort>(
    rt: &R,
    desk: &Desk<L, M>,
    hand: &mut Hand<L, M>,
    port: u8,
    kind: u8,
) {
    let posted = desk.post(rt, &mut hand.seat, number(rt, port), event(rt, 0, kind));
    if let Ok(receipt) = posted {
        hand.receipts.push(receipt).expect(rt, "memory");
    }
}

// Posts an event at a port, or turns it, once in nine calls.
fn act<L: Ledger, M: Ledger, R: Wait + Abort>(rt: &R, desk: &Desk<L, M>, hand: &mut Hand<L, M>) {
    let port = next_below(&mut hand.seed, u64::from(PORTS)) as u8;
    let choice = next_below(&mut hand.seed, 9) as usize;
    match KINDS.get(choice) {
        Some(kind) => try_post(rt, desk, hand, port, *kind),
        None => {
            let chapter = turn(rt, desk, port);
            hand.chapters.push((port, chapter)).expect(rt, "memory");
        }
    }
}

fn work<L: Ledger, M: Ledger, R: Wait + Abort>(
    rt: &R,
    desk: &Desk<L, M>,
    mut hand: Hand<L, M>,
) -> Hand<L, M> {
    for _ in 0..CALLS {
        act(rt, desk, &mut hand);
    }
    hand
}

fn work_by_two<L: Ledger + Send + Sync, M: Ledger + Send + Sync, R: Threads + Wait + Abort + Sync>(
    rt: &R,
    desk: &Desk<L, M>,
    one: Hand<L, M>,
    two: Hand<L, M>,
) -> (Hand<L, M>, Hand<L, M>) {
    thread::join(rt, move || work(rt, desk, one), move || work(rt, desk, two))
}

// What is known of a port: its chapters by their numbers, and the receipts of its posts by their places.
#[derive(Drop)]
pub(crate) struct Account {
    pub(crate) chapters: Vec<Chapter>,
    pub(crate) receipts: Vec<Receipt>,
}

// A closed desk, and what is known of its ports.
#[derive(Drop)]
pub(crate) struct Gathering {
    pub(crate) closed: Closed,
    pub(crate) accounts: Vec<Account>,
}

pub(crate) fn account_of<'a>(
    rt: &impl Abort,
    accounts: &'a mut [Account],
    port: u8,
) -> &'a mut Account {
    accounts.get_mut(usize::from(port)).expect(rt, "a port")
}

fn add_receipt(rt: &impl Abort, accounts: &mut [Account], receipt: Receipt) {
    let account = account_of(rt, accounts, receipt.port().get());
    account.receipts.push(receipt).expect(rt, "memory");
}

fn add_chapter(rt: &impl Abort, accounts: &mut [Account], port: u8, chapter: Chapter) {
    let account = account_of(rt, accounts, port);
    account.chapters.push(chapter).expect(rt, "memory");
}

// Puts the chapters of each port in the order of their numbers, and its receipts in that of their places.
fn sort(rt: &impl Abort, alloc: Global, accounts: &mut [Account]) {
    for account in accounts {
        let Account { chapters, receipts } = account;
        let chapters = chapters.as_mut_slice();
        chapters
            .sort_by_key(alloc, |chapter| chapter.number())
            .expect(rt, "memory");
        let receipts = receipts.as_mut_slice();
        receipts
            .sort_by_key(alloc, |receipt| (receipt.chapter(), receipt.index()))
            .expect(rt, "memory");
    }
}

// Gives a thread's seat back, and adds what it gathered to the accounts.
fn settle_hand<L: Ledger, M: Ledger>(
    rt: &impl Abort,
    accounts: &mut [Account],
    seats: &mut Vec<Seat<L, M>>,
    hand: Hand<L, M>,
) {
    let Hand {
        seat,
        seed: _,
        receipts,
        chapters,
    } = hand;
    put(rt, seats, seat);
    for receipt in receipts {
        add_receipt(rt, accounts, receipt);
    }
    for (port, chapter) in chapters {
        add_chapter(rt, accounts, port, chapter);
    }
}

fn hand_of<L: Ledger, M: Ledger>(
    rt: &impl Abort,
    alloc: Global,
    seats: &mut Vec<Seat<L, M>>,
    seed: u64,
) -> Hand<L, M> {
    Hand {
        seat: seat(rt, seats),
        seed,
        receipts: Vec::new(alloc),
        chapters: Vec::new(alloc),
    }
}

fn no_accounts(rt: &impl Abort, alloc: Global) -> Vec<Account> {
    let mut accounts = Vec::new(alloc);
    for _ in 0..PORTS {
        let account = Account {
            chapters: Vec::new(alloc),
            receipts: Vec::new(alloc),
        };
        accounts.push(account).expect(rt, "memory");
    }
    accounts
}

pub(crate) fn open<L: Ledger, M: Ledger>(
    rt: &impl Abort,
    alloc: Global,
    of_ports: Blank,
    of_seats: Blank,
) -> (Desk<L, M>, Vec<Seat<L, M>>)
    requires ports { (of_ports.name ≡ L.name) × (of_ports.parts ≡ L.parts) × (L.parts ≡ 3) }
    requires seats { (of_seats.name ≡ M.name) × (of_seats.parts ≡ M.parts) × (M.parts ≡ 4) }
{
    let ports = [cfg(rt, 16, 0), cfg(rt, 32, 0), cfg(rt, 16, 7)];
    Desk::<L, M>::open(alloc, of_ports, of_seats, &ports, 4)
        .ok()
        .expect(rt, "a desk")
}

// Four threads post and turn at a desk, which is closed behind them.
fn gather_at<L: Ledger + Send + Sync, M: Ledger + Send + Sync, R: Threads + Wait + Abort + Sync>(
    rt: &R,
    alloc: Global,
    of_ports: Blank,
    of_seats: Blank,
) -> Gathering
    requires ports { (of_ports.name ≡ L.name) × (of_ports.parts ≡ L.parts) × (L.parts ≡ 3) }
    requires seats { (of_seats.name ≡ M.name) × (of_seats.parts ≡ M.parts) × (M.parts ≡ 4) }
{
    let (desk, mut seats) = open::<L, M>(rt, alloc, of_ports, of_seats);
    let (one, two) = (
        hand_of(rt, alloc, &mut seats, 1),
        hand_of(rt, alloc, &mut seats, 2),
    );
    let (three, four) = (
        hand_of(rt, alloc, &mut seats, 3),
        hand_of(rt, alloc, &mut seats, 4),
    );
    let at = &desk;
    let ((one, two), (three, four)) = thread::join(
        rt,
        move || work_by_two(rt, at, one, two),
        move || work_by_two(rt, at, three, four),
    );
    let mut accounts = no_accounts(rt, alloc);
    for hand in [one, two, three, four] {
        settle_hand(rt, accounts.as_mut_slice(), &mut seats, hand);
    }
    sort(rt, alloc, accounts.as_mut_slice());
    let closed = close(rt, desk, seats);
    Gathering { closed, accounts }
}

pub(crate) fn gather(rt: &(impl Threads + Wait + Abort + Sync), alloc: Global) -> Gathering {
    gather_at::<Brand, Brand, _>(rt, alloc, Blank::new(3), Blank::new(4))
}

// Settles a port of a run.
pub(crate) fn fault_at(rt: &impl Abort, gathering: &Gathering, port: u8) -> Option<Unsettled> {
    let account = gathering
        .accounts
        .get(usize::from(port))
        .expect(rt, "a port");
    let (chapters, receipts) = (account.chapters.as_slice(), account.receipts.as_slice());
    gathering
        .closed
        .settle(number(rt, port), chapters, receipts)
        .err()
}

#[test]
fn the_gathered_receipts_settle_each_port(rt: HostRuntime) {
    let gathering = gather(&rt, rt.alloc());
    for port in 0..PORTS {
        assert!(rt; fault_at(&rt, &gathering, port).is_none(), "port {port}");
    }
}
