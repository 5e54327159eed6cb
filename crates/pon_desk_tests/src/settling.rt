//! Settlements of a closed desk of two ports: the receipts of both ports are its entries, and what is left out, doubled or
//! exchanged is found.
ghost use Rattle.std.specs.Prelude.{◌≡◌};

use crate::bench::{close, number};
use crate::desks::{add, opened, post_all, post_in_turn};
use pon_desk::{Closed, Desk, Receipt, Unsettled};
use pon_port::Chapter;
use std::alloc::Global;
use std::marker::Brand;
use std::process::Abort;
use std::sync::Wait;
use std::sync::ledger::{Blank, Ledger};

/// The number of receipts of port 0: eight of its first chapter, and one of the chapter that it keeps.
const RECEIPTS: usize = 9;

// A closed desk, the chapters that port 0 returned, and the receipts of the posts at each port.
#[derive(Drop)]
struct Books {
    closed: Closed,
    chapters: Vec<Chapter>,
    first: Vec<Receipt>,
    second: Vec<Receipt>,
}

fn turn<L: Ledger, M: Ledger, R: Wait + Abort>(
    rt: &R,
    alloc: Global,
    desk: &Desk<L, M>,
) -> Vec<Chapter> {
    let mut chapters = Vec::new(alloc);
    let chapter = desk.turn(rt, number(rt, 0)).expect(rt, "a chapter");
    chapters.push(chapter).expect(rt, "memory");
    chapters
}

// Posts all kinds of events at both ports, turns port 0, and makes one more map there.
fn books_of<L: Ledger, M: Ledger, R: Wait + Abort>(
    rt: &R,
    alloc: Global,
    of_ports: Blank,
    of_seats: Blank,
) -> Books
    requires ports { (of_ports.name ≡ L.name) × (of_ports.parts ≡ L.parts) × (L.parts ≡ 2) }
    requires seats { (of_seats.name ≡ M.name) × (of_seats.parts ≡ M.parts) × (M.parts ≡ 2) }
{
    let (desk, mut seats) = opened::<L, M>(rt, alloc, of_ports, of_seats);
    let (mut first, second) = post_all(rt, alloc, &desk, seats.as_mut_slice());
    let chapters = turn(rt, alloc, &desk);
    add(
        rt,
        &mut first,
        post_in_turn(rt, &desk, seats.as_mut_slice(), 0, 1),
    );
    let closed = close(rt, desk, seats);
    Books {
        closed,
        chapters,
        first,
        second,
    }
}

fn closed_books(rt: &(impl Wait + Abort), alloc: Global) -> Books {
    books_of::<Brand, Brand, _>(rt, alloc, Blank::new(2), Blank::new(2))
}

// Settles a port with these chapters and receipts.
fn settled(
    rt: &impl Abort,
    books: &Books,
    port: u8,
    chapters: &[Chapter],
    receipts: &[Receipt],
) -> Option<Unsettled> {
    books
        .closed
        .settle(number(rt, port), chapters, receipts)
        .err()
}

fn settled_first(rt: &impl Abort, books: &Books) -> Option<Unsettled> {
    settled(
        rt,
        books,
        0,
        books.chapters.as_slice(),
        books.first.as_slice(),
    )
}

fn both_settle(rt: &impl Abort, books: &Books) -> bool {
    let second = settled(rt, books, 1, &[], books.second.as_slice());
    books.first.len() == RECEIPTS && settled_first(rt, books).is_none() && second.is_none()
}

#[test]
fn the_receipts_of_both_ports_settle(rt: HostRuntime) {
    let books = closed_books(&rt, rt.alloc());
    let is_settled = both_settle(&rt, &books);
    assert!(rt; is_settled);
}

// The receipts of one port at another, the chapters of one at another, and a port that there is not.
fn none_settles(rt: &impl Abort, books: &Books) -> bool {
    let (chapters, receipts) = (books.chapters.as_slice(), books.second.as_slice());
    settled(rt, books, 0, chapters, receipts) == Some(Unsettled::Receipt { k: 0 })
        && settled(rt, books, 1, chapters, receipts) == Some(Unsettled::Chapter { k: 0 })
        && settled(rt, books, 2, &[], receipts) == Some(Unsettled::Chapter { k: 0 })
}

#[test]
fn what_is_of_another_port_does_not_settle(rt: HostRuntime) {
    let books = closed_books(&rt, rt.alloc());
    let is_told = none_settles(&rt, &books);
    assert!(rt; is_told);
}

// A change of the receipts or the chapters of port 0.
#[derive(Clone, Copy)]
enum Change {
    WithoutReceipt(usize),
    // The receipt of this index comes once more, before the next one.
    Doubled(usize),
    // The receipt of this index and the next one are exchanged.
    Exchanged(usize),
    WithoutChapter,
    DoubledChapter,
}

static CHANGES: [(&str, Change, Unsettled); 9] = [
    (
        "without the first",
        Change::WithoutReceipt(0),
        Unsettled::Receipt { k: 0 },
    ),
    (
        "without the third",
        Change::WithoutReceipt(2),
        Unsettled::Receipt { k: 2 },
    ),
    (
        "without the last",
        Change::WithoutReceipt(8),
        Unsettled::Count,
    ),
    (
        "the third doubled",
        Change::Doubled(2),
        Unsettled::Receipt { k: 3 },
    ),
    (
        "the last doubled",
        Change::Doubled(8),
        Unsettled::Receipt { k: 9 },
    ),
    (
        "the first two exchanged",
        Change::Exchanged(0),
        Unsettled::Receipt { k: 0 },
    ),
    (
        "the last two exchanged",
        Change::Exchanged(7),
        Unsettled::Receipt { k: 7 },
    ),
    (
        "without the chapter",
        Change::WithoutChapter,
        Unsettled::Chapter { k: 0 },
    ),
    (
        "the chapter doubled",
        Change::DoubledChapter,
        Unsettled::Chapter { k: 1 },
    ),
];

pub(crate) fn taken(rt: &impl Abort, receipts: &mut Vec<Receipt>, k: usize) -> Receipt {
    assert!(rt; k < receipts.len());
    receipts.remove(k)
}

pub(crate) fn put_receipt(
    rt: &impl Abort,
    receipts: &mut Vec<Receipt>,
    k: usize,
    receipt: Receipt,
) {
    assert!(rt; k <= receipts.len());
    receipts.insert(k, receipt).expect(rt, "memory");
}

// Moves a receipt of the second list after the same place of the first.
pub(crate) fn double(
    rt: &impl Abort,
    receipts: &mut Vec<Receipt>,
    equal: &mut Vec<Receipt>,
    k: usize,
) {
    put_receipt(rt, receipts, k.wrapping_add(1), taken(rt, equal, k));
}

fn exchange(rt: &impl Abort, receipts: &mut Vec<Receipt>, k: usize) {
    let receipt = taken(rt, receipts, k);
    put_receipt(rt, receipts, k.wrapping_add(1), receipt);
}

fn double_chapter(rt: &impl Abort, chapters: &mut Vec<Chapter>, equal: &mut Vec<Chapter>) {
    let chapter = equal.pop().expect(rt, "a chapter");
    chapters.push(chapter).expect(rt, "memory");
}

// Makes the change. Doubles come from equal books.
fn make_change(rt: &impl Abort, books: &mut Books, equal: &mut Books, change: Change) {
    match change {
        Change::WithoutReceipt(k) => {
            let _receipt = taken(rt, &mut books.first, k);
        }
        Change::Doubled(k) => double(rt, &mut books.first, &mut equal.first, k),
        Change::Exchanged(k) => exchange(rt, &mut books.first, k),
        Change::WithoutChapter => books.chapters.clear(),
        Change::DoubledChapter => double_chapter(rt, &mut books.chapters, &mut equal.chapters),
    }
}

// Returns why port 0 does not settle after a change.
fn fault_after(rt: &(impl Wait + Abort), alloc: Global, change: Change) -> Option<Unsettled> {
    let mut books = closed_books(rt, alloc);
    let mut equal = closed_books(rt, alloc);
    make_change(rt, &mut books, &mut equal, change);
    settled_first(rt, &books)
}

#[test]
fn a_change_of_receipts_or_chapters_is_found(rt: HostRuntime) {
    for (name, change, wanted) in CHANGES.iter() {
        let fault = fault_after(&rt, rt.alloc(), *change);
        assert!(rt; fault == Some(*wanted), "{name}");
    }
}

fn unused_chapters_at<L: Ledger, M: Ledger, R: Wait + Abort>(
    rt: &R,
    alloc: Global,
    of_ports: Blank,
    of_seats: Blank,
) -> Vec<Chapter>
    requires ports { (of_ports.name ≡ L.name) × (of_ports.parts ≡ L.parts) × (L.parts ≡ 2) }
    requires seats { (of_seats.name ≡ M.name) × (of_seats.parts ≡ M.parts) × (M.parts ≡ 2) }
{
    let (desk, _seats) = opened::<L, M>(rt, alloc, of_ports, of_seats);
    turn(rt, alloc, &desk)
}

// Returns the first chapter of port 0 of another desk, without entries.
fn unused_chapters(rt: &(impl Wait + Abort), alloc: Global) -> Vec<Chapter> {
    unused_chapters_at::<Brand, Brand, _>(rt, alloc, Blank::new(2), Blank::new(2))
}

// An empty chapter 0 of another desk of the same configuration opens as that of this one.
#[test]
fn a_chapter_of_another_run_is_found(rt: HostRuntime) {
    let mut books = closed_books(&rt, rt.alloc());
    books.chapters = unused_chapters(&rt, rt.alloc());
    let fault = settled_first(&rt, &books);
    assert!(rt; fault == Some(Unsettled::Receipt { k: 0 }));
}

// Settles port 0 with these chapters and no receipts, after its entries were returned in a chapter.
fn settled_without_receipts_at<L: Ledger, M: Ledger, R: Wait + Abort>(
    rt: &R,
    alloc: Global,
    of_ports: Blank,
    of_seats: Blank,
    chapters: &[Chapter],
) -> Option<Unsettled>
    requires ports { (of_ports.name ≡ L.name) × (of_ports.parts ≡ L.parts) × (L.parts ≡ 2) }
    requires seats { (of_seats.name ≡ M.name) × (of_seats.parts ≡ M.parts) × (M.parts ≡ 2) }
{
    let (desk, mut seats) = opened::<L, M>(rt, alloc, of_ports, of_seats);
    let _receipts = post_all(rt, alloc, &desk, seats.as_mut_slice());
    let _returned = turn(rt, alloc, &desk);
    let closed = close(rt, desk, seats);
    closed.settle(number(rt, 0), chapters, &[]).err()
}

// Settles port 0 with these chapters and no receipts.
fn settled_without_receipts(
    rt: &(impl Wait + Abort),
    alloc: Global,
    chapters: &[Chapter],
) -> Option<Unsettled> {
    let (of_ports, of_seats) = (Blank::new(2), Blank::new(2));
    settled_without_receipts_at::<Brand, Brand, _>(rt, alloc, of_ports, of_seats, chapters)
}

// The port took eight entries, of which neither the chapters nor the receipts have one.
#[test]
fn entries_that_are_in_no_chapter_are_missed(rt: HostRuntime) {
    let unused = unused_chapters(&rt, rt.alloc());
    let fault = settled_without_receipts(&rt, rt.alloc(), unused.as_slice());
    assert!(rt; fault == Some(Unsettled::Count));
}
