//! A receipt that is lost, doubled or changed is found among those that four threads gathered. The posts of a port are
//! repeated at another desk, in the order of their places and by the same seats: this gives equal receipts.
ghost use Rattle.std.specs.Prelude.{◌≡◌};

use crate::bench::number;
use crate::desks::add;
use crate::gathering::{account_of, fault_at, gather, open, turn};
use crate::settling::{double, put_receipt, taken};
use pon_desk::{Desk, Receipt, Seat, Unsettled};
use std::alloc::Global;
use std::marker::Brand;
use std::process::Abort;
use std::sync::Wait;
use std::sync::ledger::{Blank, Ledger};
use std::thread::Threads;

// Posts the event of a receipt at port 0, by the seat of this distance from the seat of the receipt.
fn post_again<L: Ledger, M: Ledger, R: Wait + Abort>(
    rt: &R,
    desk: &Desk<L, M>,
    seats: &mut [Seat<L, M>],
    receipt: &Receipt,
    distance: usize,
) -> Receipt {
    let seat = seats.get_mut(receipt.seat().wrapping_add(distance) % 4);
    desk.post(
        rt,
        seat.expect(rt, "a seat"),
        number(rt, 0),
        receipt.entry().event(),
    )
    .expect(rt, "an event that is taken")
}

// Repeats the posts of these receipts at port 0 of another desk: the first one by another seat, if `distance` is not 0.
fn repeat_at<L: Ledger, M: Ledger, R: Wait + Abort>(
    rt: &R,
    alloc: Global,
    of_ports: Blank,
    of_seats: Blank,
    receipts: &[Receipt],
    distance: usize,
) -> Vec<Receipt>
    requires ports { (of_ports.name ≡ L.name) × (of_ports.parts ≡ L.parts) × (L.parts ≡ 3) }
    requires seats { (of_seats.name ≡ M.name) × (of_seats.parts ≡ M.parts) × (M.parts ≡ 4) }
{
    let (desk, mut seats) = open::<L, M>(rt, alloc, of_ports, of_seats);
    let mut repeated = Vec::new(alloc);
    let mut chapter = 0;
    for (k, receipt) in receipts.iter().enumerate() {
        for _ in chapter..receipt.chapter() {
            let _chapter = turn(rt, &desk, 0);
        }
        chapter = receipt.chapter();
        let distance = if k == 0 { distance } else { 0 };
        let again = post_again(rt, &desk, seats.as_mut_slice(), receipt, distance);
        add(rt, &mut repeated, again);
    }
    repeated
}

fn repeat(
    rt: &(impl Wait + Abort),
    alloc: Global,
    receipts: &[Receipt],
    distance: usize,
) -> Vec<Receipt> {
    repeat_at::<Brand, Brand, _>(rt, alloc, Blank::new(3), Blank::new(4), receipts, distance)
}

// Returns the index of the last receipt of the seat that made the first post, which made a later one too.
fn last_of_first_seat(rt: &impl Abort, receipts: &[Receipt]) -> usize {
    let seat = receipts.first().expect(rt, "a receipt").seat();
    let mut last = 0;
    for (k, receipt) in receipts.iter().enumerate() {
        if receipt.seat() == seat {
            last = k;
        }
    }
    assert!(rt; last > 0);
    last
}

// A change of the receipts of port 0.
#[derive(Clone, Copy)]
enum Change {
    Nothing,
    Lost(usize),
    LastLost,
    Doubled(usize),
    // A receipt names one earlier post of its seat less.
    OtherNth,
}

static CHANGES: [(&str, Change); 7] = [
    ("repeated", Change::Nothing),
    ("the first lost", Change::Lost(0)),
    ("the sixth lost", Change::Lost(5)),
    ("the last lost", Change::LastLost),
    ("the first doubled", Change::Doubled(0)),
    ("the tenth doubled", Change::Doubled(9)),
    ("a number changed", Change::OtherNth),
];

// Puts the receipt of another desk in the place of an equal one with another number of earlier posts. Returns its index.
fn replace_last(rt: &(impl Wait + Abort), alloc: Global, receipts: &mut Vec<Receipt>) -> usize {
    let mut other = repeat(rt, alloc, receipts.as_slice(), 1);
    let k = last_of_first_seat(rt, receipts.as_slice());
    let _receipt = taken(rt, receipts, k);
    put_receipt(rt, receipts, k, taken(rt, &mut other, k));
    k
}

// Makes the change, and returns the fault that is wanted.
fn make_change(
    rt: &(impl Wait + Abort),
    alloc: Global,
    receipts: &mut Vec<Receipt>,
    change: Change,
) -> Option<Unsettled> {
    let mut equal = repeat(rt, alloc, receipts.as_slice(), 0);
    match change {
        Change::Nothing => {
            *receipts = equal;
            None
        }
        Change::Lost(k) => {
            let _receipt = taken(rt, receipts, k);
            Some(Unsettled::Receipt { k })
        }
        Change::LastLost => {
            receipts.truncate(receipts.len().saturating_sub(1));
            Some(Unsettled::Count)
        }
        Change::Doubled(k) => {
            double(rt, receipts, &mut equal, k);
            Some(Unsettled::Receipt {
                k: k.wrapping_add(1),
            })
        }
        Change::OtherNth => {
            let k = replace_last(rt, alloc, receipts);
            Some(Unsettled::Receipt { k })
        }
    }
}

fn is_found(rt: &(impl Threads + Wait + Abort + Sync), alloc: Global, change: Change) -> bool {
    let mut gathering = gather(rt, alloc);
    let receipts = &mut account_of(rt, gathering.accounts.as_mut_slice(), 0).receipts;
    let wanted = make_change(rt, alloc, receipts, change);
    fault_at(rt, &gathering, 0) == wanted
}

#[test]
fn a_change_of_gathered_receipts_is_found(rt: HostRuntime) {
    for (name, change) in CHANGES.iter() {
        assert!(rt; is_found(&rt, rt.alloc(), *change), "{name}");
    }
}
