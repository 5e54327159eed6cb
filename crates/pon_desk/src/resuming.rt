//! Ports that took entries before they stand at a desk: their entries are counted at them, and at one seat.

ghost use Rattle.std.specs.Prelude.{◌≡◌, ◌+◌, ◌<◌, IfErr, IfOk, OnOk, length, map, sum};
ghost use Rattle.std.specs.Vec.{vec_len};
ghost use Rattle.pon_desk.specs.Counts.{AreResumed, past_seat, taken_of};
ghost use Rattle.pon_desk.specs.Faults.{TellsCounting};

use crate::books::MAX_ENTRIES;
use crate::fault::DeskFault;
use crate::held::Held;
use crate::opening::open_seats;
use crate::seat::Seat;
use pon_lists::Kept;
use pon_port::Port;
use std::alloc::{AllocError, Global};
use std::marker::PhantomData;
use std::sync::ledger::{Book, Ledger, Share};

/// Ports with their parts of a ledger, the number of entries that each took, and that of all.
#[derive(Drop)]
pub(crate) struct Counted<L: Ledger> {
    pub(crate) held: Vec<Held<L>>,
    pub(crate) counts: Vec<u64>,
    pub(crate) entries: u64,
}

// Gives a port its part of the ledger, and counts its entries there.
fn hold<L: Ledger>(port: Port, book: &mut Book<L>, all: &mut Share<L>) -> Held<L>
    requires part { 0 < all.old.parts }
    requires none { all.old.amount ≡ 0 }
    ensures port { result ≡ port }
    ensures total { book.new.total ≡ book.old.total + taken_of port }
    ensures part { all.new.parts + 1 ≡ all.old.parts }
    ensures none { all.new.amount ≡ 0 }
{
    let mut share = all.split_off(1, 0);
    book.add(&mut share, port.taken());
    Held { port, share }
}

/// Gives each port its part of the ledger, and counts their entries there. `Entries` only if all ports took 2^64 entries or
/// more together, and `Memory` only if memory is refused.
pub(crate) fn count_ports<L: Ledger>(
    alloc: Global,
    ports: Vec<Port>,
    book: &mut Book<L>,
    all: &mut Share<L>,
) -> Result<Counted<L>, DeskFault>
    requires parts { all.old.parts ≡ vec_len ports }
    requires none { (all.old.amount ≡ 0) × (book.old.total ≡ 0) }
    ensures held { IfOk result (λ c. vec_len c.held ≡ vec_len ports) }
    ensures counts { IfOk result (λ c. c.counts.items ≡ map taken_of ports.items) }
    ensures entries { IfOk result (λ c. c.entries ≡ sum c.counts.items) }
    ensures total { IfOk result (λ c. book.new.total ≡ c.entries) }
    ensures parts { OnOk result ((all.new.parts ≡ 0) × (all.new.amount ≡ 0)) }
    ensures err { IfErr result (λ fault. TellsCounting ports.items fault) }
{
    let mut held = Vec::with_capacity(alloc, ports.len())?;
    let mut counts = Vec::with_capacity(alloc, ports.len())?;
    let mut entries = 0;
    for port in ports {
        let taken = port.taken();
        if taken > MAX_ENTRIES - entries {
            return Err(DeskFault::Entries);
        }
        entries += taken;
        held.push_reserved(hold(port, book, all));
        counts.push_reserved(taken);
    }
    Ok(Counted {
        held,
        counts,
        entries,
    })
}

// Opens the seat that counts the entries which the ports took before, with its part of the ledger.
fn past_seat<L: Ledger, M: Ledger>(
    number: usize,
    counts: Vec<u64>,
    entries: u64,
    book: &mut Book<M>,
    all: &mut Share<M>,
) -> Seat<L, M>
    requires ports { length counts.items ≡ L.parts }
    requires entries { entries ≡ sum counts.items }
    requires part { 0 < all.old.parts }
    requires none { all.old.amount ≡ 0 }
    ensures seat { result ≡ past_seat number counts.items }
    ensures total { book.new.total ≡ book.old.total + entries }
    ensures part { all.new.parts + 1 ≡ all.old.parts }
    ensures none { all.new.amount ≡ 0 }
{
    let mut share = all.split_off(1, 0);
    book.add(&mut share, entries);
    Seat {
        number,
        counts,
        kept: Kept::Nothing,
        share,
        of: PhantomData,
    }
}

/// Opens this number of seats, each with one part of the ledger; the last one counts the entries that the ports took before.
/// `Err` only if memory is refused.
pub(crate) fn resume_seats<L: Ledger, M: Ledger>(
    alloc: Global,
    seats: usize,
    counts: Vec<u64>,
    entries: u64,
    book: &mut Book<M>,
    all: &mut Share<M>,
) -> Result<Vec<Seat<L, M>>, AllocError>
    requires ports { length counts.items ≡ L.parts }
    requires entries { entries ≡ sum counts.items }
    requires seats { (0 < seats) × (all.old.parts ≡ seats) }
    requires none { all.old.amount ≡ 0 }
    ensures seats { IfOk result (λ opened. AreResumed seats counts.items opened.items) }
    ensures total { book.new.total ≡ book.old.total + entries }
    ensures parts { OnOk result ((all.new.parts ≡ 0) × (all.new.amount ≡ 0)) }
{
    let ports = counts.len();
    let past = past_seat(seats - 1, counts, entries, book, all);
    let mut opened = open_seats::<L, M>(alloc, ports, seats - 1, all)?;
    opened.push(past)?;
    Ok(opened)
}
