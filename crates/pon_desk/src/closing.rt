ghost use Rattle.std.specs.Prelude.{◌≡◌, ◌≢◌, ◌+◌, ◌^◌, ◌<◌, ◌≤◌, ℕ, replicate, length, map, slice_index, sum, sum_by, vec_len, vec_capacity, MatchOption, IfOk, IfErr};
ghost use Rattle.pon_desk.specs.Counts.{taken_of, AreSums, IsEven, IsUneven};

use crate::books::Books;
use crate::held::Held;
use crate::seat::Seat;
use pon_port::Port;
use std::sync::Mutex;
use std::sync::ledger::{Book, Ledger, Share};

// Joins the shares of all ports, and moves the ports to the room reserved for them.
fn join_ports<L: Ledger>(
    ports: Vec<Mutex<Held<L>>>,
    all: &mut Share<L>,
    mut room: Vec<Port>,
) -> Vec<Port>
    requires room { (vec_len room ≡ 0) × (vec_len ports ≤ vec_capacity room) }
    requires none { (all.old.parts ≡ 0) × (all.old.amount ≡ 0) }
    ensures ports { vec_len result ≡ vec_len ports }
    ensures parts { all.new.parts ≡ vec_len ports }
    ensures amount { all.new.amount ≡ sum_by taken_of result.items }
{
    for lock in ports {
        let Held { port, share } = lock.into_inner();
        all.merge(share);
        room.push_reserved(port);
    }
    room
}

// Adds a seat's count at each port.
fn add_counts(sums: &mut [u64], counts: &[u64])
    requires one_each { length sums.old ≡ length counts.now }
    requires fits { sum sums.old + sum counts.now < 2 ^ 64 }
    ensures { (p : ℕ) → p < length counts.now
        → slice_index sums.new p ≡ slice_index sums.old p + slice_index counts.now p }
{
    for p in 0..counts.len() {
        sums[p] += counts[p];
    }
}

// Takes a seat apart. Receipts that it still keeps are dropped.
fn counts_and_share<M: Ledger, L: Ledger>(seat: Seat<L, M>) -> (Vec<u64>, Share<M>)
    ensures counts { result.0.items ≡ seat.counts }
    ensures one_each { length seat.counts ≡ L.parts }
    ensures part { result.1.parts ≡ 1 }
    ensures amount { result.1.amount ≡ sum seat.counts }
{
    let Seat { counts, share, .. } = seat;
    (counts, share)
}

// Joins the shares of all seats, and adds their counts port by port.
fn join_seats<M: Ledger, L: Ledger>(
    seats: Vec<Seat<L, M>>,
    book: &mut Book<M>,
    all: &mut Share<M>,
    sums: &mut [u64],
)
    requires zero { sums.old ≡ replicate L.parts 0 }
    requires none { (all.old.parts ≡ 0) × (all.old.amount ≡ 0) }
    requires fits { book.old.total < 2 ^ 64 }
    ensures sums { AreSums sums.new L.parts seats.items }
    ensures total { book.new.total ≡ book.old.total }
    ensures parts { all.new.parts ≡ vec_len seats }
    ensures most { vec_len seats ≤ M.parts }
    ensures amount { all.new.amount ≡ sum sums.new }
{
    for seat in seats {
        let (counts, share) = counts_and_share(seat);
        all.merge(share);
        book.audit(all);
        add_counts(sums, counts.as_slice());
    }
}

// Finds the first port that took another number of entries than the seats count at it.
fn first_uneven(ports: &[Port], counts: &[u64]) -> Option<usize>
    requires { length ports.now ≡ length counts.now }
    ensures { MatchOption result
        ((p : ℕ) → p < length ports.now
        → slice_index (map taken_of ports.now) p ≡ slice_index counts.now p)
        (λ p. (p < length ports.now)
        × (slice_index (map taken_of ports.now) p ≢ slice_index counts.now p)) }
{
    for p in 0..ports.len() {
        if ports[p].taken() != counts[p] {
            return Some(p);
        }
    }
    None
}

// Compares the entries of each port with the counts of all seats of its desk: returns the ports if these are equal at
// each port, otherwise the ports with the sums of the seats' counts.
pub(crate) fn compare_counts<L: Ledger, M: Ledger>(
    books: Books<L, M>,
    ports: Vec<Mutex<Held<L>>>,
    seats: Vec<Seat<L, M>>,
    room: Vec<Port>,
    counts: Vec<u64>,
) -> Result<Vec<Port>, (Vec<Port>, Vec<u64>)>
    requires ports { vec_len ports ≡ L.parts }
    requires seats { M.parts ≤ vec_len seats }
    requires room { (vec_len room ≡ 0) × (vec_len ports ≤ vec_capacity room) }
    requires zero { counts.items ≡ replicate L.parts 0 }
    ensures all { vec_len seats ≡ M.parts }
    ensures even { IfOk result (λ closed. (vec_len closed ≡ vec_len ports)
        × IsEven closed.items seats.items) }
    ensures uneven { IfErr result (λ fault. (vec_len fault.0 ≡ vec_len ports)
        × AreSums fault.1.items (vec_len ports) seats.items
        × IsUneven fault.0.items fault.1.items) }
{
    let Books {
        entries: _,
        mut of_ports,
        mut of_seats,
        mut all_ports,
        mut all_seats,
    } = books;
    let mut counts = counts;
    let ports = join_ports(ports, &mut all_ports, room);
    of_ports.audit(&mut all_ports);
    join_seats(seats, &mut of_seats, &mut all_seats, counts.as_mut_slice());
    of_seats.audit(&mut all_seats);
    match first_uneven(ports.as_slice(), counts.as_slice()) {
        None => Ok(ports),
        Some(_) => Err((ports, counts)),
    }
}
