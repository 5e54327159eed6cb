ghost use Rattle.std.specs.Prelude.{◌≡◌, ◌+◌, ◌<◌, ◌^◌, true, false};

use std::sync::ledger::{Book, Ledger, Share};

/// The greatest number of entries of all ports of a desk.
pub(crate) const MAX_ENTRIES: u64 = u64::MAX;

/// The books of both ledgers, under one lock: the posts of all ports, and the posts of all seats. The two totals are
/// equal.
#[derive(Drop)]
pub struct Books<L: Ledger, M: Ledger> {
    // Number of entries that all ports of the desk took.
    pub(crate) entries: u64,
    pub(crate) of_ports: Book<L>,
    pub(crate) of_seats: Book<M>,
    // Shares without parts, to which those of all ports and of all seats are joined when the desk is closed.
    pub(crate) all_ports: Share<L>,
    pub(crate) all_seats: Share<M>,
    ghost counted: { entries ≡ of_ports.total },
    ghost equal: { of_ports.total ≡ of_seats.total },
    ghost no_port: { (all_ports.parts ≡ 0) × (all_ports.amount ≡ 0) },
    ghost no_seat: { (all_seats.parts ≡ 0) × (all_seats.amount ≡ 0) },
}

impl<L: Ledger, M: Ledger> Books<L, M> {
    // Makes books with this number of entries counted.
    pub(crate) fn new(
        entries: u64,
        of_ports: Book<L>,
        of_seats: Book<M>,
        all_ports: Share<L>,
        all_seats: Share<M>,
    ) -> Books<L, M>
        requires books { (of_ports.total ≡ entries) × (of_seats.total ≡ entries) }
        requires ports { (all_ports.parts ≡ 0) × (all_ports.amount ≡ 0) }
        requires seats { (all_seats.parts ≡ 0) × (all_seats.amount ≡ 0) }
    {
        Books {
            entries,
            of_ports,
            of_seats,
            all_ports,
            all_seats,
        }
    }

    // Counts a post at its port and at its seat. `false` if the number of all entries is at its maximum.
    pub(crate) fn count(&mut self, port: &mut Share<L>, seat: &mut Share<M>) -> bool
        requires port { 0 < port.old.parts }
        requires seat { 0 < seat.old.parts }
        ensures parts { (port.new.parts ≡ port.old.parts) × (seat.new.parts ≡ seat.old.parts) }
        ensures at_port { result ≡ true → port.new.amount ≡ port.old.amount + 1 }
        ensures at_seat { result ≡ true → seat.new.amount ≡ seat.old.amount + 1 }
        ensures fits { result ≡ true → seat.new.amount < 2 ^ 64 }
        ensures most { result ≡ false → self.old.entries ≡ MAX_ENTRIES }
        ensures full { result ≡ false →
            (port.new.amount ≡ port.old.amount) × (seat.new.amount ≡ seat.old.amount) }
    {
        if self.entries == MAX_ENTRIES {
            return false;
        }
        let Books {
            entries,
            of_ports,
            of_seats,
            all_ports: _,
            all_seats: _,
        } = self;
        of_ports.add(port, 1);
        of_seats.add(seat, 1);
        of_seats.audit(seat);
        *entries += 1;
        true
    }

    // Reverses the count of a post that its port refused.
    pub(crate) fn uncount(&mut self, port: &mut Share<L>, seat: &mut Share<M>)
        requires port { 0 < port.old.amount }
        requires seat { 0 < seat.old.amount }
        ensures parts { (port.new.parts ≡ port.old.parts) × (seat.new.parts ≡ seat.old.parts) }
        ensures port { port.new.amount + 1 ≡ port.old.amount }
        ensures seat { seat.new.amount + 1 ≡ seat.old.amount }
    {
        let Books {
            entries,
            of_ports,
            of_seats,
            all_ports: _,
            all_seats: _,
        } = self;
        of_ports.sub(port, 1);
        of_seats.sub(seat, 1);
        *entries -= 1;
    }
}
