ghost use Rattle.std.specs.Prelude.{◌≡◌, ◌+◌, ◌<◌, ◌^◌, length, slice_index, slice_set, sum};

use crate::receipt::Receipt;
use pon_lists::Kept;
use pon_units::PortNo;
use std::alloc::Global;
use std::marker::{Model, PhantomData};
use std::sync::ledger::{Ledger, Share};

/// The right to post at the ports of one desk, with its number and the number of its posts at each port. It may keep the
/// receipts of its posts.
///
/// Contracts see a seat as these numbers and receipts. There is one number for each port of the desk, since the ledger
/// of the ports is in the type.
#[derive(Drop)]
pub struct Seat<L: Ledger, M: Ledger> {
    pub(crate) number: usize,
    pub(crate) counts: Vec<u64>,
    pub(crate) kept: Kept<Receipt>,
    pub(crate) share: Share<M>,
    pub(crate) of: PhantomData<L>,
}

impl<L: Ledger, M: Ledger> Model for Seat<L, M> {
    ghost use Rattle.std.specs.Prelude.{◌≡◌, length, sum};
    ghost use Rattle.pon_desk.specs.Counts.{SeatState};
    ghost use Rattle.pon_lists.specs.Kept.{kept_items};

    ghost Value = { SeatState };

    ghost view = { λ s. record {
      number = s.number;
      counts = s.counts.items;
      receipts = kept_items s.kept;
    } };

    ghost invariant = { λ s. (length s.counts.items ≡ L.parts)
        × (s.share.parts ≡ 1) × (s.share.amount ≡ sum s.counts.items) };
}

impl<L: Ledger, M: Ledger> Seat<L, M> {
    ghost use Rattle.std.specs.Prelude.{◌≡◌, [], length, MatchOption, None, Some};
    ghost use Rattle.pon_lists.specs.Kept.{AddsTo};

    /// Place of the seat in the list that [`Desk::open`](crate::Desk::open) returned, from 0. No call changes it.
    pub fn number(&self) -> usize
        ensures { result ≡ self.now.number }
    {
        self.number
    }

    /// Number of posts made with this seat at each port, in the order of the ports' numbers.
    pub fn counts(&self) -> &[u64]
        ensures value { result.now ≡ self.now.counts }
        ensures one_each { length self.now.counts ≡ L.parts }
    {
        self.counts.as_slice()
    }

    /// Begins to keep receipts: those that [`Seat::keep`] is given from now on. Receipts that it keeps already are
    /// dropped.
    pub fn keep_receipts(&mut self, alloc: Global)
        ensures number { self.new.number ≡ self.old.number }
        ensures counts { self.new.counts ≡ self.old.counts }
        ensures none { self.new.receipts ≡ Some [] }
    {
        self.kept = Kept::open(alloc);
    }

    /// Keeps a receipt after those that it keeps, if it is to keep receipts; otherwise the receipt is dropped. If memory
    /// is refused, all are dropped, and it keeps no further ones.
    pub fn keep(&mut self, receipt: Receipt)
        ensures number { self.new.number ≡ self.old.number }
        ensures counts { self.new.counts ≡ self.old.counts }
        ensures kept { AddsTo self.old.receipts receipt self.new.receipts }
    {
        self.kept.add(receipt);
    }

    /// Takes the receipts out, oldest first; the seat keeps no further ones. `None` if it was to keep none, or memory
    /// was refused for one.
    pub fn take_receipts(&mut self) -> Option<Vec<Receipt>>
        ensures number { self.new.number ≡ self.old.number }
        ensures counts { self.new.counts ≡ self.old.counts }
        ensures taken { MatchOption result (self.old.receipts ≡ None)
            (λ receipts. self.old.receipts ≡ Some receipts.items) }
        ensures none { self.new.receipts ≡ None }
    {
        self.kept.take()
    }
}

// Adds one to the count of a port, and returns the former count.
pub(crate) fn count_at(counts: &mut Vec<u64>, port: PortNo) -> u64
    requires is_port { port < length counts.old.items }
    requires fits { sum counts.old.items + 1 < 2 ^ 64 }
    ensures former { result ≡ slice_index counts.old.items port }
    ensures counted { counts.new.items
        ≡ slice_set counts.old.items port (slice_index counts.old.items port + 1) }
{
    let former = counts[usize::from(port.get())];
    counts[usize::from(port.get())] = former + 1;
    former
}
