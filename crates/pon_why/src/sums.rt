//! The exact sums of an Alloc-ID over maps.

ghost use Rattle.std.specs.Prelude.{◌≡◌, ◌+◌, ◌-◌, IsTrue};
ghost use Rattle.pon_why.specs.Sums.{amounts_of, is_below, plus};

use crate::rates::RowRates;
use pon_bwmap::Alloc;
use pon_units::WORD_RATE;

/// The exact sums of an Alloc-ID over the maps in which it is admitted.
#[derive(Clone, Copy, Debug, PartialEq, Eq)]
pub struct Sums {
    /// The number of maps.
    pub maps: u64,
    /// The loads, in kbit/s.
    pub load: u64,
    /// The guaranteed rates, in kbit/s.
    pub guaranteed: u64,
    /// The whole kbit/s of the surplus rates.
    pub surplus: u64,
    /// The payload words of 4 bytes that were granted.
    pub granted: u64,
    /// The number of maps with fewer payload words than the whole ones of the guaranteed rate.
    pub below: u64,
}

impl Sums {
    /// The sums over no maps.
    pub const NONE: Sums = Sums {
        maps: 0,
        load: 0,
        guaranteed: 0,
        surplus: 0,
        granted: 0,
        below: 0,
    };
}

// Adds an amount to a sum. Returns false if the sum is 2^64 or more.
fn add_to(sum: &mut u64, amount: u64) -> bool
    ensures { IsTrue result → sum.new ≡ sum.old + amount }
{
    match sum.checked_add(amount) {
        Some(more) => {
            *sum = more;
            true
        }
        None => false,
    }
}

impl Sums {
    /// Adds other sums. Returns false if a sum is 2^64 or more.
    #[inline(always)]
    pub fn add(&mut self, others: &Sums) -> bool
        ensures { IsTrue result → self.new ≡ plus self.old others.now }
    {
        add_to(&mut self.maps, others.maps)
            && add_to(&mut self.load, others.load)
            && add_to(&mut self.guaranteed, others.guaranteed)
            && add_to(&mut self.surplus, others.surplus)
            && add_to(&mut self.granted, others.granted)
            && add_to(&mut self.below, others.below)
    }
}

/// Returns the payload words of a structure: one less than its grant, 0 for a grant of 0.
pub(crate) fn words_of(structure: &Alloc) -> u64
    ensures { result ≡ structure.now.grant - 1 }
{
    u64::from(structure.grant().saturating_sub(1))
}

// Returns whether a structure grants fewer payload words than the whole ones of the guaranteed rate.
fn is_below(row: &RowRates, structure: &Alloc) -> bool
    ensures { result ≡ is_below row.now structure.now }
{
    words_of(structure) < u64::from(row.guaranteed.get()) / WORD_RATE
}

/// Returns what a row and its structure in a map add to sums.
#[inline]
pub fn amounts_of(row: &RowRates, structure: &Alloc) -> Sums
    ensures { result ≡ amounts_of row.now structure.now }
{
    Sums {
        maps: 1,
        load: u64::from(row.load.get()),
        guaranteed: u64::from(row.guaranteed.get()),
        surplus: row.whole_surplus(),
        granted: words_of(structure),
        below: if is_below(row, structure) { 1 } else { 0 },
    }
}
