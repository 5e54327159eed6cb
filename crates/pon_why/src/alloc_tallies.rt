//! What maps add up to for each Alloc-ID.

ghost use Rattle.std.specs.Prelude.{◌≡◌, length, IsTrue};
ghost use Rattle.pon_why.specs.Places.{ArePlaced, ids_of};
ghost use Rattle.pon_why.specs.Sums.{amounts_of, plus};
ghost use Rattle.pon_why.specs.declared.alloc_tallies.TheConstants.{PLACES};

mod adding;

use crate::idle::Idle;
use crate::rates::RowRates;
use crate::sums::{Sums, amounts_of, words_of};
use pon_bwmap::Alloc;
use pon_units::{AllocId, FrameNo, MAX_ALLOC_ID};

/// The number of places of a table by Alloc-ID: one for each, at its number.
pub(crate) const PLACES: usize = MAX_ALLOC_ID as usize + 1;

/// What maps add up to for an Alloc-ID: its sums, and the runs that granted it nothing.
#[derive(Clone, Copy, Debug, PartialEq, Eq)]
pub(crate) struct AllocTally {
    pub alloc_id: AllocId,
    pub sums: Sums,
    pub idle: Idle,
}

impl AllocTally {
    // Adds a row of the map of a later frame and its structure, for the same Alloc-ID. Returns false if a sum is 2^64 or more.
    #[inline(always)]
    fn add_map(&mut self, frame: FrameNo, row: &RowRates, structure: &Alloc) -> bool
        ensures alloc_id { self.new.alloc_id ≡ self.old.alloc_id }
        ensures sums { IsTrue result → self.new.sums
            ≡ plus self.old.sums (amounts_of row.now structure.now) }
    {
        self.idle.add_map(frame, words_of(structure));
        self.sums.add(&amounts_of(row, structure))
    }

    // Adds the tally of later maps for the same Alloc-ID. Returns false if a sum is 2^64 or more.
    #[inline(always)]
    fn add(&mut self, others: &AllocTally) -> bool
        ensures alloc_id { self.new.alloc_id ≡ self.old.alloc_id }
        ensures sums { IsTrue result → self.new.sums ≡ plus self.old.sums others.now.sums }
    {
        self.idle.add(&others.idle);
        self.sums.add(&others.sums)
    }
}

/// The tallies of the Alloc-IDs that maps have, in the order of their first maps.
#[derive(Drop)]
pub struct AllocTallies {
    tallies: Vec<AllocTally>,
    // The place of each Alloc-ID, at its number; any place if it has no tally.
    places: Vec<u16>,
    ghost each_place: { length places.items ≡ PLACES },
    ghost placed: { ArePlaced (ids_of tallies.items) places.items },
}
