//! Maps added to the tallies of Alloc-IDs.

ghost use Rattle.std.specs.Prelude.{ℕ, ◌≡◌, ◌==◌, if◌then◌else◌, length, IfOk, IsFalse, OnOk};
ghost use Rattle.pon_why.specs.Places.{LacksAt, ids_of};
ghost use Rattle.pon_why.specs.Sums.{amounts_in, amounts_of, no_sums, plus, sums_if};
ghost use Rattle.pon_why.specs.Tallies.{sums_at};

use crate::alloc_tallies::{AllocTallies, AllocTally, PLACES};
use crate::idle::Idle;
use crate::rates::RowRates;
use crate::sums::{Sums, amounts_of, words_of};
use pon_bwmap::Alloc;
use pon_units::{AllocId, FrameNo};
use std::alloc::{AllocError, Global};

impl AllocTallies {
    /// Makes the tallies of no maps.
    ///
    /// # Errors
    ///
    /// `AllocError` only if memory is refused.
    pub fn new(alloc: Global) -> Result<AllocTallies, AllocError>
        ensures { IfOk result (λ made. (i : ℕ) → sums_at made i ≡ no_sums) }
    {
        Ok(AllocTallies {
            tallies: Vec::new(alloc),
            places: vec![in alloc; 0; PLACES]?,
        })
    }

    /// The sums of an Alloc-ID, 0 if no map has it; and the length of the longest run of maps of consecutive frames
    /// that granted it nothing.
    pub fn of(&self, alloc_id: AllocId) -> (Sums, u64)
        ensures { result.0 ≡ sums_at self.now alloc_id }
    {
        let place = usize::from(self.places[usize::from(alloc_id.get())]);
        if place < self.tallies.len() {
            let tally = &self.tallies[place];
            if tally.alloc_id == alloc_id {
                return (tally.sums, tally.idle.longest());
            }
        }
        (Sums::NONE, 0)
    }

    // Adds the tally of later maps at a place, if that has a tally of the same Alloc-ID. Returns whether it has. `Err`
    // if a sum is 2^64 or more.
    fn add_at(&mut self, place: usize, others: &AllocTally) -> Result<bool, AllocError>
        ensures sums { IfOk result (λ added. (i : ℕ) → sums_at self.new i
            ≡ plus (sums_at self.old i)
            (if added then sums_if i others.now else no_sums)) }
        ensures lacks { IfOk result (λ added. IsFalse added
            → (self.new ≡ self.old) × LacksAt place others.now.alloc_id (ids_of self.old.tallies.items)) }
    {
        if place >= self.tallies.len() {
            return Ok(false);
        }
        let mut tally = self.tallies[place];
        if tally.alloc_id != others.alloc_id {
            return Ok(false);
        }
        if !tally.add(others) {
            return Err(AllocError);
        }
        self.tallies[place] = tally;
        Ok(true)
    }

    // Adds the tally of later maps for an Alloc-ID, at the place in the table or as a new one. Returns the place after
    // its own. `Err` if memory is refused or a sum is 2^64 or more.
    fn add_by_table(&mut self, others: &AllocTally) -> Result<usize, AllocError>
        ensures { OnOk result ((i : ℕ) → sums_at self.new i
            ≡ plus (sums_at self.old i) (sums_if i others.now)) }
    {
        let number = usize::from(others.alloc_id.get());
        let place = usize::from(self.places[number]);
        if self.add_at(place, others)? {
            return Ok(place.saturating_add(1));
        }
        let Ok(next) = u16::try_from(self.tallies.len()) else {
            return Err(AllocError);
        };
        self.tallies.push(*others)?;
        self.places[number] = next;
        Ok(self.tallies.len())
    }

    // As `add_by_table`, and looks at the place `hint` first.
    fn add(&mut self, hint: usize, others: &AllocTally) -> Result<usize, AllocError>
        ensures { OnOk result ((i : ℕ) → sums_at self.new i
            ≡ plus (sums_at self.old i) (sums_if i others.now)) }
    {
        if self.add_at(hint, others)? {
            return Ok(hint.saturating_add(1));
        }
        let next = self.add_by_table(others)?;
        Ok(next)
    }

    // Adds a row of the map of a frame and its structure at a place, if that has a tally of its Alloc-ID. Returns
    // whether it has. `Err` if a sum is 2^64 or more.
    #[inline(always)]
    fn grow_at(
        &mut self,
        place: usize,
        frame: FrameNo,
        row: &RowRates,
        structure: &Alloc,
    ) -> Result<bool, AllocError>
        ensures { IfOk result (λ added. (i : ℕ) → sums_at self.new i
            ≡ plus (sums_at self.old i)
            (if added then (if row.now.alloc_id == i then amounts_of row.now structure.now else no_sums)
            else no_sums)) }
    {
        if place >= self.tallies.len() {
            return Ok(false);
        }
        if self.tallies[place].alloc_id != row.alloc_id {
            return Ok(false);
        }
        if !self.tallies[place].add_map(frame, row, structure) {
            return Err(AllocError);
        }
        Ok(true)
    }

    // Adds a row of the map of a frame and its structure, and looks at the place `hint` first. Returns the place after
    // its own. `Err` if memory is refused or a sum is 2^64 or more.
    #[inline(always)]
    fn add_row(
        &mut self,
        hint: usize,
        frame: FrameNo,
        row: &RowRates,
        structure: &Alloc,
    ) -> Result<usize, AllocError>
        ensures { OnOk result ((i : ℕ) → sums_at self.new i
            ≡ plus (sums_at self.old i)
            (if row.now.alloc_id == i then amounts_of row.now structure.now else no_sums)) }
    {
        if self.grow_at(hint, frame, row, structure)? {
            return Ok(hint.saturating_add(1));
        }
        let map = AllocTally {
            alloc_id: row.alloc_id,
            sums: amounts_of(row, structure),
            idle: Idle::of_map(frame, words_of(structure)),
        };
        let next = self.add_by_table(&map)?;
        Ok(next)
    }

    /// Adds the map of a frame: the rows and their structures, in map order.
    ///
    /// # Errors
    ///
    /// `AllocError` if memory is refused or a sum is 2^64 or more.
    pub fn add_map(
        &mut self,
        frame: FrameNo,
        rows: &[RowRates],
        structures: &[Alloc],
    ) -> Result<(), AllocError>
        requires { length structures.now ≡ length rows.now }
        ensures { OnOk result ((i : ℕ) → sums_at self.new i
            ≡ plus (sums_at self.old i) (amounts_in i rows.now structures.now)) }
    {
        let mut hint = 0;
        for (index, row) in rows.iter().enumerate() {
            hint = self.add_row(hint, frame, row, &structures[index])?;
        }
        Ok(())
    }

    /// Adds the tallies of later maps.
    ///
    /// # Errors
    ///
    /// `AllocError` if memory is refused or a sum is 2^64 or more.
    pub fn add_all(&mut self, others: &AllocTallies) -> Result<(), AllocError>
        ensures { OnOk result ((i : ℕ) → sums_at self.new i
            ≡ plus (sums_at self.old i) (sums_at others.now i)) }
    {
        let mut hint = 0;
        for tally in &others.tallies {
            hint = self.add(hint, tally)?;
        }
        Ok(())
    }
}
