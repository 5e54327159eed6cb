//! Maps that are added to what was sold to each Alloc-ID, and what it got of it.

ghost use Rattle.std.specs.Prelude.{◌≡◌, ◌==◌, ℕ, IfOk, OnOk, if◌then◌else◌, length};
ghost use Rattle.pon_sold.specs.Tables.{watch_at};
ghost use Rattle.pon_sold.specs.Watches.{after_rows, joined, nothing, restarted, stopped};

use crate::watch::{Sold, Watch};
use crate::watches::{PLACES, Watches};
use pon_admit::Row;
use pon_bwmap::Alloc;
use pon_units::AllocId;
use pon_why::RowRates;
use std::alloc::{AllocError, Global};

impl Watches {
    /// Makes the watches of no maps. They take about a million bytes.
    ///
    /// # Errors
    ///
    /// `AllocError` only if memory is refused.
    pub fn new(alloc: Global) -> Result<Watches, AllocError>
        ensures { IfOk result (λ made. (i : ℕ) → watch_at made i ≡ nothing) }
    {
        Ok(Watches {
            watches: vec![in alloc; Watch::NOTHING; PLACES]?,
        })
    }

    /// What was sold to an Alloc-ID, and what it got of it.
    pub fn of(&self, alloc_id: AllocId) -> Sold
        ensures { result ≡ (watch_at self.now alloc_id).sold }
    {
        self.watches[usize::from(alloc_id.get())].sold
    }

    /// No run of maps goes on: what comes next does not follow the last map.
    pub fn stop(&mut self)
        ensures { (i : ℕ) → watch_at self.new i ≡ stopped (watch_at self.old i) }
    {
        for place in 0..self.watches.len() {
            self.watches[place].stop();
        }
    }

    /// An Alloc-ID is admitted or removed: its next map is no later one of the same run of maps.
    pub fn restart_at(&mut self, alloc_id: AllocId)
        ensures { (i : ℕ) → watch_at self.new i
            ≡ (if alloc_id == i then restarted (watch_at self.old i) else watch_at self.old i) }
    {
        self.watches[usize::from(alloc_id.get())].restart();
    }

    /// Adds the next map: the rows, their rates and their structures, in map order.
    ///
    /// # Errors
    ///
    /// `AllocError` if a sum is 2^64 or more.
    pub fn add_map(
        &mut self,
        rows: &[Row],
        rates: &[RowRates],
        structures: &[Alloc],
    ) -> Result<(), AllocError>
        requires rates { length rates.now ≡ length rows.now }
        requires structures { length structures.now ≡ length rows.now }
        ensures { OnOk result ((i : ℕ) → watch_at self.new i
            ≡ after_rows i rows.now rates.now structures.now (watch_at self.old i)) }
    {
        for (index, row) in rows.iter().enumerate() {
            let place = usize::from(row.alloc_id.get());
            let added = self.watches[place].add_map(row, &rates[index], &structures[index]);
            if added.is_none() {
                return Err(AllocError);
            }
        }
        Ok(())
    }

    /// Adds the maps of later chapters, which go on with the runs of maps.
    ///
    /// # Errors
    ///
    /// `AllocError` if a sum is 2^64 or more.
    pub fn add_all(&mut self, later: &Watches) -> Result<(), AllocError>
        ensures { OnOk result ((i : ℕ) → watch_at self.new i
            ≡ joined (watch_at self.old i) (watch_at later.now i)) }
    {
        for place in 0..self.watches.len() {
            let added = self.watches[place].add(&later.watches[place]);
            if added.is_none() {
                return Err(AllocError);
            }
        }
        Ok(())
    }
}
