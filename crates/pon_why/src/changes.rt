//! The ONU and the descriptor of each Alloc-ID, along maps.

ghost use Rattle.std.specs.Prelude.{◌≡◌, length};
ghost use Rattle.pon_why.specs.declared.alloc_tallies.TheConstants.{PLACES};

use crate::alloc_tallies::PLACES;
use pon_admit::Row;
use pon_units::FrameNo;
use std::alloc::{AllocError, Global};

/// The ONU and the descriptor that an Alloc-ID has from a map on.
#[derive(Clone, Copy, Debug, PartialEq, Eq)]
pub struct Change {
    /// The frame of the first map with them, of 125 µs.
    pub frame: FrameNo,
    /// The Alloc-ID, its ONU and its descriptor.
    pub row: Row,
    /// The weight of the descriptor, in kbit/s.
    pub weight: u64,
}

/// The changes of ONU or descriptor, in the order of the maps.
#[derive(Drop)]
pub struct Changes {
    changes: Vec<Change>,
    // The place of the last change of each Alloc-ID, at its number; any place if it has none.
    last: Vec<u32>,
    ghost each_place: { length last.items ≡ PLACES },
}

impl Changes {
    /// Makes the list of no changes.
    ///
    /// # Errors
    ///
    /// `AllocError` only if memory is refused.
    pub fn new(alloc: Global) -> Result<Changes, AllocError> {
        Ok(Changes {
            changes: Vec::new(alloc),
            last: vec![in alloc; 0; PLACES]?,
        })
    }

    /// The changes, in the order of the maps.
    pub fn as_slice(&self) -> &[Change] {
        self.changes.as_slice()
    }

    /// Notes the row that an Alloc-ID has from a frame on, if it is another than before.
    ///
    /// # Errors
    ///
    /// `AllocError` only if memory is refused.
    pub fn note(&mut self, change: &Change) -> Result<(), AllocError> {
        let number = usize::from(change.row.alloc_id.get());
        let place = self.last[number] as usize;
        if place < self.changes.len() && self.changes[place].row == change.row {
            return Ok(());
        }
        self.last[number] = u32::try_from(self.changes.len()).unwrap_or(u32::MAX);
        self.changes.push(*change)?;
        Ok(())
    }

    /// Notes the changes of later maps.
    ///
    /// # Errors
    ///
    /// `AllocError` only if memory is refused.
    pub fn note_all(&mut self, others: &Changes) -> Result<(), AllocError> {
        for change in &others.changes {
            self.note(change)?;
        }
        Ok(())
    }
}
