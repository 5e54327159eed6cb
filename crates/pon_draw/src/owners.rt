//! The ONU and the descriptor of each Alloc-ID at a map.

use pon_admit::{Event, Row};
use pon_descr::Descriptor;
use pon_record::RawChapter;
use pon_state::EntryRef;
use pon_units::{AllocId, MAX_ALLOC_ID};
use std::alloc::{AllocError, Global};

/// The rows of the admitted Alloc-IDs, at the places of their Alloc-IDs.
#[derive(Drop)]
pub(crate) struct Owners {
    rows: Vec<Option<Row>>,
}

impl Owners {
    // Sets or removes the row of an Alloc-ID.
    fn set(&mut self, alloc_id: AllocId, row: Option<Row>) {
        if let Some(place) = self.rows.get_mut(usize::from(alloc_id.get())) {
            *place = row;
        }
    }

    // Changes the descriptor of an Alloc-ID.
    fn change(&mut self, alloc_id: AllocId, descriptor: Descriptor) {
        if let Some(row) = self.row_of(alloc_id.get()) {
            self.set(alloc_id, Some(Row::new(row.onu, alloc_id, descriptor)));
        }
    }

    // Takes an event that the port took.
    fn take(&mut self, event: &Event) {
        match event {
            Event::Admit(row) => self.set(row.alloc_id, Some(*row)),
            Event::Change {
                alloc_id,
                descriptor,
            } => self.change(*alloc_id, *descriptor),
            Event::Remove { alloc_id } => self.set(*alloc_id, None),
            _ => {}
        }
    }

    /// Returns the rows before an entry of a chapter. `Err` only if memory is refused.
    pub(crate) fn before(
        alloc: Global,
        chapter: &RawChapter,
        entry: usize,
    ) -> Result<Owners, AllocError> {
        let mut owners = Owners {
            rows: vec![in alloc; None; usize::from(MAX_ALLOC_ID) + 1]?,
        };
        for row in &chapter.opening.rows {
            owners.set(
                row.alloc_id,
                Some(Row::new(row.onu, row.alloc_id, row.descriptor)),
            );
        }
        for taken in chapter.entries.iter().take(entry) {
            if let EntryRef::Taken(event) = taken.as_ref() {
                owners.take(event);
            }
        }
        Ok(owners)
    }

    /// The row of an Alloc-ID, if it is admitted.
    pub(crate) fn row_of(&self, alloc_id: u16) -> Option<Row> {
        *self.rows.get(usize::from(alloc_id))?
    }
}
