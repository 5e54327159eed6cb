//! The counted reports as they came, found in the entries before a map.

ghost use Rattle.std.specs.Prelude.{◌≡◌, length};
ghost use Rattle.pon_why.specs.declared.alloc_tallies.TheConstants.{PLACES};

use crate::alloc_tallies::PLACES;
use crate::numbers::Explanation;
use crate::sums::words_of;
use pon_admit::Event;
use pon_dbru::Occupancies;
use pon_state::{Entry, EntryRef, MadeMap};
use pon_units::{AllocId, BufOcc, FrameNo, OnuId};
use std::alloc::{AllocError, Global};

/// A counted report as it came, as far as the chapter has it.
#[derive(Clone, Copy, Debug, PartialEq, Eq)]
pub struct Reported {
    /// The frame that it is of.
    frame: u64,
    /// The occupancy that was reported, in words; `None` if the report, or the map of its frame, is in an earlier
    /// chapter.
    pub occupancy: Option<u32>,
    /// The payload words that the maps of the chapter from that frame on granted.
    pub granted: u64,
    // The place of the Alloc-ID in its series in the map of that frame.
    place: Option<usize>,
}

impl Reported {
    // Returns what is known after a map of a frame, in which a structure at this place of its series granted these
    // words.
    fn after_map(self, frame: u64, place: usize, words: u64) -> Reported {
        if frame < self.frame {
            return self;
        }
        let place = if frame == self.frame {
            Some(place)
        } else {
            self.place
        };
        let granted = self.granted.saturating_add(words);
        Reported {
            place,
            granted,
            ..self
        }
    }

    // Returns what is known after a report for a frame.
    fn after_report(self, frame: u64, occupancies: &[Option<BufOcc>]) -> Reported {
        if frame != self.frame {
            return self;
        }
        let occupancy = match self.place {
            Some(place) => occupancy_at(occupancies, place),
            None => None,
        };
        Reported { occupancy, ..self }
    }
}

// Returns the number of words at a place of a report; `None` if there is none or it is garbled.
fn occupancy_at(occupancies: &[Option<BufOcc>], place: usize) -> Option<u32> {
    match occupancies.get(place) {
        Some(Some(words)) => Some(words.get()),
        _ => None,
    }
}

/// The counted reports of Alloc-IDs, by number.
#[derive(Drop)]
pub struct Reports {
    table: Vec<Option<Reported>>,
    ghost places: { length table.items ≡ PLACES },
}

impl Reports {
    // Makes a table of no reports. `Err` only if memory is refused.
    fn new(alloc: Global) -> Result<Reports, AllocError> {
        Ok(Reports {
            table: vec![in alloc; None; PLACES]?,
        })
    }

    // Starts with the frame of the counted report of a row.
    fn start(&mut self, row: &Explanation) {
        let number = usize::from(row.row.alloc_id.get());
        self.table[number] = row.counted.map(|counted| Reported {
            frame: counted.frame.get(),
            occupancy: None,
            granted: 0,
            place: None,
        });
    }

    /// The counted report of an Alloc-ID.
    pub fn of(&self, alloc_id: AllocId) -> Option<Reported> {
        self.table[usize::from(alloc_id.get())]
    }

    // Takes note of a map.
    fn add_map(&mut self, made: &MadeMap) {
        let mut place = 0usize;
        for structure in made.map.rows() {
            place = if structure.start().is_some() {
                0
            } else {
                place.saturating_add(1)
            };
            let number = usize::from(structure.id());
            if let Some(report) = self.table[number] {
                let words = words_of(structure);
                self.table[number] = Some(report.after_map(made.frame.get(), place, words));
            }
        }
    }

    // Takes note of a report of an ONU for the map of a frame. The rows are in map order, so those of an ONU stand
    // together.
    fn add_report(&mut self, rows: &[Explanation], frame: FrameNo, onu: OnuId, occ: &Occupancies) {
        let first = rows.partition_point(|row| row.row.onu.get() < onu.get());
        for row in rows.iter().skip(first) {
            if row.row.onu != onu {
                return;
            }
            let number = usize::from(row.row.alloc_id.get());
            if let Some(report) = self.table[number] {
                self.table[number] = Some(report.after_report(frame.get(), occ.as_slice()));
            }
        }
    }
}

/// Finds the counted reports of the rows of a map in the entries before it.
///
/// # Errors
///
/// `AllocError` only if memory is refused.
pub fn reports_of(
    alloc: Global,
    entries: &[Entry],
    rows: &[Explanation],
) -> Result<Reports, AllocError> {
    let mut reports = Reports::new(alloc)?;
    for row in rows {
        reports.start(row);
    }
    for entry in entries {
        match entry.as_ref() {
            EntryRef::Map(made) => reports.add_map(made),
            EntryRef::Taken(Event::Report { frame, onu, occ }) => {
                reports.add_report(rows, *frame, *onu, occ);
            }
            EntryRef::Taken(_) => {}
        }
    }
    Ok(reports)
}
