//! How many ONUs own an Alloc-ID.

use pon_admit::Event;
use pon_record::RawChapter;
use pon_state::{Entry, EntryRef};
use std::alloc::{AllocError, Global};
use std::collections::{BTreeMap, BTreeSet};

// The ONU-ID of each admitted Alloc-ID.
type OnuOfAlloc = BTreeMap<u16, u16>;

/// The numbers of ONUs that own an Alloc-ID at the opening of a chapter and at its end.
#[derive(Clone, Copy)]
pub(crate) struct OnuCounts {
    pub(crate) opening: u64,
    pub(crate) end: u64,
}

// Counts the ONUs.
fn onu_count(alloc: Global, owners: &OnuOfAlloc) -> Result<u64, AllocError> {
    let mut onus = BTreeSet::new(alloc);
    for onu in owners.values() {
        onus.insert(*onu)?;
    }
    Ok(onus.len() as u64)
}

// Takes an entry.
fn take(owners: &mut OnuOfAlloc, entry: &Entry) -> Result<(), AllocError> {
    match entry.as_ref() {
        EntryRef::Taken(Event::Admit(row)) => {
            owners.insert(row.alloc_id.get(), row.onu.get())?;
        }
        EntryRef::Taken(Event::Remove { alloc_id }) => {
            owners.remove(&alloc_id.get());
        }
        _ => {}
    }
    Ok(())
}

/// Counts the ONUs of a chapter. `Err` only if memory is refused.
pub(crate) fn onu_counts(alloc: Global, chapter: &RawChapter) -> Result<OnuCounts, AllocError> {
    let mut owners = BTreeMap::new(alloc);
    for row in &chapter.opening.rows {
        owners.insert(row.alloc_id.get(), row.onu.get())?;
    }
    let opening = onu_count(alloc, &owners)?;
    for entry in &chapter.entries {
        take(&mut owners, entry)?;
    }
    let end = onu_count(alloc, &owners)?;
    Ok(OnuCounts { opening, end })
}
