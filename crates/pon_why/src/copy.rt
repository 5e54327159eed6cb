//! A copy of a kept chapter, so that it can be explained while its port goes on.

ghost use Rattle.std.specs.Prelude.{◌≡◌, IfOk};

use pon_admit::Event;
use pon_state::{Entry, EntryRef, PortState, Reply};
use std::alloc::{AllocError, Global};

/// A copy of the opening and of the entries of a chapter.
#[derive(Drop)]
pub struct ChapterCopy {
    /// The state that the chapter opens with.
    pub opening: PortState,
    /// The entries of the chapter, oldest first.
    pub entries: Vec<Entry>,
}

// Makes an equal entry. `Err` only if memory is refused.
fn copy_entry(alloc: Global, entry: &Entry) -> Result<Entry, AllocError>
    ensures { IfOk result (λ copy. copy ≡ entry.now) }
{
    match entry.as_ref() {
        EntryRef::Taken(event) => Ok(Entry::new(event.copy(), Reply::Taken)),
        EntryRef::Map(made) => {
            let made = made.try_copy(alloc)?;
            Ok(Entry::new(Event::MakeMap, Reply::Map(made)))
        }
    }
}

// Makes equal entries. `Err` only if memory is refused.
fn copy_entries(alloc: Global, entries: &[Entry]) -> Result<Vec<Entry>, AllocError>
    ensures { IfOk result (λ copies. copies.items ≡ entries.now) }
{
    let mut copies = Vec::with_capacity(alloc, entries.len())?;
    for entry in entries {
        copies.push_reserved(copy_entry(alloc, entry)?);
    }
    Ok(copies)
}

/// Copies the opening and the entries of a chapter.
///
/// # Errors
///
/// `AllocError` only if memory is refused.
pub fn copy_chapter(
    alloc: Global,
    opening: &PortState,
    entries: &[Entry],
) -> Result<ChapterCopy, AllocError>
    ensures opening { IfOk result (λ copy. copy.opening ≡ opening.now) }
    ensures entries { IfOk result (λ copy. copy.entries.items ≡ entries.now) }
{
    Ok(ChapterCopy {
        opening: opening.try_copy(alloc)?,
        entries: copy_entries(alloc, entries)?,
    })
}
