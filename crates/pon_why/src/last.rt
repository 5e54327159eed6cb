//! The last map of a kept chapter, explained for one Alloc-ID.

ghost use Rattle.std.specs.Prelude.{◌≡◌, ◌==◌, ◌<◌, ℕ, IfOk, IfSome, Some, find, length};
ghost use Rattle.pon_admit.specs.Roster.{IsAdmitted};
ghost use Rattle.pon_demand.specs.Carries.{AreCarries};
ghost use Rattle.pon_demand.specs.Sharing.{IsCertified};
ghost use Rattle.pon_state.specs.State.{input_of};
ghost use Rattle.pon_history.specs.Chapters.{IsLawfulChapter};
ghost use Rattle.pon_why.specs.Explanations.{explanations_of};
ghost use Rattle.pon_why.specs.Lasts.{chapter_with, explained_by, last_place, level_in, why_in, why_of};

use crate::numbers::{Explanation, explain};
use crate::retake::state_before;
use pon_bwmap::{Alloc, Map};
use pon_cert::{Level, MapCert};
use pon_demand::MapBuffers;
use pon_descr::Class;
use pon_state::{Entry, EntryRef, MadeMap, PortState, next_problems};
use pon_units::{AllocId, FrameNo};
use std::alloc::{AllocError, Global};

/// What a map gives to an Alloc-ID, with each number that it follows from.
#[derive(Clone, Copy, Debug, PartialEq, Eq)]
pub struct LastExplanation {
    /// The frame of the map.
    pub frame: FrameNo,
    /// The numbers of the Alloc-ID in the state before the map.
    pub row: Explanation,
    /// The level of its class; `None` for the class that shares no surplus.
    pub level: Option<Level>,
    /// Its structure in the map.
    pub structure: Option<Alloc>,
}

/// The explanation of the last map of a chapter for an Alloc-ID, or why there is none.
#[derive(Clone, Copy, Debug, PartialEq, Eq)]
pub enum LastWhy {
    /// The chapter has no map.
    NoMap,
    /// The Alloc-ID was not admitted at the map.
    NoSuchAlloc,
    /// The numbers of the Alloc-ID.
    Explained(LastExplanation),
}

// Returns the index of the last entry that makes a map; `None` if none does.
fn last_place(entries: &[Entry]) -> Option<usize>
    ensures place { result ≡ last_place entries.now }
    ensures within { IfSome result (λ place. place < length entries.now) }
{
    let mut last = None;
    for index in 0..entries.len() {
        if entries[index].makes_map() {
            last = Some(index);
        }
    }
    last
}

// Returns the numbers of an Alloc-ID; `None` if no row has it.
fn row_of(rows: &[Explanation], alloc_id: AllocId) -> Option<Explanation>
    ensures { result ≡ find (λ x. x.row.alloc_id == alloc_id) rows.now }
{
    for row in rows {
        if row.row.alloc_id == alloc_id {
            return Some(*row);
        }
    }
    None
}

// Returns the structure of an Alloc-ID in a map; `None` if it has none.
fn structure_of(map: &Map, alloc_id: AllocId) -> Option<Alloc>
    ensures { result ≡ find (λ a. a.id == alloc_id) map.now }
{
    let structures = map.rows();
    for structure in structures {
        if structure.id() == alloc_id.get() {
            return Some(*structure);
        }
    }
    None
}

/// Returns the level of a class; `None` for the class that shares no surplus.
pub fn level_in(cert: &MapCert, class: Class) -> Option<Level>
    ensures { result ≡ level_in cert.now class }
{
    match class {
        Class::Plain => None,
        Class::NonAssured => Some(cert.na.level),
        Class::BestEffort => Some(cert.be.level),
    }
}

// Explains each admitted Alloc-ID under the certificate of a map of a state. `Err` only if memory is refused.
fn explain_map(
    alloc: Global,
    state: &PortState,
    made: &MadeMap,
) -> Result<Vec<Explanation>, AllocError>
    requires admitted { IsAdmitted state.now.rule state.now.gap state.now.roster }
    requires carries { AreCarries state.now.rule state.now.roster state.now.carries }
    requires certified { IsCertified (input_of state.now) made.now.cert }
    ensures { IfOk result (λ rows. rows.items ≡ explanations_of state.now made.now.cert) }
{
    let mut buffers = MapBuffers::open(alloc);
    let problems = next_problems(alloc, &mut buffers, state)?;
    explain(alloc, state, problems.demands.as_slice(), &made.cert)
}

// Adds what the map itself gives to the numbers of an Alloc-ID, looked up in those of all.
fn explain_among(rows: &[Explanation], made: &MadeMap, alloc_id: AllocId) -> LastWhy
    ensures { result ≡ explained_by made.now alloc_id (find (λ x. x.row.alloc_id == alloc_id) rows.now) }
{
    let Some(row) = row_of(rows, alloc_id) else {
        return LastWhy::NoSuchAlloc;
    };
    LastWhy::Explained(LastExplanation {
        frame: made.frame,
        row,
        level: level_in(&made.cert, row.row.descriptor.class()),
        structure: structure_of(&made.map, alloc_id),
    })
}

// Explains a map of a state for an Alloc-ID. `Err` only if memory is refused.
fn explain_for(
    alloc: Global,
    state: &PortState,
    made: &MadeMap,
    alloc_id: AllocId,
) -> Result<LastWhy, AllocError>
    requires admitted { IsAdmitted state.now.rule state.now.gap state.now.roster }
    requires carries { AreCarries state.now.rule state.now.roster state.now.carries }
    requires certified { IsCertified (input_of state.now) made.now.cert }
    ensures { IfOk result (λ why. why ≡ why_in state.now alloc_id (Some made.now)) }
{
    let rows = explain_map(alloc, state, made)?;
    Ok(explain_among(&rows, made, alloc_id))
}

/// Explains the last map of a lawful chapter, given by its opening and its entries, for an Alloc-ID. Each number is
/// taken from the state before the map, which is the replay of the entries before it. These entries are taken again one
/// by one, each map from its certificate.
///
/// # Errors
///
/// `AllocError` only if memory is refused.
pub fn explain_last(
    alloc: Global,
    opening: &PortState,
    entries: &[Entry],
    alloc_id: AllocId,
) -> Result<LastWhy, AllocError>
    requires lawful { (number : ℕ) × IsLawfulChapter (chapter_with number opening.now entries.now) }
    ensures { IfOk result (λ why. why ≡ why_of opening.now entries.now alloc_id) }
{
    let Some(place) = last_place(entries) else {
        return Ok(LastWhy::NoMap);
    };
    match entries[place].as_ref() {
        EntryRef::Map(made) => {
            let state = state_before(alloc, opening, entries, place)?;
            explain_for(alloc, &state, made, alloc_id)
        }
        EntryRef::Taken(_) => Ok(LastWhy::NoMap),
    }
}
