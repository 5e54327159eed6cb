//! Why an entry of a chapter may not follow, in numbers.

ghost use Rattle.std.specs.Prelude.{◌≡◌, ◌≢◌, ◌<◌, IfOk, IfSome, IsTrue, length, slice_get};
ghost use Rattle.pon_admit.specs.Roster.{IsAdmitted};
ghost use Rattle.pon_demand.specs.Carries.{AreCarries};
ghost use Rattle.pon_audit.specs.Openings.{FitsRecording, chapter_of};
ghost use Rattle.pon_history.specs.Chapters.{cut_at};
ghost use Rattle.pon_history.specs.Taking.{IsKept};
ghost use Rattle.pon_look.specs.FaultDetails.{IsDetailAt, IsMapDetail, IsOther};

use crate::replay::{Replay, open_replay, replay_to};
use pon_admit::Event;
use pon_bwmap::Alloc;
use pon_check::{MapCertFault, check_map};
use pon_descr::Refusal;
use pon_record::RawChapter;
use pon_state::{EntryRef, MadeMap, MapUnder, check, map_under, next_problems};
use pon_units::FrameNo;
use std::alloc::{AllocError, Global};

/// Why an entry may not follow those before it.
#[derive(Clone, Copy, Debug, PartialEq, Eq)]
pub enum FaultDetail {
    /// A check refuses the event: the first that does.
    Refused(Refusal),
    /// The certificate of the map is not that of the state: the first fault of its check.
    Certificate(MapCertFault),
    /// The grant of an Alloc-ID, in words of 4 bytes, is not the wanted one.
    Grant {
        id: u16,
        wanted: u16,
        found: u16,
    },
    /// The structure at this place, counted from 0, is not the wanted one; `None` if there is none.
    Structure {
        place: usize,
        wanted: Option<Alloc>,
        found: Option<Alloc>,
    },
    /// The map is of another frame than this, the next one of the state.
    Frame {
        next: FrameNo,
    },
}

// Returns the first grant that differs from the wanted one, if both have the same Alloc-IDs.
fn other_grant(wanted: &[Alloc], found: &[Alloc]) -> Option<FaultDetail>
    ensures { IfSome result (IsOther wanted.now found.now) }
{
    if wanted.len() != found.len() {
        return None;
    }
    let mut detail = None;
    for place in 0..wanted.len() {
        let (good, bad) = (&wanted[place], &found[place]);
        if good.id() != bad.id() {
            return None;
        }
        if detail.is_none() && good.grant() != bad.grant() {
            detail = Some(FaultDetail::Grant {
                id: bad.id(),
                wanted: good.grant(),
                found: bad.grant(),
            });
        }
    }
    detail
}

// Returns the structure at a place, counted from 0.
fn structure_at(structures: &[Alloc], place: usize) -> Option<Alloc>
    ensures { result ≡ slice_get structures.now place }
{
    structures.get(place).copied()
}

// Returns whether structures differ, of which each may be missing.
fn differ(good: &Option<Alloc>, bad: &Option<Alloc>) -> bool
    ensures { IsTrue result → good.now ≢ bad.now }
{
    match (good, bad) {
        (Some(good), Some(bad)) => good != bad,
        (None, None) => false,
        _ => true,
    }
}

// Returns the place of the first structure that differs from the wanted one, or that one of the two lacks.
fn other_structure(wanted: &[Alloc], found: &[Alloc]) -> Option<FaultDetail>
    ensures { IfSome result (IsOther wanted.now found.now) }
{
    for place in 0..wanted.len().max(found.len()) {
        let good = structure_at(wanted, place);
        let bad = structure_at(found, place);
        if differ(&good, &bad) {
            return Some(FaultDetail::Structure {
                place,
                wanted: good,
                found: bad,
            });
        }
    }
    None
}

// Returns how the structures of a map differ from the wanted ones: by a grant, if both have the same Alloc-IDs.
fn other_of(wanted: &[Alloc], found: &[Alloc]) -> Option<FaultDetail>
    ensures { IfSome result (IsOther wanted.now found.now) }
{
    match other_grant(wanted, found) {
        Some(detail) => Some(detail),
        None => other_structure(wanted, found),
    }
}

// Returns what is wrong with a map in the state before it. `Err` only if memory is refused.
fn detail_of(
    alloc: Global,
    replay: &mut Replay,
    made: &MadeMap,
) -> Result<Option<FaultDetail>, AllocError>
    requires admitted { IsAdmitted replay.old.state.rule replay.old.state.gap replay.old.state.roster }
    requires carries { AreCarries replay.old.state.rule replay.old.state.roster replay.old.state.carries }
    ensures { IfOk result (λ found. IfSome found (IsMapDetail replay.old.state made.now)) }
{
    let Replay { state, buffers } = replay;
    let problems = next_problems(alloc, buffers, state)?;
    let (na, be) = (problems.na.items.as_slice(), problems.be.items.as_slice());
    if let Err(fault) = check_map(na, be, problems.surplus, &made.cert) {
        return Ok(Some(FaultDetail::Certificate(fault)));
    }
    let MapUnder { map, .. } = map_under(alloc, buffers, state, &problems, &made.cert)?;
    match other_of(map.rows(), made.map.rows()) {
        Some(detail) => return Ok(Some(detail)),
        None => {}
    }
    let next = state.next_frame();
    if made.frame != next {
        return Ok(Some(FaultDetail::Frame { next }));
    }
    Ok(None)
}

// Returns why the entry at an index of a chapter may not follow, by the state before it.
fn detail_at(
    alloc: Global,
    chapter: &RawChapter,
    index: usize,
    replay: &mut Replay,
) -> Result<Option<FaultDetail>, AllocError>
    requires index { index < length chapter.now.body.entries }
    requires kept { IsKept (cut_at (chapter_of chapter.now.body) index) replay.old.state }
    ensures { IfOk result (λ found. IfSome found (IsDetailAt (chapter_of chapter.now.body) index)) }
{
    match chapter.entries[index].as_ref() {
        EntryRef::Map(made) => {
            if let Err(refusal) = check(&replay.state, index, &Event::MakeMap) {
                return Ok(Some(FaultDetail::Refused(refusal)));
            }
            detail_of(alloc, replay, made)
        }
        EntryRef::Taken(event) => match check(&replay.state, index, event) {
            Err(refusal) => Ok(Some(FaultDetail::Refused(refusal))),
            Ok(_) => Ok(None),
        },
    }
}

/// Explains why the entry at an index of a chapter may not follow the entries before it: by the state before it, which is
/// their replay. `None` if it may, or if one before it may not.
///
/// # Errors
///
/// `AllocError` only if memory is refused.
pub fn explain_fault(
    alloc: Global,
    chapter: &RawChapter,
    index: usize,
) -> Result<Option<FaultDetail>, AllocError>
    requires fits { FitsRecording chapter.now.body }
    requires index { index < length chapter.now.body.entries }
    ensures { IfOk result (λ found. IfSome found (IsDetailAt (chapter_of chapter.now.body) index)) }
{
    let Some(mut replay) = open_replay(alloc, chapter)? else {
        return Ok(None);
    };
    let refused = replay_to(alloc, chapter, &mut replay, index)?;
    match refused {
        Some(_entry) => return Ok(None),
        None => {}
    }
    detail_at(alloc, chapter, index, &mut replay)
}
