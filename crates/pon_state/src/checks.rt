//! The checks that refuse an event, in their order.

ghost use Rattle.std.specs.Prelude.{◌≡◌, None, Some, IfErr, IfOk, OnOk};
ghost use Rattle.pon_state.specs.Checked.{IsChecked};
ghost use Rattle.pon_state.specs.Checks.{first_refusal, when_down, when_full};

use crate::state::PortState;
use pon_admit::{Event, Row};
use pon_dbru::Occupancies;
use pon_descr::{Cause, Descriptor, Refusal};
use pon_guar::Accepted;
use pon_units::{AllocId, FrameNo, OnuId};

/// The greatest number of entries of a chapter.
pub const MAX_ENTRIES: usize = 65_536;

/// An event that no check refuses, with what the checks found.
#[derive(Clone, Copy)]
pub enum Checked<'a> {
    Admit(&'a Row),
    Change(AllocId, &'a Descriptor),
    Remove(AllocId),
    /// A report, with the place of the map that requested it.
    Report(Accepted, &'a Occupancies),
    MakeMap,
    Fail(Cause),
    Restore,
}

// Returns the refusal as an error, if there is one.
fn refuse_if(refusal: Option<Refusal>) -> Result<(), Refusal>
    ensures ok { OnOk result (refusal ≡ None) }
    ensures refused { IfErr result (λ told. refusal ≡ Some told) }
{
    match refusal {
        Some(refusal) => Err(refusal),
        None => Ok(()),
    }
}

// Refuses by `ChapterFull` if a chapter with `kept` entries, or the count over all chapters, is full.
fn check_chapter(state: &PortState, kept: usize) -> Result<(), Refusal>
    ensures ok { OnOk result (when_full kept state.now.taken_before ≡ None) }
    ensures refused { IfErr result (λ told. when_full kept state.now.taken_before ≡ Some told) }
{
    if kept >= MAX_ENTRIES || state.taken_before == u64::MAX {
        return Err(Refusal::ChapterFull);
    }
    Ok(())
}

// Refuses by `PortDown` if the line is down.
fn check_up(state: &PortState) -> Result<(), Refusal>
    ensures ok { OnOk result (when_down state.now.cause ≡ None) }
    ensures refused { IfErr result (λ told. when_down state.now.cause ≡ Some told) }
{
    match state.cause {
        Some(cause) => Err(Refusal::PortDown { cause }),
        None => Ok(()),
    }
}

// Checks an admission, after `kept` entries of its chapter.
fn check_admit<'a>(state: &PortState, kept: usize, row: &'a Row) -> Result<Checked<'a>, Refusal>
    ensures ok { IfOk result (IsChecked kept state.now (Event.Admit row.now)) }
    ensures refused { IfErr result (λ told. first_refusal kept state.now (Event.Admit row.now)
        ≡ Some told) }
{
    refuse_if(state.roster.admit_refusal(row))?;
    check_chapter(state, kept)?;
    Ok(Checked::Admit(row))
}

// Checks a change of a descriptor.
fn check_change<'a>(
    state: &PortState,
    kept: usize,
    alloc_id: AllocId,
    descriptor: &'a Descriptor,
) -> Result<Checked<'a>, Refusal>
    ensures ok { IfOk result (IsChecked kept state.now (Event.Change alloc_id descriptor.now)) }
    ensures refused { IfErr result (λ told. first_refusal kept state.now (Event.Change alloc_id descriptor.now)
        ≡ Some told) }
{
    refuse_if(state.roster.change_refusal(alloc_id, descriptor))?;
    check_chapter(state, kept)?;
    Ok(Checked::Change(alloc_id, descriptor))
}

// Checks a removal.
fn check_remove<'a>(
    state: &PortState,
    kept: usize,
    alloc_id: AllocId,
) -> Result<Checked<'a>, Refusal>
    ensures ok { IfOk result (IsChecked kept state.now (Event.Remove alloc_id)) }
    ensures refused { IfErr result (λ told. first_refusal kept state.now (Event.Remove alloc_id)
        ≡ Some told) }
{
    refuse_if(state.roster.remove_refusal(alloc_id))?;
    check_chapter(state, kept)?;
    Ok(Checked::Remove(alloc_id))
}

// Checks a report.
fn check_report<'a>(
    state: &PortState,
    kept: usize,
    frame: FrameNo,
    onu: OnuId,
    occ: &'a Occupancies,
) -> Result<Checked<'a>, Refusal>
    ensures ok { IfOk result (IsChecked kept state.now (Event.Report frame onu occ.now)) }
    ensures refused { IfErr result (λ told. first_refusal kept state.now (Event.Report frame onu occ.now)
        ≡ Some told) }
{
    check_up(state)?;
    let count = occ.as_slice().len();
    let report = state.loads.window().accept(frame, onu, count)?;
    check_chapter(state, kept)?;
    Ok(Checked::Report(report, occ))
}

// Checks a request for a map.
fn check_map<'a>(state: &PortState, kept: usize) -> Result<Checked<'a>, Refusal>
    ensures ok { IfOk result (IsChecked kept state.now (Event.MakeMap)) }
    ensures refused { IfErr result (λ told. first_refusal kept state.now (Event.MakeMap)
        ≡ Some told) }
{
    check_up(state)?;
    if state.next.get() == u64::MAX {
        return Err(Refusal::FrameLimit);
    }
    check_chapter(state, kept)?;
    Ok(Checked::MakeMap)
}

// Checks a line failure.
fn check_fail<'a>(state: &PortState, kept: usize, cause: Cause) -> Result<Checked<'a>, Refusal>
    ensures ok { IfOk result (IsChecked kept state.now (Event.Fail cause)) }
    ensures refused { IfErr result (λ told. first_refusal kept state.now (Event.Fail cause)
        ≡ Some told) }
{
    check_up(state)?;
    check_chapter(state, kept)?;
    Ok(Checked::Fail(cause))
}

// Checks a restoration.
fn check_restore<'a>(state: &PortState, kept: usize) -> Result<Checked<'a>, Refusal>
    ensures ok { IfOk result (IsChecked kept state.now (Event.Restore)) }
    ensures refused { IfErr result (λ told. first_refusal kept state.now (Event.Restore)
        ≡ Some told) }
{
    if state.cause.is_none() {
        return Err(Refusal::PortUp);
    }
    check_chapter(state, kept)?;
    Ok(Checked::Restore)
}

/// Checks an event, after `kept` entries of its chapter. Returns the event with what the checks found.
///
/// # Errors
///
/// The first refusal of the event.
pub fn check<'a>(state: &PortState, kept: usize, event: &'a Event) -> Result<Checked<'a>, Refusal>
    ensures ok { IfOk result (IsChecked kept state.now event.now) }
    ensures refused { IfErr result (λ told. first_refusal kept state.now event.now ≡ Some told) }
{
    match event {
        Event::Admit(row) => check_admit(state, kept, row),
        Event::Change {
            alloc_id,
            descriptor,
        } => check_change(state, kept, *alloc_id, descriptor),
        Event::Remove { alloc_id } => check_remove(state, kept, *alloc_id),
        Event::Report { frame, onu, occ } => check_report(state, kept, *frame, *onu, occ),
        Event::MakeMap => check_map(state, kept),
        Event::Fail { cause } => check_fail(state, kept, *cause),
        Event::Restore => check_restore(state, kept),
    }
}
