//! The state after one more entry.

ghost use Rattle.std.specs.Prelude.{◌≡◌, ◌==◌, ◌+◌, ◌<◌, ◌≤◌, ◌^◌, false, None, Some, length, vec_len, vec_capacity, OnOk, OnErr};
ghost use Rattle.std.specs.List.{insert, list_any, remove};
ghost use Rattle.pon_units.specs.Granted.{AreInMapOrder};
ghost use Rattle.pon_admit.specs.Roster.{IsAdmitted, refuses_admit, refuses_change, refuses_remove};
ghost use Rattle.pon_guar.specs.Book.{AreRising, alloc_ids};
ghost use Rattle.pon_guar.specs.Window.{AreConsecutive};
ghost use Rattle.pon_guar.specs.AcceptedReports.{IsAccepted};
ghost use Rattle.pon_demand.specs.Carries.{AreCarries};
ghost use Rattle.pon_state.specs.Accounts.{AccountsFor};
ghost use Rattle.pon_state.specs.Checked.{IsFound, event_of};
ghost use Rattle.pon_state.specs.Checks.{refuses};
ghost use Rattle.pon_state.specs.Maps.{makes_map};
ghost use Rattle.pon_state.specs.After.{after_admit, after_change, after_cut, after_event, after_map, after_remove, after_report};

use crate::checks::Checked;
use crate::state::PortState;
use pon_admit::Row;
use pon_dbru::Occupancies;
use pon_demand::Grants;
use pon_descr::{Cause, Descriptor};
use pon_guar::Accepted;
use pon_units::{AllocId, FrameNo, Granted};
use std::alloc::AllocError;
use std::mem;

/// Updates the state by a map of the next frame, of which it keeps the grants and what they leave to each Alloc-ID.
/// Returns lists that a later map may use the memory of: the grants of the map that left the window, if one did, and
/// the former carries.
///
/// # Errors
///
/// `AllocError` only if memory is refused; then the state is unchanged.
pub fn add_map(
    state: &mut PortState,
    grants: Vec<Granted>,
    carries: Vec<u8>,
) -> Result<Grants, AllocError>
    requires map_order { AreInMapOrder grants.items }
    requires frames { AreConsecutive state.old.next state.old.window }
    requires next { state.old.next + 1 < 2 ^ 64 }
    requires count { state.old.taken_before + 1 < 2 ^ 64 }
    ensures ok { OnOk result (state.new ≡ after_map state.old grants.items carries.items) }
    ensures err { OnErr result (state.new ≡ state.old) }
{
    let grants = state.loads.add_map(state.next, grants)?;
    let carries = mem::replace(&mut state.carries, carries);
    state.next = FrameNo::new(state.next.get() + 1);
    state.taken_before += 1;
    Ok(Grants { grants, carries })
}

// Inserts the carry of a row just admitted, at the place of the row.
fn insert_carry(carries: &mut Vec<u8>, place: usize)
    requires within { place ≤ length carries.old.items }
    requires room { vec_len carries.old < vec_capacity carries.old }
    ensures { carries.new.items ≡ insert carries.old.items place 0 }
{
    carries.insert(place, 0).unwrap();
}

// Removes the carry of a row, at its place.
fn remove_carry(carries: &mut Vec<u8>, place: usize)
    requires { place < length carries.old.items }
    ensures { carries.new.items ≡ remove carries.old.items place }
{
    carries.remove(place);
}

// Admits a row that no check refuses. `Err` only if memory is refused, and then the state is unchanged.
fn admit_row(state: &mut PortState, row: &Row) -> Result<(), AllocError>
    requires accepted { refuses_admit state.old.rule state.old.gap state.old.roster row.now ≡ None }
    requires admitted { IsAdmitted state.old.rule state.old.gap state.old.roster }
    requires carries { AreCarries state.old.rule state.old.roster state.old.carries }
    requires rising { AreRising (alloc_ids state.old.book) }
    requires free { list_any (λ j. j == row.now.alloc_id) (alloc_ids state.old.book) ≡ false }
    requires count { state.old.taken_before + 1 < 2 ^ 64 }
    ensures ok { OnOk result (state.new ≡ after_admit state.old row.now) }
    ensures err { OnErr result (state.new ≡ state.old) }
{
    let place = state.roster.place_for(row);
    state.carries.reserve(1)?;
    if state.loads.admitted(row.alloc_id, state.next).is_err() {
        return Err(AllocError);
    }
    if state.roster.take_row(*row).is_err() {
        state.loads.removed(row.alloc_id);
        return Err(AllocError);
    }
    insert_carry(&mut state.carries, place);
    state.taken_before += 1;
    Ok(())
}

// Gives an Alloc-ID another descriptor that no check refuses.
fn change_row(state: &mut PortState, alloc_id: AllocId, descriptor: Descriptor)
    requires accepted { refuses_change state.old.rule state.old.gap state.old.roster alloc_id
        descriptor ≡ None }
    requires count { state.old.taken_before + 1 < 2 ^ 64 }
    ensures { state.new ≡ after_change state.old alloc_id descriptor }
{
    state.roster.take_descriptor(alloc_id, descriptor);
    state.taken_before += 1;
}

// Removes an admitted Alloc-ID.
fn remove_row(state: &mut PortState, alloc_id: AllocId)
    requires accepted { refuses_remove state.old.roster alloc_id ≡ None }
    requires admitted { IsAdmitted state.old.rule state.old.gap state.old.roster }
    requires carries { AreCarries state.old.rule state.old.roster state.old.carries }
    requires count { state.old.taken_before + 1 < 2 ^ 64 }
    ensures { state.new ≡ after_remove state.old alloc_id }
{
    let place = match state.roster.place_of(alloc_id) {
        Some(place) => place,
        None => unreachable!(),
    };
    remove_carry(&mut state.carries, place);
    state.roster.take_removal(alloc_id);
    state.loads.removed(alloc_id);
    state.taken_before += 1;
}

// Takes an accepted report. `Err` only if memory is refused, and then the state is unchanged.
fn take_report(
    state: &mut PortState,
    report: &Accepted,
    occ: &Occupancies,
) -> Result<(), AllocError>
    requires accepted { IsAccepted state.old.window report.now.frame report.now.onu
        (length occ.now) report.now }
    requires count { state.old.taken_before + 1 < 2 ^ 64 }
    ensures ok { OnOk result (state.new
        ≡ after_report state.old report.now.frame report.now.onu occ.now) }
    ensures err { OnErr result (state.new ≡ state.old) }
{
    state.loads.take_report(report, occ.as_slice())?;
    state.taken_before += 1;
    Ok(())
}

// Drops the reports and the window at a line failure, which has a cause, or at a restoration, which has none.
fn forget_reports(state: &mut PortState, cause: Option<Cause>)
    requires count { state.old.taken_before + 1 < 2 ^ 64 }
    ensures { state.new ≡ after_cut state.old cause }
{
    state.loads.cleared(state.next);
    state.cause = cause;
    state.taken_before += 1;
}

/// Updates the state by a checked event that makes no map.
///
/// # Errors
///
/// `AllocError` only if memory is refused; then the state is unchanged.
pub fn step(state: &mut PortState, checked: &Checked<'_>) -> Result<(), AllocError>
    requires plain { makes_map (event_of checked.now) ≡ false }
    requires accepted { refuses state.old (event_of checked.now) ≡ None }
    requires found { IsFound state.old checked.now }
    requires book { AccountsFor state.old.roster state.old.book }
    requires admitted { IsAdmitted state.old.rule state.old.gap state.old.roster }
    requires carries { AreCarries state.old.rule state.old.roster state.old.carries }
    requires count { state.old.taken_before + 1 < 2 ^ 64 }
    ensures ok { OnOk result (state.new ≡ after_event state.old (event_of checked.now)) }
    ensures err { OnErr result (state.new ≡ state.old) }
{
    match checked {
        Checked::Admit(row) => return admit_row(state, row),
        Checked::Change(alloc_id, descriptor) => change_row(state, *alloc_id, **descriptor),
        Checked::Remove(alloc_id) => remove_row(state, *alloc_id),
        Checked::Report(report, occ) => return take_report(state, report, occ),
        Checked::MakeMap => unreachable!(),
        Checked::Fail(cause) => forget_reports(state, Some(*cause)),
        Checked::Restore => forget_reports(state, None),
    }
    Ok(())
}
