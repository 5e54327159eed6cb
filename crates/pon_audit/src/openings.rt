//! The state that a recorded chapter opens with, if it is lawful.

ghost use Rattle.std.specs.Prelude.{◌≡◌, ◌==◌, ◌↔◌, ◌<◌, All, Contains, IfOk, IfSome, IsTrue, MatchOption, None, map};
ghost use Rattle.pon_admit.specs.Roster.{IsAdmitted, IsInMapOrder, comes_before};
ghost use Rattle.pon_guar.specs.Parts.{AreParts, loads_from};
ghost use Rattle.pon_guar.specs.Window.{AreConsecutive, frame_after};
ghost use Rattle.pon_history.specs.Chapters.{IsLawfulOpening, OpensFirst};
ghost use Rattle.pon_state.specs.LawfulStates.{HasNumbersInRange, IsSilent};
ghost use Rattle.pon_record.specs.Openings.{KeepsLimits};
ghost use Rattle.pon_audit.specs.Openings.{AreQuiet, Fits, GrantIsOwned, IsBare, MapIsOwned, ReportIsLawful, RowIsLawful, accounts_of, admitted_row, has_row, roster_of, row_account, row_carries, state_of};

use pon_admit::{Roster, Row, Rule};
use pon_guar::{Account, Counted, Loads, LoadsFault, MapParts};
use pon_record::{Opening, RawMap, RawRow};
use pon_state::{PortState, StateParts};
use pon_units::{AllocId, FrameNo, Gap, Granted, OnuId};
use std::alloc::{AllocError, Global};

// Returns whether an opening has no rows, no window, no cause and no earlier entries.
fn is_bare(opening: &Opening) -> bool
    ensures { IsTrue result ↔ IsBare opening.now }
{
    opening.rows.is_empty()
        && opening.window.is_empty()
        && opening.cause.is_none()
        && opening.taken_before == 0
}

// Returns whether the chapter is not the first, or opens with a port just opened.
fn opens_first(number: u64, opening: &Opening) -> bool
    ensures { IsTrue result ↔ OpensFirst number (state_of opening.now) }
{
    number != 0 || is_bare(opening)
}

// Returns whether no row has a counted report.
fn have_no_reports(rows: &[RawRow]) -> bool
    ensures { IsTrue result ↔ All (λ r. r.counted ≡ None) rows.now }
{
    for row in rows {
        if row.counted.is_some() {
            return false;
        }
    }
    true
}

// Returns whether there are no maps and no counted reports.
fn are_quiet(rows: &[RawRow], window: &[RawMap]) -> bool
    ensures { IsTrue result ↔ AreQuiet rows.now window.now }
{
    window.is_empty() && have_no_reports(rows)
}

// Returns whether the port is up, or has no window and no counted reports.
fn is_silent_if_failed(opening: &Opening) -> bool
    ensures { IsTrue result ↔ IfSome opening.now.cause (λ c. IsSilent (state_of opening.now)) }
{
    match opening.cause {
        Some(_) => are_quiet(&opening.rows, &opening.window),
        None => true,
    }
}

// Returns whether a row comes before another in map order.
fn comes_before(row: &RawRow, other: &RawRow) -> bool
    ensures { result ≡ comes_before (admitted_row row.now) (admitted_row other.now) }
{
    row.onu < other.onu || (row.onu == other.onu && row.alloc_id < other.alloc_id)
}

// Returns whether rows are in map order.
fn are_in_map_order(rows: &[RawRow]) -> bool
    ensures { IsTrue result ↔ IsInMapOrder (map admitted_row rows.now) }
{
    for place in 1..rows.len() {
        if !comes_before(&rows[place - 1], &rows[place]) {
            return false;
        }
    }
    true
}

// Admits rows in order, under a rule; `None` if they are no admitted set in map order. `Err` only if memory is refused.
fn admit_rows(
    alloc: Global,
    rule: Rule,
    gap: Gap,
    rows: &[RawRow],
) -> Result<Option<Roster>, AllocError>
    ensures { IfOk result (λ found. MatchOption found
        (IsAdmitted rule gap (map admitted_row rows.now) → ⊥)
        (λ roster. IsAdmitted rule gap (map admitted_row rows.now)
        × (roster ≡ record {
          rule = rule;
          gap = gap;
          rows = map admitted_row rows.now;
        }))) }
{
    if !are_in_map_order(rows) {
        return Ok(None);
    }
    let mut roster = Roster::open_with(alloc, gap, rule)?;
    for raw in rows {
        let row = Row::new(raw.onu, raw.alloc_id, raw.descriptor);
        if roster.admit_refusal(&row).is_some() {
            return Ok(None);
        }
        roster.take_row(row)?;
    }
    Ok(Some(roster))
}

// Makes the account of each row. `Err` only if memory is refused.
fn row_accounts(alloc: Global, rows: &[RawRow]) -> Result<Vec<Account>, AllocError>
    ensures { IfOk result (λ accounts. accounts.items ≡ map row_account rows.now) }
{
    rows.iter()
        .map(|row| Account {
            alloc_id: row.alloc_id,
            since: row.since,
            counted: row.counted,
        })
        .collect(alloc)
}

// Lends the maps of a window. `Err` only if memory is refused.
fn map_parts<'a>(alloc: Global, window: &'a [RawMap]) -> Result<Vec<MapParts<'a>>, AllocError>
    ensures { IfOk result (λ maps. maps.items ≡ window.now) }
{
    let mut maps = Vec::with_capacity(alloc, window.len())?;
    for map in window {
        maps.push(MapParts {
            frame: map.frame,
            grants: &map.grants,
            reported: &map.reported,
        })?;
    }
    Ok(maps)
}

// Makes the report book of the rows and the window; `None` if they make none. `Err` only if memory is refused.
fn restore_loads(alloc: Global, opening: &Opening) -> Result<Option<Loads>, AllocError>
    ensures { IfOk result (λ found. MatchOption found
        (AreParts (accounts_of opening.now) opening.now.window → ⊥)
        (λ loads. AreParts (accounts_of opening.now) opening.now.window
        × (loads ≡ loads_from (accounts_of opening.now) opening.now.window))) }
{
    let accounts = row_accounts(alloc, &opening.rows)?;
    let maps = map_parts(alloc, &opening.window)?;
    match Loads::from_parts(alloc, &accounts, &maps) {
        Ok(loads) => Ok(Some(loads)),
        Err(LoadsFault::Unlawful) => Ok(None),
        Err(LoadsFault::Memory) => Err(AllocError),
    }
}

// Returns whether maps of consecutive frames end before the next frame, or there are none.
fn leads_to(window: &[RawMap], next: FrameNo) -> bool
    requires { AreConsecutive (frame_after window.now) window.now }
    ensures { IsTrue result ↔ AreConsecutive next window.now }
{
    match window.first() {
        None => true,
        Some(map) => {
            let frame = map.frame.get();
            frame <= next.get() && next.get() - frame == window.len() as u64
        }
    }
}

// Returns whether a map is of another frame, or an ONU reported for it.
fn is_reported(map: &RawMap, frame: FrameNo, onu: OnuId) -> bool
    ensures { IsTrue result ↔ (map.now.frame ≡ frame → Contains map.now.reported onu) }
{
    map.frame != frame || map.reported.contains(&onu)
}

// Returns whether an ONU reported for the map of a frame, or no map is of the frame.
fn reported_if_there(window: &[RawMap], frame: FrameNo, onu: OnuId) -> bool
    ensures { IsTrue result ↔ All (λ m. m.frame ≡ frame → Contains m.reported onu) window.now }
{
    for map in window {
        if !is_reported(map, frame, onu) {
            return false;
        }
    }
    true
}

// Returns whether a counted report of a row is lawful.
fn is_lawful_report(row: &RawRow, report: Counted, next: FrameNo, window: &[RawMap]) -> bool
    ensures { IsTrue result ↔ ReportIsLawful next window.now row.now report }
{
    row.since <= report.frame
        && report.frame < next
        && reported_if_there(window, report.frame, row.onu)
}

// Returns whether the since-frame and the counted report of a row are lawful.
fn is_lawful_row(row: &RawRow, next: FrameNo, window: &[RawMap]) -> bool
    ensures { IsTrue result ↔ RowIsLawful next window.now row.now }
{
    if row.since > next {
        return false;
    }
    match row.counted {
        Some(report) => is_lawful_report(row, report, next, window),
        None => true,
    }
}

// Returns whether the since-frame and the counted report of each row are lawful.
fn are_lawful_rows(opening: &Opening) -> bool
    ensures { IsTrue result ↔ All (RowIsLawful opening.now.next opening.now.window) opening.now.rows }
{
    for row in &opening.rows {
        if !is_lawful_row(row, opening.next, &opening.window) {
            return false;
        }
    }
    true
}

// Returns whether an ONU owns an Alloc-ID, by a binary search.
fn has_row(rows: &[Row], onu: OnuId, alloc_id: AllocId) -> bool
    requires { IsInMapOrder rows.now }
    ensures { result ≡ has_row onu alloc_id rows.now }
{
    let earlier = rows.partition_point(|row| {
        row.onu < onu || (row.onu == onu && row.alloc_id < alloc_id)
    });
    let (_, others) = rows.split_at(earlier);
    match others.split_first() {
        Some((row, _)) => row.onu == onu && row.alloc_id == alloc_id,
        None => false,
    }
}

// Returns whether a grant in the map of a frame is to the owner of its Alloc-ID, or of before its since-frame.
fn is_owned(rows: &[Row], loads: &Loads, frame: FrameNo, granted: &Granted) -> bool
    requires { IsInMapOrder rows.now }
    ensures { IsTrue result ↔ GrantIsOwned rows.now loads.now.accounts frame granted.now }
{
    match loads.account(granted.alloc_id) {
        Some(account) if account.since <= frame => has_row(rows, granted.onu, granted.alloc_id),
        _ => true,
    }
}

// Returns whether each grant of a map is owned.
fn is_owned_map(rows: &[Row], loads: &Loads, map: &RawMap) -> bool
    requires { IsInMapOrder rows.now }
    ensures { IsTrue result ↔ MapIsOwned rows.now loads.now.accounts map.now }
{
    for granted in &map.grants {
        if !is_owned(rows, loads, map.frame, granted) {
            return false;
        }
    }
    true
}

// Returns whether each grant of each map is owned.
fn are_owned_maps(rows: &[Row], loads: &Loads, window: &[RawMap]) -> bool
    requires { IsInMapOrder rows.now }
    ensures { IsTrue result ↔ All (MapIsOwned rows.now loads.now.accounts) window.now }
{
    for map in window {
        if !is_owned_map(rows, loads, map) {
            return false;
        }
    }
    true
}

// Returns whether the rows and the window of an opening fit each other and the next frame. The roster and the report
// book are made of them.
fn fits(opening: &Opening, rows: &[Row], loads: &Loads) -> bool
    requires frames { AreConsecutive (frame_after opening.now.window) opening.now.window }
    requires rows { IsInMapOrder rows.now }
    ensures { IsTrue result ↔ Fits opening.now rows.now loads.now.accounts }
{
    leads_to(&opening.window, opening.next)
        && are_lawful_rows(opening)
        && are_owned_maps(rows, loads, &opening.window)
}

// Returns whether a chapter of this number may open with a port that was just opened, or failed, as this opening has it.
fn is_open_as_numbered(number: u64, opening: &Opening) -> bool
    ensures { IsTrue result ↔ (OpensFirst number (state_of opening.now)
        × IfSome opening.now.cause (λ c. IsSilent (state_of opening.now))) }
{
    opens_first(number, opening) && is_silent_if_failed(opening)
}

// Returns what the last map left to each row. `Err` only if memory is refused.
fn carries_of(alloc: Global, opening: &Opening) -> Result<Vec<u8>, AllocError>
    ensures { IfOk result (λ carries. carries.items ≡ row_carries opening.now) }
{
    opening.rows.iter().map(|row| row.carry).collect(alloc)
}

// Makes the state of a roster and a report book that are made of an opening. `Err` only if memory is refused.
fn state_of_parts(
    alloc: Global,
    opening: &Opening,
    roster: Roster,
    loads: Loads,
) -> Result<PortState, AllocError>
    requires roster { roster ≡ record {
      rule = opening.now.rule;
      gap = opening.now.gap;
      rows = roster_of opening.now;
    } }
    requires loads { loads ≡ loads_from (accounts_of opening.now) opening.now.window }
    ensures { IfOk result (λ state. state ≡ state_of opening.now) }
{
    let carries = carries_of(alloc, opening)?;
    Ok(PortState::from_parts(StateParts {
        profile: opening.profile,
        next: opening.next,
        cause: opening.cause,
        taken_before: opening.taken_before,
        roster,
        loads,
        carries,
    }))
}

// The numbers of an opening are in range by their types.
fn prove_numbers(opening: &Opening)
    ensures { HasNumbersInRange (state_of opening.now) }
{
    let _gap = opening.gap.get();
    let _profile = opening.profile.get();
    let _next = opening.next.get();
    let _taken_before = opening.taken_before;
}

/// Makes the state that a chapter of this number opens with; `None` if the opening is not lawful.
///
/// # Errors
///
/// `AllocError` only if memory is refused.
pub fn open_state(
    alloc: Global,
    number: u64,
    opening: &Opening,
) -> Result<Option<PortState>, AllocError>
    requires { KeepsLimits opening.now }
    ensures { IfOk result (λ found. MatchOption found
        (IsLawfulOpening number (state_of opening.now) → ⊥)
        (λ state. IsLawfulOpening number (state_of opening.now)
        × (state ≡ state_of opening.now))) }
{
    prove_numbers(opening);
    if !is_open_as_numbered(number, opening) {
        return Ok(None);
    }
    let roster = match admit_rows(alloc, opening.rule, opening.gap, &opening.rows)? {
        Some(roster) => roster,
        None => return Ok(None),
    };
    let loads = match restore_loads(alloc, opening)? {
        Some(loads) => loads,
        None => return Ok(None),
    };
    if !fits(opening, roster.rows(), &loads) {
        return Ok(None);
    }
    let state = state_of_parts(alloc, opening, roster, loads)?;
    Ok(Some(state))
}
