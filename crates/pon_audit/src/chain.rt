//! Whether a chapter opens with the state at the end of another.

ghost use Rattle.std.specs.Prelude.{◌≡◌, ◌↔◌, All, IsTrue, map};
ghost use Rattle.pon_history.specs.Taking.{IsKept};
ghost use Rattle.pon_record.specs.Chapters.{Body};
ghost use Rattle.pon_audit.specs.Openings.{OpensLawfully, admitted_row, chapter_of, state_of};
ghost use Rattle.pon_audit.specs.Chains.{HasAccount, HasNumbers, HasParts, IsBefore};
ghost use Rattle.pon_audit.specs.Judging.{IsKeptEnd, OpensAt};

use crate::ends::End;
use pon_admit::Row;
use pon_guar::{Loads, WindowMap};
use pon_record::{Opening, RawChapter, RawMap, RawRow};
use pon_state::PortState;
use pon_units::{Granted, OnuId};

// Returns whether a recorded row is an admitted one.
fn is_same_row(raw: &RawRow, row: &Row) -> bool
    ensures { IsTrue result ↔ (admitted_row raw.now ≡ row.now) }
{
    raw.onu == row.onu && raw.alloc_id == row.alloc_id && raw.descriptor == row.descriptor
}

// Returns whether recorded rows are the admitted ones in the same order.
fn are_same_rows(raws: &[RawRow], rows: &[Row]) -> bool
    ensures { IsTrue result ↔ (map admitted_row raws.now ≡ rows.now) }
{
    if raws.len() != rows.len() {
        return false;
    }
    for place in 0..raws.len() {
        if !is_same_row(&raws[place], &rows[place]) {
            return false;
        }
    }
    true
}

// Returns whether the carries of recorded rows are these in the same order.
fn are_same_carries(raws: &[RawRow], carries: &[u8]) -> bool
    ensures { IsTrue result ↔ (map (λ r. r.carry) raws.now ≡ carries.now) }
{
    if raws.len() != carries.len() {
        return false;
    }
    for place in 0..raws.len() {
        if raws[place].carry != carries[place] {
            return false;
        }
    }
    true
}

// Returns whether a report book has the account of a recorded row.
fn has_account(raw: &RawRow, loads: &Loads) -> bool
    ensures { IsTrue result ↔ HasAccount loads.now.accounts raw.now }
{
    match loads.account(raw.alloc_id) {
        Some(account) => account.since == raw.since && account.counted == raw.counted,
        None => false,
    }
}

// Returns whether a report book has the account of each recorded row.
fn has_accounts(raws: &[RawRow], loads: &Loads) -> bool
    ensures { IsTrue result ↔ All (HasAccount loads.now.accounts) raws.now }
{
    for raw in raws {
        if !has_account(raw, loads) {
            return false;
        }
    }
    true
}

// Returns whether grants are the same in the same order.
fn are_same_grants(grants: &[Granted], others: &[Granted]) -> bool
    ensures { IsTrue result ↔ (grants.now ≡ others.now) }
{
    grants == others
}

// Returns whether ONU-IDs are the same in the same order.
fn are_same_onus(onus: &[OnuId], others: &[OnuId]) -> bool
    ensures { IsTrue result ↔ (onus.now ≡ others.now) }
{
    onus == others
}

// Returns whether a recorded map is one of a window.
fn is_same_map(raw: &RawMap, map: &WindowMap) -> bool
    ensures { IsTrue result ↔ (raw.now ≡ map.now) }
{
    raw.frame == map.frame()
        && are_same_grants(&raw.grants, map.grants())
        && are_same_onus(&raw.reported, map.reported())
}

// Returns whether recorded maps are those of a window.
fn is_same_window(raws: &[RawMap], maps: &[WindowMap]) -> bool
    ensures { IsTrue result ↔ (raws.now ≡ maps.now) }
{
    if raws.len() != maps.len() {
        return false;
    }
    for place in 0..raws.len() {
        if !is_same_map(&raws[place], &maps[place]) {
            return false;
        }
    }
    true
}

// Returns whether an opening has the numbers of a state: rule, gap, profile, next frame, cause and number of earlier
// entries.
fn has_numbers(opening: &Opening, state: &PortState) -> bool
    ensures { IsTrue result ↔ HasNumbers opening.now state.now }
{
    let cfg = state.cfg();
    opening.rule == state.roster().rule()
        && opening.gap == cfg.gap
        && opening.profile == cfg.profile
        && opening.next == state.next_frame()
        && opening.cause == state.cause()
        && opening.taken_before == state.taken_before()
}

// Returns whether an opening has the numbers, the rows, their carries and accounts, and the window of a state.
fn has_parts(opening: &Opening, state: &PortState) -> bool
    ensures { IsTrue result ↔ HasParts opening.now state.now }
{
    has_numbers(opening, state)
        && are_same_rows(&opening.rows, state.roster().rows())
        && are_same_carries(&opening.rows, state.carries())
        && has_accounts(&opening.rows, state.loads())
        && is_same_window(&opening.window, state.loads().window().maps())
}

/// Returns whether a chapter opens with the state at the end of another. It compares the opening with that state once.
pub(crate) fn opens_with(chapter: &RawChapter, end: &PortState) -> bool
    requires opens { OpensLawfully chapter.now.body }
    requires end { (b : Body) × IsKept (chapter_of b) end.now }
    ensures { IsTrue result ↔ (state_of chapter.now.body.opening ≡ end.now) }
{
    has_parts(&chapter.opening, end)
}

// Returns whether an end is of the same port as a chapter, with the number before.
fn is_before(end: &End, chapter: &RawChapter) -> bool
    ensures { IsTrue result ↔ IsBefore end.now chapter.now }
{
    end.port == chapter.port && end.number < chapter.number && chapter.number - end.number == 1
}

// Returns whether a chapter opens with an end, if that is of the number before in its port.
fn opens_at(chapter: &RawChapter, end: &End) -> bool
    requires opens { OpensLawfully chapter.now.body }
    requires end { IsKeptEnd end.now }
    ensures { IsTrue result ↔ OpensAt chapter.now end.now }
{
    !is_before(end, chapter) || opens_with(chapter, &end.end)
}

/// Returns whether a chapter opens with each of these ends that is of the number before in its port.
pub(crate) fn is_chained(chapter: &RawChapter, ends: &[End]) -> bool
    requires opens { OpensLawfully chapter.now.body }
    requires ends { All IsKeptEnd ends.now }
    ensures { IsTrue result ↔ All (OpensAt chapter.now) ends.now }
{
    for end in ends {
        if !opens_at(chapter, end) {
            return false;
        }
    }
    true
}
