//! The audit of the entries of a chapter, one after another.

ghost use Rattle.std.specs.Prelude.{◌≡◌, ◌↔◌, ◌+◌, ◌<◌, ◌^◌, IfOk, IsTrue, MatchOption, map};
ghost use Rattle.pon_admit.specs.Roster.{IsAdmitted};
ghost use Rattle.pon_guar.specs.Window.{AreConsecutive};
ghost use Rattle.pon_demand.specs.Maps.{map_of};
ghost use Rattle.pon_demand.specs.Problems.{AreProblems};
ghost use Rattle.pon_demand.specs.Sharing.{IsCertified, surplus_rate};
ghost use Rattle.pon_state.specs.Accounts.{AccountsFor};
ghost use Rattle.pon_state.specs.After.{after_entry, after_map};
ghost use Rattle.pon_state.specs.Legal.{IsMade, MayFollow};
ghost use Rattle.pon_state.specs.Maps.{grants_in_map};
ghost use Rattle.pon_demand.specs.Carries.{AreCarries};
ghost use Rattle.pon_state.specs.Carries.{carries_left};
ghost use Rattle.pon_state.specs.State.{carry_at, input_of};
ghost use Rattle.pon_record.specs.Chapters.{reply_to};
ghost use Rattle.pon_audit.specs.Faults.{EntryFails, HasAccepted, HasWrongWords, MapFails, map_entry};

use crate::verdict::AuditReason;
use pon_admit::Event;
use pon_bwmap::{Alloc, Map};
use pon_cert::MapCert;
use pon_check::check_map;
use pon_demand::{MapBuffers, Problems};
use pon_state::{
    Entry, EntryRef, MadeMap, MapUnder, PortState, Reply, add_map, check, map_under, next_problems,
    prove_in_range, step,
};
use std::alloc::{AllocError, Global};

// Returns whether both have the same Alloc-IDs in the same order.
fn same_ids(rows: &[Alloc], others: &[Alloc]) -> bool
    ensures { IsTrue result ↔ (map (λ a. a.id) rows.now ≡ map (λ a. a.id) others.now) }
{
    if rows.len() != others.len() {
        return false;
    }
    for i in 0..rows.len() {
        if rows[i].id() != others[i].id() {
            return false;
        }
    }
    true
}

// Returns whether both have the same grants in the same order.
fn same_grants(rows: &[Alloc], others: &[Alloc]) -> bool
    ensures { IsTrue result ↔ (map (λ a. a.grant) rows.now ≡ map (λ a. a.grant) others.now) }
{
    if rows.len() != others.len() {
        return false;
    }
    for i in 0..rows.len() {
        if rows[i].grant() != others[i].grant() {
            return false;
        }
    }
    true
}

// Returns whether a map with an accepted certificate is the one that the state makes, which has the structures
// `wanted`.
fn is_made(state: &PortState, wanted: &Map, made: &MadeMap) -> bool
    requires certified { IsCertified (input_of state.now) made.now.cert }
    requires wanted { wanted.now ≡ map_of state.now.profile (input_of state.now)
        (surplus_rate (input_of state.now) made.now.cert) (carry_at state.now) }
    ensures { IsTrue result ↔ IsMade state.now made.now }
{
    made.map == *wanted && made.frame == state.next_frame()
}

// Returns whether a map lists the Alloc-IDs of `wanted`, the structures that the state makes, with another grant.
fn has_wrong_words(state: &PortState, wanted: &Map, made: &MadeMap) -> bool
    requires wanted { wanted.now ≡ map_of state.now.profile (input_of state.now)
        (surplus_rate (input_of state.now) made.now.cert) (carry_at state.now) }
    ensures { IsTrue result ↔ HasWrongWords state.now made.now }
{
    let _state = state;
    let (rows, others) = (made.map.rows(), wanted.rows());
    same_ids(rows, others) && !same_grants(rows, others)
}

// Returns why a map with an accepted certificate differs from the map that the state makes, which has the structures
// `wanted`.
fn map_fault(state: &PortState, wanted: &Map, made: &MadeMap) -> Option<AuditReason>
    requires certified { IsCertified (input_of state.now) made.now.cert }
    requires wanted { wanted.now ≡ map_of state.now.profile (input_of state.now)
        (surplus_rate (input_of state.now) made.now.cert) (carry_at state.now) }
    ensures { MatchOption result (IsMade state.now made.now) (MapFails state.now made.now) }
{
    if is_made(state, wanted, made) {
        None
    } else if has_wrong_words(state, wanted, made) {
        Some(AuditReason::Words)
    } else {
        Some(AuditReason::Bursts)
    }
}

/// Computes the class problems of the next map of a state, in the memory of `buffers`, if they accept a certificate;
/// `None` if they do not.
///
/// # Errors
///
/// `AllocError` only if memory is refused.
pub fn accepted_problems(
    alloc: Global,
    buffers: &mut MapBuffers,
    state: &PortState,
    cert: &MapCert,
) -> Result<Option<Problems>, AllocError>
    requires { IsAdmitted state.now.rule state.now.gap state.now.roster }
    ensures { IfOk result (HasAccepted state.now cert.now) }
{
    let problems = next_problems(alloc, buffers, state)?;
    let (na, be) = (problems.na.items.as_slice(), problems.be.items.as_slice());
    if check_map(na, be, problems.surplus, cert).is_err() {
        return Ok(None);
    }
    Ok(Some(problems))
}

// Checks a map with an accepted certificate, and applies it to the state if it is the one that the state makes. `Err`
// only if memory is refused.
fn take_accepted(
    alloc: Global,
    buffers: &mut MapBuffers,
    state: &mut PortState,
    made: &MadeMap,
    problems: Problems,
) -> Result<Option<AuditReason>, AllocError>
    requires admitted { IsAdmitted state.old.rule state.old.gap state.old.roster }
    requires carries { AreCarries state.old.rule state.old.roster state.old.carries }
    requires frames { AreConsecutive state.old.next state.old.window }
    requires next { state.old.next + 1 < 2 ^ 64 }
    requires count { state.old.taken_before + 1 < 2 ^ 64 }
    requires problems { AreProblems (input_of state.old) problems }
    requires certified { IsCertified (input_of state.old) made.now.cert }
    ensures { IfOk result (λ found. MatchOption found
        (IsMade state.old made.now
        × (state.new ≡ after_map state.old (grants_in_map state.old.roster made.now.map)
        (carries_left state.old (Reply.Map made.now))))
        (MapFails state.old made.now)) }
{
    let MapUnder {
        map,
        grants,
        carries,
    } = map_under(alloc, buffers, state, &problems, &made.cert)?;
    buffers.keep_demands(problems.demands);
    let fault = map_fault(state, &map, made);
    if fault.is_none() {
        buffers.keep_grants(add_map(state, grants, carries)?);
    }
    Ok(fault)
}

/// Checks a map that follows `kept` entries of its chapter, and applies it to the state if it may follow. `problems`
/// are the class problems of the state, if they accept its certificate. `buffers` is memory for its demands and grants.
///
/// # Errors
///
/// `AllocError` only if memory is refused.
pub fn take_map(
    alloc: Global,
    buffers: &mut MapBuffers,
    state: &mut PortState,
    kept: usize,
    made: &MadeMap,
    problems: Option<Problems>,
) -> Result<Option<AuditReason>, AllocError>
    requires admitted { IsAdmitted state.old.rule state.old.gap state.old.roster }
    requires carries { AreCarries state.old.rule state.old.roster state.old.carries }
    requires frames { AreConsecutive state.old.next state.old.window }
    requires problems { HasAccepted state.old made.now.cert problems }
    ensures { IfOk result (λ found. MatchOption found
        (MayFollow kept state.old (map_entry made.now)
        × (state.new ≡ after_entry state.old (map_entry made.now)))
        (EntryFails kept state.old (map_entry made.now))) }
{
    if check(state, kept, &Event::MakeMap).is_err() {
        return Ok(Some(AuditReason::Event));
    }
    match problems {
        Some(problems) => take_accepted(alloc, buffers, state, made, problems),
        None => Ok(Some(AuditReason::Certificate)),
    }
}

/// Checks an entry that follows `kept` entries of its chapter, and applies it to the state if it may follow. `buffers`
/// is memory for the demands and grants of a map.
///
/// # Errors
///
/// `AllocError` only if memory is refused.
pub fn take_entry(
    alloc: Global,
    buffers: &mut MapBuffers,
    state: &mut PortState,
    kept: usize,
    entry: &Entry,
) -> Result<Option<AuditReason>, AllocError>
    requires reply { (reply_to entry.now.event).Fits entry.now.reply }
    requires admitted { IsAdmitted state.old.rule state.old.gap state.old.roster }
    requires carries { AreCarries state.old.rule state.old.roster state.old.carries }
    requires book { AccountsFor state.old.roster state.old.book }
    requires frames { AreConsecutive state.old.next state.old.window }
    ensures { IfOk result (λ found. MatchOption found
        (MayFollow kept state.old entry.now × (state.new ≡ after_entry state.old entry.now))
        (EntryFails kept state.old entry.now)) }
{
    match entry.as_ref() {
        EntryRef::Map(made) => {
            let problems = accepted_problems(alloc, buffers, state, &made.cert)?;
            take_map(alloc, buffers, state, kept, made, problems)
        }
        EntryRef::Taken(event) => {
            let Ok(checked) = check(state, kept, event) else {
                return Ok(Some(AuditReason::Event));
            };
            prove_in_range(event);
            step(state, &checked)?;
            Ok(None)
        }
    }
}
