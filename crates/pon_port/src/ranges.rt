//! Whether a port of this version may be in a state. A state may be lawful and still be none that it makes: it may be
//! under an earlier rule, or its window may have a map of more ONUs than a port may have.

ghost use Rattle.std.specs.Prelude.{◌≡◌, ◌↔◌, ◌<◌, ◌==◌, All, IsTrue, get_or, length, not, take};
ghost use Rattle.std.specs.List.{list_any};
ghost use Rattle.pon_units.specs.Granted.{AreInMapOrder, onus_granted};
ghost use Rattle.pon_units.specs.declared.granted.Granted.{Granted};
ghost use Rattle.pon_guar.specs.Book.{account_of, known_report};
ghost use Rattle.pon_guar.specs.Window.{IsLawfulMap};
ghost use Rattle.pon_state.specs.LawfulStates.{IsLawfulState};
ghost use Rattle.pon_state.specs.Ranges.{AreGrantsInRange, IsGrantInRange, IsStateInRange};
ghost use Rattle.pon_port.specs.Ranges.{HasCauseInRange, IsReportInRange, AreReportsInRange};

use pon_admit::RULE_IN_FORCE;
use pon_guar::{Loads, WindowMap};
use pon_state::PortState;
use pon_units::{AllocId, Granted, MAX_ONUS, MAX_STRUCTURES};

// Returns whether the grant at a place is the first one to its ONU.
fn begins_onu(grants: &[Granted], place: usize) -> bool
    requires order { AreInMapOrder grants.now }
    requires within { place < length grants.now }
    ensures { (granted : Granted) → granted ≡ get_or grants.now place granted
        → result ≡ not (list_any (λ g. g.onu == granted.onu) (take place grants.now)) }
{
    if place == 0 {
        return true;
    }
    grants[place - 1].onu != grants[place].onu
}

// Returns the number of ONUs to which a map has grants.
fn onu_count(grants: &[Granted]) -> usize
    requires { AreInMapOrder grants.now }
    ensures { result ≡ length (onus_granted grants.now) }
{
    let mut count = 0;
    for place in 0..grants.len() {
        if begins_onu(grants, place) {
            count += 1;
        }
    }
    count
}

// The numbers of each grant are in range by their types.
fn prove_grants(grants: &[Granted])
    ensures { All IsGrantInRange grants.now }
{
    for granted in grants {
        let _onu = granted.onu.get();
        let _alloc_id = granted.alloc_id.get();
        let _words = granted.words.get();
    }
}

// Returns whether the grants of a map of a window are as many as a map of this version may have.
fn is_map_in_range(map: &WindowMap) -> bool
    requires { IsLawfulMap map.now }
    ensures { IsTrue result ↔ AreGrantsInRange map.now.grants }
{
    prove_grants(map.grants());
    map.grants().len() <= MAX_STRUCTURES && onu_count(map.grants()) <= MAX_ONUS
}

// Returns whether the grants of each map of a window are.
fn are_maps_in_range(maps: &[WindowMap]) -> bool
    requires { All IsLawfulMap maps.now }
    ensures { IsTrue result ↔ All (λ m. AreGrantsInRange m.grants) maps.now }
{
    for map in maps {
        if !is_map_in_range(map) {
            return false;
        }
    }
    true
}

// The words of a report that counts are in range by their type.
fn prove_report(loads: &Loads, alloc_id: AllocId)
    ensures { IsReportInRange (known_report (account_of loads.now.accounts alloc_id)) }
{
    if let Some(counted) = loads.counted(alloc_id) {
        let _words = counted.words.get();
    }
}

// The words of all reports that count are in range by their types.
fn prove_reports(state: &PortState)
    requires { IsLawfulState state.now }
    ensures { AreReportsInRange state.now.book }
{
    for row in state.roster().rows() {
        prove_report(state.loads(), row.alloc_id);
    }
}

// The cause of a failure is in range by its type.
fn prove_cause(state: &PortState)
    ensures { HasCauseInRange state.now.cause }
{
    if let Some(cause) = state.cause() {
        let _number = cause.get();
    }
}

/// Returns whether a port of this version may be in a state: it is under the rule in force, and each map of its window has
/// at most 512 grants, to at most 128 ONUs.
pub(crate) fn is_in_range(state: &PortState) -> bool
    requires { IsLawfulState state.now }
    ensures { IsTrue result ↔ IsStateInRange state.now }
{
    prove_cause(state);
    prove_reports(state);
    state.roster().rule() == RULE_IN_FORCE && are_maps_in_range(state.loads().window().maps())
}
