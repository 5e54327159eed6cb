//! Why a row is refused.

use crate::fields::required;
use crate::why::{Bound, Wanted, Why, wrong_at};
use pon_admit::{Roster, Row};
use pon_descr::{Class, Descriptor, Refusal};
use pon_units::{LINE_RATE, MAX_ALLOC_ID, MAX_ONU_ID, MIN_ALLOC_ID, WORD_RATE};
use toml::Table;

// Returns the rate at a key, 0 if it is none.
fn rate_at(table: &Table, key: &str) -> u64 {
    match required(table, key, 0, LINE_RATE) {
        Some(rate) => rate,
        None => 0,
    }
}

// Returns why a table is refused one of whose rates is out of range.
fn why_of_rates(table: &Table) -> Why<'_> {
    for key in ["fixed", "assured", "max"] {
        if required(table, key, 0, LINE_RATE).is_none() {
            let wanted = Wanted::Within(0, LINE_RATE);
            return wrong_at(table, key, wanted);
        }
    }
    Why::Told
}

// Returns why a table is refused whose maximum rate is less than its bound.
fn why_of_max(table: &Table, bound: Bound) -> Why<'_> {
    let promised = rate_at(table, "fixed").saturating_add(rate_at(table, "assured"));
    let max = rate_at(table, "max");
    Why::Max {
        bound,
        promised,
        max,
    }
}

/// Returns why the values of a row are refused so.
pub(crate) fn why_of_values<'a>(table: &'a Table, refusal: &Refusal) -> Why<'a> {
    match *refusal {
        Refusal::AllocRange => {
            let wanted = Wanted::Within(u64::from(MIN_ALLOC_ID), u64::from(MAX_ALLOC_ID));
            wrong_at(table, "alloc", wanted)
        }
        Refusal::OnuRange => {
            let wanted = Wanted::Within(0, u64::from(MAX_ONU_ID));
            wrong_at(table, "onu", wanted)
        }
        Refusal::RateRange => why_of_rates(table),
        Refusal::MaxBelowGuaranteed => why_of_max(table, Bound::AtLeast),
        Refusal::NoSurplusRoom => why_of_max(table, Bound::Above),
        _ => Why::Told,
    }
}

// Returns why a row does not fit after the rows of a roster, to which an Alloc-ID of no rate is admitted in its place.
fn why_full<'a>(roster: &mut Roster, row: &Row) -> Why<'a> {
    let Ok(nothing) = Descriptor::new(0, 0, 0, Class::Plain) else {
        return Why::Told;
    };
    if roster.admit(row.onu, row.alloc_id, nothing).is_err() {
        return Why::Overhead;
    }
    let capacity = WORD_RATE.saturating_mul(u64::from(roster.capacity().get()));
    Why::Full {
        asked: u64::from(row.descriptor.promised().get()),
        free: capacity.saturating_sub(u64::from(roster.guaranteed_sum().get())),
    }
}

/// Returns why a roster refuses a row so. The roster may be used no more.
pub(crate) fn why_of_admission<'a>(roster: &mut Roster, row: &Row, refusal: &Refusal) -> Why<'a> {
    match *refusal {
        Refusal::Capacity => why_full(roster, row),
        _ => Why::Told,
    }
}
