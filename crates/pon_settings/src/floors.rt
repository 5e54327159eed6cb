//! The rows of best effort that have no floor.

ghost use Rattle.std.specs.Prelude.{◌≡◌, IfOk, IfSome, filter, map};
ghost use Rattle.pon_settings.specs.Floors.{has_none, lacks_floor};
ghost use Rattle.pon_settings.specs.Rows.{roster_after};

use crate::port::PortSettings;
use pon_admit::{Roster, Row};
use pon_descr::Class;
use pon_sure::{Sure, sure_of};
use std::alloc::{AllocError, Global};

// Returns the roster of the rows of a port, admitted in order. `None` if memory or a row is refused.
fn roster_of(alloc: Global, port: &PortSettings) -> Option<Roster>
    ensures { IfSome result (λ roster. roster
        ≡ roster_after port.now.opening.0.gap port.now.rows) }
{
    let gap = port.opening().0.gap;
    let mut roster = Roster::open(alloc, gap).ok()?;
    for settings_row in port.rows() {
        let row = settings_row.row;
        roster.admit(row.onu, row.alloc_id, row.descriptor).ok()?;
    }
    Some(roster)
}

// Returns whether nothing is guaranteed, and no part of the surplus is sure.
fn has_none(sure: &Option<Sure>) -> bool
    ensures { result ≡ has_none sure.now }
{
    match sure {
        None => false,
        Some(sure) => sure.guaranteed.get() == 0 && sure.surplus == 0,
    }
}

// Returns whether a row of a roster is of best effort and has no floor.
fn lacks_floor(roster: &Roster, row: &Row) -> bool
    ensures { result ≡ lacks_floor roster.now row.now }
{
    match row.descriptor.class() {
        Class::BestEffort => has_none(&sure_of(roster, row.alloc_id)),
        Class::Plain | Class::NonAssured => false,
    }
}

/// Returns the best-effort rows of a port that have no floor, in the order of the text: nothing is guaranteed, and no part of
/// the surplus is sure, since the others may take all of it.
///
/// # Errors
///
/// `AllocError` if memory is refused, or if a row is not admitted after those before it; those that
/// [`settings`](crate::settings) reads are.
pub fn rows_without_floor(alloc: Global, port: &PortSettings) -> Result<Vec<Row>, AllocError>
    ensures { IfOk result (λ rows. rows.items
        ≡ filter (lacks_floor (roster_after port.now.opening.0.gap port.now.rows))
        (map (λ r. r.row) port.now.rows)) }
{
    let Some(roster) = roster_of(alloc, port) else {
        return Err(AllocError);
    };
    let mut found = Vec::new(alloc);
    for settings_row in port.rows() {
        if lacks_floor(&roster, &settings_row.row) {
            found.push(settings_row.row)?;
        }
    }
    Ok(found)
}
