//! The simulated units of a port: one for each ONU of its rows.

ghost use Rattle.std.specs.Prelude.{◌≡◌, IfOk, take};
ghost use Rattle.std.specs.List.{list_any};
ghost use Rattle.pon_sockets.specs.Units.{is_row_of, own_queues, units_of};

use arrayvec::ArrayVec;
use pon_link::Unit;
use pon_settings::SettingsRow;
use pon_units::{AllocId, MAX_SERIES, OnuId};
use std::alloc::{AllocError, Global};

// Returns the number of waiting words of each Alloc-ID of an ONU, in the order of the rows.
fn own_queues(
    alloc: Global,
    rows: &[SettingsRow],
    onu: OnuId,
) -> Result<Vec<(AllocId, u32)>, AllocError>
    ensures { IfOk result (λ own. own.items ≡ own_queues rows.now onu) }
{
    rows.iter()
        .filter(|settings_row| settings_row.row.onu == onu)
        .map(|settings_row| (settings_row.row.alloc_id, settings_row.queue))
        .collect(alloc)
}

// Returns the first 16 queues.
fn first_queues(own: &[(AllocId, u32)]) -> ArrayVec<(AllocId, u32), MAX_SERIES>
    ensures { result.items ≡ take MAX_SERIES own.now }
{
    let mut queues = ArrayVec::new();
    for queue in own {
        if queues.is_full() {
            return queues;
        }
        queues.push(*queue);
    }
    prove!(queues.len() == own.len());
    queues
}

// Returns whether one of the rows is of the ONU.
fn has_onu(rows: &[SettingsRow], onu: OnuId) -> bool
    ensures { result ≡ list_any (is_row_of onu) rows.now }
{
    rows.iter().any(|settings_row| settings_row.row.onu == onu)
}

/// Returns a unit for each ONU that has rows, in the order of the first row of each, with the waiting words of the
/// first 16 of its rows.
///
/// # Errors
///
/// If memory is refused.
pub fn units_of(alloc: Global, rows: &[SettingsRow]) -> Result<Vec<Unit>, AllocError>
    ensures { IfOk result (λ units. units.items ≡ units_of rows.now) }
{
    let mut units = Vec::new(alloc);
    for (i, settings_row) in rows.iter().enumerate() {
        let onu = settings_row.row.onu;
        if !has_onu(&rows[..i], onu) {
            let own = own_queues(alloc, rows, onu)?;
            units.push(Unit::open(onu, first_queues(own.as_slice())))?;
        }
    }
    Ok(units)
}
