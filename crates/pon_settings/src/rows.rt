//! The rows of a port, admitted in order.

ghost use Rattle.std.specs.Prelude.{◌≡◌, map, IfOk, IfErr};
ghost use Rattle.toml.specs.View.{view};
ghost use Rattle.pon_settings.specs.Rows.{SpellsRows, IsRowsFault, fault_at};

use crate::fault::SettingsFault;
use crate::faulty::FaultySettings;
use crate::row::{FaultyRow, RowFault, SettingsRow, admit};
use pon_admit::Roster;
use pon_units::{Gap, PortNo};
use std::alloc::Global;
use toml::Value;

// Returns the fault of the settings for the fault of a row.
fn fault_at(port: PortNo, row: usize, fault: RowFault) -> SettingsFault
    ensures { result ≡ fault_at port row fault }
{
    match fault {
        RowFault::Form => SettingsFault::Row { port, row },
        RowFault::Refused(refusal) => SettingsFault::Refused { port, row, refusal },
        RowFault::Memory => SettingsFault::Memory,
    }
}

// Returns the fault of the settings for the fault of a row, with its place.
fn faulty_at<'a>(port: PortNo, row: usize, faulty: FaultyRow<'a>) -> FaultySettings<'a>
    ensures { result ≡ fault_at port row faulty.entry }
{
    let fault = fault_at(port, row, faulty.fault);
    FaultySettings::new(fault, faulty.why)
}

/// Reads the rows from tables, and admits each after the rows before it. Otherwise returns the first fault, row by row.
pub(crate) fn rows_of(
    alloc: Global,
    port: PortNo,
    gap: Gap,
    tables: &[Value],
) -> Result<Vec<SettingsRow>, FaultySettings<'_>>
    ensures ok { IfOk result (λ rows. SpellsRows gap (map view tables.now) rows.items) }
    ensures fault { IfErr result (IsRowsFault port gap (map view tables.now)) }
{
    let mut roster = Roster::open(alloc, gap)?;
    let mut rows = Vec::new(alloc);
    for (k, table) in tables.iter().enumerate() {
        let row = match admit(&mut roster, table) {
            Ok(row) => row,
            Err(faulty) => return Err(faulty_at(port, k, faulty)),
        };
        rows.push(row)?;
    }
    Ok(rows)
}
