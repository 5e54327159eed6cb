//! A port of settings: its own fields, and its rows.

ghost use Rattle.std.specs.Prelude.{◌≡◌, Some, None, IfOk, IfErr};
ghost use Rattle.toml.specs.View.{table_view, view};
ghost use Rattle.pon_settings.specs.Ports.{IsPortFault, SpellsPort, first_frame_of, gap_of, opening_of, profile_of};
ghost use Rattle.pon_settings.specs.declared.fault.SettingsFault.TheVariants as fault;

use crate::fault::SettingsFault;
use crate::faulty::FaultySettings;
use crate::fields::{MAX_INTEGER, optional, optional_tables, required};
use crate::place::Place;
use crate::row::SettingsRow;
use crate::rows::rows_of;
use crate::why::{Wanted, Why, wrong_at};
use pon_admit::PortCfg;
use pon_units::{FrameNo, Gap, MAX_GAP, MAX_PROFILE, MIN_GAP, PortNo, Profile};
use std::alloc::Global;
use std::marker::Model;
use toml::{Table, Value};

/// A port of settings: its configuration, its first frame, 0 to 9,223,372,036,854,775,807, and its rows in the order of
/// the text.
#[derive(Drop)]
pub struct PortSettings {
    opening: (PortCfg, FrameNo),
    rows: Vec<SettingsRow>,
}

impl Model for PortSettings {
    ghost use Rattle.pon_settings.specs.Ports.{PortSettings};

    ghost Value = { PortSettings };

    ghost view = { λ a. record { opening = a.opening; rows = a.rows.items } };
}

impl PortSettings {
    /// Gap, profile and first frame of the port.
    pub fn opening(&self) -> (PortCfg, FrameNo)
        ensures { result ≡ self.now.opening }
    {
        self.opening
    }

    /// The rows of the port, to be admitted in this order.
    pub fn rows(&self) -> &[SettingsRow]
        ensures { result.now ≡ self.now.rows }
    {
        &self.rows
    }
}

// Reads the gap in words, 1 to 256. `None` if the key is absent, or its value is not such a number.
fn gap_of(table: &Table) -> Option<Gap>
    ensures { result ≡ gap_of (table_view table.now) }
{
    let gap = required(table, "gap", u64::from(MIN_GAP), u64::from(MAX_GAP))?;
    Gap::new(gap as u16)
}

// Reads the profile, 0 to 3, or 0 if the key is absent. `None` for any other value.
fn profile_of(table: &Table) -> Option<Profile>
    ensures { result ≡ profile_of (table_view table.now) }
{
    let profile = optional(table, "profile", u64::from(MAX_PROFILE))?;
    Profile::new(profile as u8)
}

// Reads the first frame, or 0 if the key is absent. `None` if its value is not a whole number of 0 or more.
fn first_frame(table: &Table) -> Option<FrameNo>
    ensures { result ≡ first_frame_of (table_view table.now) }
{
    let first = optional(table, "first", MAX_INTEGER)?;
    Some(FrameNo::new(first))
}

// Reads the configuration and the first frame of a port, or returns the first rule that is broken.
fn opening_of(table: &Table) -> Result<(PortCfg, FrameNo), Why<'_>>
    ensures ok { IfOk result (λ opening. opening_of (table_view table.now) ≡ Some opening) }
    ensures fault { IfErr result (λ _. opening_of (table_view table.now) ≡ None) }
{
    Place::Port.check_keys(table)?;
    let Some(gap) = gap_of(table) else {
        let wanted = Wanted::Within(u64::from(MIN_GAP), u64::from(MAX_GAP));
        return Err(wrong_at(table, "gap", wanted));
    };
    let Some(profile) = profile_of(table) else {
        let wanted = Wanted::Within(0, u64::from(MAX_PROFILE));
        return Err(wrong_at(table, "profile", wanted));
    };
    let Some(first) = first_frame(table) else {
        let wanted = Wanted::Within(0, MAX_INTEGER);
        return Err(wrong_at(table, "first", wanted));
    };
    Ok((PortCfg { gap, profile }, first))
}

// Returns the fault of a port whose own fields break a rule.
fn faulty_port(port: PortNo, why: Why<'_>) -> FaultySettings<'_>
    ensures { result ≡ fault.Field port }
{
    FaultySettings::new(SettingsFault::Field { port }, why)
}

/// Reads a port from a table. Otherwise returns the first fault: that of the port's own fields, then row by row.
pub(crate) fn port_of(
    alloc: Global,
    port: PortNo,
    value: &Value,
) -> Result<PortSettings, FaultySettings<'_>>
    ensures ok { IfOk result (SpellsPort (view value.now)) }
    ensures fault { IfErr result (IsPortFault port (view value.now)) }
{
    let Some(table) = value.as_table() else {
        return Err(faulty_port(port, Why::Told));
    };
    let (cfg, first) = match opening_of(table) {
        Ok(opening) => opening,
        Err(why) => return Err(faulty_port(port, why)),
    };
    let Some(tables) = optional_tables(table, "alloc") else {
        let why = wrong_at(table, "alloc", Wanted::Tables);
        return Err(faulty_port(port, why));
    };
    match rows_of(alloc, port, cfg.gap, tables) {
        Ok(rows) => Ok(PortSettings {
            opening: (cfg, first),
            rows,
        }),
        Err(fault) => Err(fault),
    }
}
