//! A text of settings, parsed: its ports, in order.

ghost use Rattle.std.specs.Prelude.{◌≡◌, ◌≤◌, length, map, option_map, IfOk, IfErr, IfSome};
ghost use Rattle.std.specs.List.{AllZip};
ghost use Rattle.toml.specs.Parse.{parse_document};
ghost use Rattle.toml.specs.View.{table_view, view};
ghost use Rattle.pon_settings.specs.Ports.{IsFirstSettingsFault, IsPortCount, IsPortsFault, Spells, SpellsPort, document_of, port_tables};

use crate::fault::SettingsFault;
use crate::faulty::FaultySettings;
use crate::fields::required_tables;
use crate::place::Place;
use crate::port::{PortSettings, port_of};
use crate::terminal::Settings;
use crate::why::{Wanted, Why, wrong_at};
use pon_units::{MAX_PORTS, PortNo};
use std::alloc::{AllocError, Global};
use toml::de::Error;
use toml::{Table, Value};

/// A text (TOML) that was parsed, or why it was not.
#[derive(Drop)]
pub struct Document {
    read: Result<Table, Error>,
}

// Returns the tables of the ports, 1 to 64, or the rule that is broken.
fn port_tables(table: &Table) -> Result<&[Value], Why<'_>>
    ensures list { IfOk result (λ values. port_tables (table_view table.now) ≡ Some (map view values.now)) }
    ensures count { IfOk result (λ values. IsPortCount (length values.now)) }
    ensures fault { IfErr result (λ _. port_tables (table_view table.now) ≡ None) }
{
    Place::Top.check_keys(table)?;
    if let Some(tables) = required_tables(table, "port") {
        if tables.len() >= 1 && tables.len() <= MAX_PORTS {
            return Ok(tables);
        }
    }
    Err(wrong_at(table, "port", Wanted::Ports))
}

// Reads the ports from tables. Otherwise returns the first fault, port by port.
fn ports_of(alloc: Global, tables: &[Value]) -> Result<Vec<PortSettings>, FaultySettings<'_>>
    requires { length tables.now ≤ MAX_PORTS }
    ensures ok { IfOk result (λ ports. AllZip SpellsPort (map view tables.now) ports.items) }
    ensures fault { IfErr result (IsPortsFault (map view tables.now)) }
{
    let mut ports = Vec::new(alloc);
    for (i, table) in tables.iter().enumerate() {
        let port = match port_of(alloc, PortNo::at(i), table) {
            Ok(port) => port,
            Err(fault) => return Err(fault),
        };
        ports.push(port)?;
    }
    Ok(ports)
}

impl Document {
    /// Parses a text.
    ///
    /// # Errors
    ///
    /// `AllocError` only if memory is refused.
    pub fn parse(alloc: Global, text: &str) -> Result<Document, AllocError>
        ensures { IfOk result (λ document. document_of document ≡ parse_document text.now) }
    {
        match toml::table_from_str(alloc, text) {
            Ok(table) => Ok(Document { read: Ok(table) }),
            Err(fault) if fault.is_memory() => Err(AllocError),
            Err(fault) => Ok(Document { read: Err(fault) }),
        }
    }

    /// Reads the settings of the text.
    ///
    /// # Errors
    ///
    /// The first fault. `Text` if the text is not TOML. `Ports` if its table has no list of 1 to 64 `port` tables or has
    /// another key. Then port by port: `Field` for the port's own fields, then row by row `Row` for the row's fields and
    /// `Refused` for its admission after the rows before it. `Memory` if memory was refused.
    pub fn settings(&self, alloc: Global) -> Result<Settings, FaultySettings<'_>>
        ensures ok { IfOk result (Spells (document_of self.now)) }
        ensures fault { IfErr result (IsFirstSettingsFault (document_of self.now)) }
    {
        let table = match &self.read {
            Ok(table) => table,
            Err(error) => {
                let why = Why::NoToml(error);
                return Err(FaultySettings::new(SettingsFault::Text, why));
            }
        };
        let tables = match port_tables(table) {
            Ok(tables) => tables,
            Err(why) => {
                return Err(FaultySettings::new(SettingsFault::Ports, why));
            }
        };
        match ports_of(alloc, tables) {
            Ok(ports) => Ok(Settings { ports }),
            Err(fault) => Err(fault),
        }
    }
}

/// Reads settings from a text (TOML).
///
/// # Errors
///
/// As [`Document::settings`]; `Memory` also if memory is refused while the text is parsed.
pub fn settings(alloc: Global, text: &str) -> Result<Settings, SettingsFault>
    ensures ok { IfOk result (Spells (parse_document text.now)) }
    ensures fault { IfErr result (IsFirstSettingsFault (parse_document text.now)) }
{
    let document = Document::parse(alloc, text)?;
    match document.settings(alloc) {
        Ok(settings) => Ok(settings),
        Err(faulty) => Err(faulty.fault()),
    }
}
