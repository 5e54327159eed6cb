//! The three kinds of tables of settings, and the keys of each.

ghost use Rattle.std.specs.Prelude.{◌≡◌, IfOk, IfErr, true, false};
ghost use Rattle.toml.specs.View.{table_view};
ghost use Rattle.pon_settings.specs.Keys.{is_known, has_known_keys};
ghost use Rattle.pon_settings.specs.declared.place.Place.TheVariants as place;

use crate::why::Why;
use toml::Table;

/// A kind of table.
#[derive(Clone, Copy)]
pub(crate) enum Place {
    Top,
    Port,
    Row,
}

// Returns whether a port's table may have the key.
fn is_port_key(key: &[u8]) -> bool
    ensures { result ≡ is_known place.Port key.now }
{
    key == b"gap".as_slice()
        || key == b"profile".as_slice()
        || key == b"first".as_slice()
        || key == b"alloc".as_slice()
}

// Returns whether a row's table may have the key.
fn is_row_key(key: &[u8]) -> bool
    ensures { result ≡ is_known place.Row key.now }
{
    key == b"onu".as_slice()
        || key == b"alloc".as_slice()
        || key == b"fixed".as_slice()
        || key == b"assured".as_slice()
        || key == b"max".as_slice()
        || key == b"class".as_slice()
        || key == b"queue".as_slice()
}

impl Place {
    /// Returns whether a table of this kind may have the key.
    pub(crate) fn knows(self, key: &str) -> bool
        ensures { result ≡ is_known self key.now }
    {
        let key = key.as_bytes();
        match self {
            Place::Top => key == b"port".as_slice(),
            Place::Port => is_port_key(key),
            Place::Row => is_row_key(key),
        }
    }

    // Returns whether a table of this kind may have all keys of the table.
    fn knows_keys(self, table: &Table) -> bool
        ensures { result ≡ has_known_keys self (table_view table.now) }
    {
        table.keys().all(|key| self.knows(key.as_str()))
    }

    // Returns the first key of a table that a table of this kind may not have.
    fn unknown_key(self, table: &Table) -> &str {
        for key in table.keys() {
            if !self.knows(key.as_str()) {
                return key.as_str();
            }
        }
        ""
    }

    /// Returns the first key of a table that a table of this kind may not have, as the rule that is broken.
    pub(crate) fn check_keys(self, table: &Table) -> Result<(), Why<'_>>
        ensures ok { IfOk result (λ _. has_known_keys self (table_view table.now) ≡ true) }
        ensures fault { IfErr result (λ _. has_known_keys self (table_view table.now) ≡ false) }
    {
        if self.knows_keys(table) {
            Ok(())
        } else {
            Err(Why::UnknownKey(self.unknown_key(table)))
        }
    }
}
