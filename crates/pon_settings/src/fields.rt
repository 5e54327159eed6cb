//! The value at a key: a whole number within a range, or an array of tables.

ghost use Rattle.std.specs.Prelude.{◌≡◌, map, option_map};
ghost use Rattle.toml.specs.Data.{get_member};
ghost use Rattle.toml.specs.View.{view, table_view};
ghost use Rattle.pon_settings.specs.Fields.{number, optional, required, optional_tables, required_tables, tables, whole};

use toml::{Table, Value};

/// The greatest whole number of TOML.
pub(crate) const MAX_INTEGER: u64 = 9_223_372_036_854_775_807;

// Returns `n` if it is in the range.
fn whole(least: u64, most: u64, n: i64) -> Option<u64>
    ensures { result ≡ whole least most n }
{
    if n < 0 {
        return None;
    }
    let n = n as u64;
    if n >= least && n <= most {
        Some(n)
    } else {
        None
    }
}

// Returns the whole number of a value if it is in the range.
fn number(least: u64, most: u64, value: &Value) -> Option<u64>
    ensures { result ≡ number least most (view value.now) }
{
    match value.as_integer() {
        Some(n) => whole(least, most, n),
        None => None,
    }
}

// Returns the value at a key. `None` if the key is absent.
fn value_at<'a>(table: &'a Table, key: &str) -> Option<&'a Value>
    ensures { option_map (λ value. view value.now) result
        ≡ get_member key.now (table_view table.now) }
{
    table.get(key)
}

/// Returns the number at a key. `None` if the key is absent, or its value is not a whole number in the range.
pub(crate) fn required(table: &Table, key: &str, least: u64, most: u64) -> Option<u64>
    ensures { result ≡ required key.now least most (table_view table.now) }
{
    match value_at(table, key) {
        Some(value) => number(least, most, value),
        None => None,
    }
}

/// Returns the number at a key, 0 to `most`, or 0 if the key is absent. `None` for any other value.
pub(crate) fn optional(table: &Table, key: &str, most: u64) -> Option<u64>
    ensures { result ≡ optional key.now most (table_view table.now) }
{
    match value_at(table, key) {
        Some(value) => number(0, most, value),
        None => Some(0),
    }
}

// Returns the elements of an array of tables. `None` for any other value.
fn tables(value: &Value) -> Option<&[Value]>
    ensures { option_map (λ values. map view values.now) result ≡ tables (view value.now) }
{
    let values = match value.as_array() {
        Some(values) => values,
        None => return None,
    };
    if values.iter().all(|value| value.is_table()) {
        Some(values.as_slice())
    } else {
        None
    }
}

/// Returns the tables at a key. `None` if the key is absent, or its value is not an array of tables.
pub(crate) fn required_tables<'a>(table: &'a Table, key: &str) -> Option<&'a [Value]>
    ensures { option_map (λ values. map view values.now) result
        ≡ required_tables key.now (table_view table.now) }
{
    match value_at(table, key) {
        Some(value) => tables(value),
        None => None,
    }
}

/// Returns the tables at a key, or no tables if the key is absent. `None` if its value is not an array of tables.
pub(crate) fn optional_tables<'a>(table: &'a Table, key: &str) -> Option<&'a [Value]>
    ensures { option_map (λ values. map view values.now) result
        ≡ optional_tables key.now (table_view table.now) }
{
    match value_at(table, key) {
        Some(value) => tables(value),
        None => Some(&[]),
    }
}
