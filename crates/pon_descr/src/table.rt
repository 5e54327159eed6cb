//! Descriptors read from a table of settings.

ghost use Rattle.std.specs.Prelude.{◌≡◌, Some, IfOk, IfErr, option_and_then, option_map};
ghost use Rattle.toml.specs.Data.{as_integer, as_str, get_member};
ghost use Rattle.toml.specs.View.{table_view, view};
ghost use Rattle.pon_descr.specs.Tables.{natural, rate_at, class_in_table, described, IsDescrFault};

use crate::class::Class;
use crate::descriptor::Descriptor;
use crate::refusal::Refusal;
use thiserror::Error;
use toml::{Table, Value};

/// Why a table has no descriptor.
#[derive(Clone, Copy, Debug, PartialEq, Eq, Error)]
pub enum DescrFault {
    /// `fixed`, `assured`, `max` or `class` is absent or of another type, a rate is negative, or the class is not one
    /// of `none`, `na` and `be`.
    #[error("a field is absent, of another type or out of range")]
    Field,
    /// All four are present, and [`Descriptor::new`] refuses them.
    #[error("refused: {0}")]
    Refused(Refusal),
}

// Returns the value of a key.
fn value_at<'a>(table: &'a Table, key: &str) -> Option<&'a Value>
    ensures { option_map (λ value. view value.now) result
        ≡ get_member key.now (table_view table.now) }
{
    table.get(key)
}

// Returns the integer of a key.
fn integer_at(table: &Table, key: &str) -> Option<i64>
    ensures { result ≡ option_and_then as_integer (get_member key.now (table_view table.now)) }
{
    match value_at(table, key) {
        Some(value) => value.as_integer(),
        None => None,
    }
}

// Returns the text of a key.
fn text_at<'a>(table: &'a Table, key: &str) -> Option<&'a str>
    ensures { option_map (λ text. text.now) result
        ≡ option_and_then as_str (get_member key.now (table_view table.now)) }
{
    match value_at(table, key) {
        Some(value) => value.as_str(),
        None => None,
    }
}

// Converts a number; `None` if it is negative.
fn natural(n: i64) -> Option<u64>
    ensures { result ≡ natural n }
{
    if n < 0 { None } else { Some(n as u64) }
}

// Returns the rate of a key, if it is a number that is not negative.
fn rate_at(table: &Table, key: &str) -> Option<u64>
    ensures { result ≡ rate_at key.now (table_view table.now) }
{
    match integer_at(table, key) {
        Some(n) => natural(n),
        None => None,
    }
}

// Returns the class of a table.
fn class_in_table(table: &Table) -> Option<Class>
    ensures { result ≡ class_in_table (table_view table.now) }
{
    match text_at(table, "class") {
        Some(word) => Class::of_word(word.as_bytes()),
        None => None,
    }
}

/// Reads the descriptor of a table from its keys `fixed`, `assured`, `max` (integers, kbit/s) and `class` (`none`, `na`
/// or `be`). Other keys are ignored.
///
/// # Errors
///
/// `Field` if one of the four keys is absent or has no such value, then `Refused` with the refusal of
/// [`Descriptor::new`].
pub fn from_toml(table: &Table) -> Result<Descriptor, DescrFault>
    ensures ok { IfOk result (λ d. described (table_view table.now) ≡ Some d) }
    ensures fault { IfErr result (IsDescrFault (described (table_view table.now))) }
{
    let Some(fixed) = rate_at(table, "fixed") else {
        return Err(DescrFault::Field);
    };
    let Some(assured) = rate_at(table, "assured") else {
        return Err(DescrFault::Field);
    };
    let Some(max) = rate_at(table, "max") else {
        return Err(DescrFault::Field);
    };
    let Some(class) = class_in_table(table) else {
        return Err(DescrFault::Field);
    };
    match Descriptor::new(fixed, assured, max, class) {
        Ok(descriptor) => Ok(descriptor),
        Err(refusal) => Err(DescrFault::Refused(refusal)),
    }
}
