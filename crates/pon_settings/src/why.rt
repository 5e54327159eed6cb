//! What a person needs to mend a fault of settings, beside its place.

use pon_units::MAX_PORTS;
use std::fmt;
use toml::de::Error;
use toml::{Table, Value};

/// Maximum length of a text that is shown whole, in bytes.
const MAX_SHOWN: usize = 40;

/// What a value must be.
#[derive(Clone, Copy)]
pub(crate) enum Wanted {
    /// A whole number from the first to the second.
    Within(u64, u64),
    /// A whole number of 0 or more.
    Whole,
    /// The word of a class.
    Class,
    /// A table for each port.
    Ports,
    /// A list of tables.
    Tables,
}

impl fmt::Display for Wanted {
    fn fmt<W: fmt::Write>(&self, f: &mut fmt::Formatter<W>) -> fmt::Result {
        match *self {
            Wanted::Within(least, most) => write!(f, "{least} to {most}"),
            Wanted::Whole => f.write_str("a whole number, not negative"),
            Wanted::Class => f.write_str("none, na or be"),
            Wanted::Ports => write!(f, "a list of 1 to {MAX_PORTS} tables"),
            Wanted::Tables => f.write_str("a list of tables"),
        }
    }
}

/// What a maximum rate must be, compared with the fixed and the assured rate together.
#[derive(Clone, Copy)]
pub(crate) enum Bound {
    AtLeast,
    Above,
}

/// Why a text is at fault. Rates are in kbit/s.
#[derive(Clone, Copy)]
pub(crate) enum Why<'a> {
    /// The fault itself says all.
    Told,
    /// The text is not TOML.
    NoToml(&'a Error),
    /// A table has a key that it may not have.
    UnknownKey(&'a str),
    /// A table does not have this key.
    Missing(&'static str),
    /// The value at a key is not what it must be.
    Broken {
        key: &'static str,
        wanted: Wanted,
        found: &'a Value,
    },
    /// The maximum rate is less than its bound.
    Max {
        bound: Bound,
        promised: u64,
        max: u64,
    },
    /// The fixed and the assured rate together are more than what is free.
    Full {
        asked: u64,
        free: u64,
    },
    /// The overhead of the burst does not fit.
    Overhead,
}

impl fmt::Display for Bound {
    fn fmt<W: fmt::Write>(&self, f: &mut fmt::Formatter<W>) -> fmt::Result {
        f.write_str(match *self {
            Bound::AtLeast => "at least",
            Bound::Above => "above",
        })
    }
}

impl fmt::Display for Why<'_> {
    fn fmt<W: fmt::Write>(&self, f: &mut fmt::Formatter<W>) -> fmt::Result {
        match *self {
            Why::Told => Ok(()),
            Why::NoToml(error) => write!(f, "{error}"),
            Why::UnknownKey(key) => write!(f, "unknown key {key:?}"),
            Why::Missing(key) => write!(f, "{key} is missing"),
            Why::Broken { key, wanted, found } => {
                let shown = Shown(found);
                write!(f, "{key} must be {wanted}, but is {shown}")
            }
            Why::Max {
                bound,
                promised,
                max,
            } => write!(
                f,
                "max must be {bound} fixed and assured rate together, {promised}, but is {max}"
            ),
            Why::Full { asked, free } => write!(
                f,
                "fixed and assured rate together are {asked} kbit/s, free are {free} kbit/s"
            ),
            Why::Overhead => f.write_str("the overhead of its burst does not fit into the frame"),
        }
    }
}

// A value in words: a number, a short text, or else its type.
#[derive(Clone, Copy)]
struct Shown<'a>(&'a Value);

impl fmt::Display for Shown<'_> {
    fn fmt<W: fmt::Write>(&self, f: &mut fmt::Formatter<W>) -> fmt::Result {
        if let Some(number) = self.0.as_integer() {
            return write!(f, "{number}");
        }
        if let Some(values) = self.0.as_array() {
            return write!(f, "a list of length {}", values.len());
        }
        match self.0.as_str() {
            Some(text) if text.len() <= MAX_SHOWN => write!(f, "{text:?}"),
            _ => write!(f, "a {}", self.0.type_str()),
        }
    }
}

/// Returns what is wrong at a key whose value is not this.
pub(crate) fn wrong_at<'a>(table: &'a Table, key: &'static str, wanted: Wanted) -> Why<'a> {
    match table.get(key) {
        Some(found) => Why::Broken { key, wanted, found },
        None => Why::Missing(key),
    }
}
