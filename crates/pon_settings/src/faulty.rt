//! A fault of settings with what a person needs to mend it.

ghost use Rattle.std.specs.Prelude.{◌≡◌, IfOk, string_bytes};
ghost use Rattle.pon_settings.specs.Lines.{Explains, NamesPort, NamesRow};
ghost use Rattle.pon_settings.specs.declared.fault.SettingsFault.TheVariants as fault;

use crate::fault::SettingsFault;
use crate::why::Why;
use pon_units::PortNo;
use std::alloc::{AllocError, AllocFailed, Global};
use std::marker::Model;

/// A fault of a [`Document`](crate::Document), and which rule is broken there.
#[derive(Drop)]
pub struct FaultySettings<'a> {
    fault: SettingsFault,
    why: Why<'a>,
}

impl<'a> Model for FaultySettings<'a> {
    ghost use Rattle.pon_settings.specs.declared.fault.SettingsFault.{SettingsFault};

    ghost Value = { SettingsFault };

    ghost view = { λ a. a.fault };
}

impl From<AllocError> for FaultySettings<'_> {
    ghost from_gives = { λ _ e. e ≡ fault.Memory };

    fn from(_e: AllocError) -> Self {
        FaultySettings::new(SettingsFault::Memory, Why::Told)
    }
}

impl<T: Drop> From<AllocFailed<T>> for FaultySettings<'_> {
    ghost from_gives = { λ _ e. e ≡ fault.Memory };

    fn from(_e: AllocFailed<T>) -> Self {
        FaultySettings::new(SettingsFault::Memory, Why::Told)
    }
}

// Returns the line and the column where a text stops being TOML, and why.
fn text_line(alloc: Global, why: Why<'_>) -> Result<String, AllocError> {
    let Why::NoToml(error) = why else {
        return Ok(String::new(alloc));
    };
    let told = format!(in alloc; "{error}")?;
    let place = told.as_str().lines().next().unwrap_or("");
    let message = error.message();
    format!(in alloc; "  {place}: {message}")
}

// Returns the rule that follows a place in a line.
fn words_of(alloc: Global, why: Why<'_>) -> Result<String, AllocError> {
    match why {
        Why::Told => Ok(String::new(alloc)),
        _ => format!(in alloc; ": {why}"),
    }
}

// Returns the line of a faulty port.
fn port_line(alloc: Global, port: PortNo, why: Why<'_>) -> Result<String, AllocError>
    ensures { IfOk result (λ line. NamesPort port (string_bytes line)) }
{
    let words = words_of(alloc, why)?;
    let number = port.get();
    format!(in alloc; "  port {number}{words}")
}

// Returns the line of a faulty row.
fn row_line(alloc: Global, port: PortNo, row: usize, why: Why<'_>) -> Result<String, AllocError>
    ensures { IfOk result (λ line. NamesRow port row (string_bytes line)) }
{
    let words = words_of(alloc, why)?;
    let number = port.get();
    format!(in alloc; "  port {number}, alloc {row}{words}")
}

impl<'a> FaultySettings<'a> {
    pub(crate) fn new(fault: SettingsFault, why: Why<'a>) -> Self
        ensures { result ≡ fault }
    {
        FaultySettings { fault, why }
    }

    /// The fault, with its place.
    pub fn fault(&self) -> SettingsFault
        ensures { result ≡ self.now }
    {
        self.fault
    }

    /// Returns a line, without a line feed, that says where the fault is and which rule is broken there. Ports and rows
    /// are counted from 0. The line of `Memory` is empty.
    ///
    /// # Errors
    ///
    /// `AllocError` only if memory is refused.
    pub fn explain(&self, alloc: Global) -> Result<String, AllocError>
        ensures { IfOk result (λ line. Explains self.now (string_bytes line)) }
    {
        let why = self.why;
        match self.fault {
            SettingsFault::Text => text_line(alloc, why),
            SettingsFault::Ports => format!(in alloc; "  {why}"),
            SettingsFault::Field { port } => port_line(alloc, port, why),
            SettingsFault::Row { port, row } => row_line(alloc, port, row, why),
            SettingsFault::Refused { port, row, refusal } => {
                let number = port.get();
                format!(in alloc; "  port {number}, alloc {row}: {refusal}")
            }
            SettingsFault::Memory => Ok(String::new(alloc)),
        }
    }

    /// Returns a further line about a row that is refused for a value or for the capacity: what it asks for, and what is
    /// allowed, in kbit/s. `None` for other faults.
    ///
    /// # Errors
    ///
    /// `AllocError` only if memory is refused.
    pub fn explain_further(&self, alloc: Global) -> Result<Option<String>, AllocError> {
        let why = self.why;
        match (self.fault, why) {
            (SettingsFault::Refused { .. }, Why::Told) => Ok(None),
            (SettingsFault::Refused { .. }, _) => Ok(Some(format!(in alloc; "  {why}")?)),
            _ => Ok(None),
        }
    }
}
