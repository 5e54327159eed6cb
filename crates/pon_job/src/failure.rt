//! Faults of the files and the address that a command line names.

ghost use Rattle.std.specs.Prelude.{◌≡◌};
ghost use Rattle.std.specs.IoError.{error_kind};
ghost use Rattle.pon_device.specs.declared.fault.DeviceFault.TheVariants.{Memory};
ghost use Rattle.std.specs.declared.io.ErrorKind.TheVariants.{OutOfMemory};

use pon_device::DeviceFault;
use std::alloc::{AllocError, AllocFailed, Global};
use std::error::Error;
use std::fmt::{self, Display, Formatter, Write};
use std::io::{self, ErrorKind};

/// A file or an address that the command line names, by what it is for.
#[derive(Clone, Copy, Debug, PartialEq, Eq)]
pub enum Named<'a> {
    /// The settings of the ports.
    Settings(&'a str),
    /// A check file.
    CheckFile(&'a str),
    /// A recording, which is read or written.
    Recording(&'a str),
    /// A picture of a map, which is written.
    Picture(&'a str),
    /// The management lines of an operator.
    Lines(&'a str),
    /// The socket address that ports listen on.
    Address(&'a str),
    /// The socket at which operators connect to a run: its path or its address.
    Control(&'a str),
    /// The socket at which a run answers with its metrics: its address.
    Metrics(&'a str),
}

impl<'a> Named<'a> {
    /// The name of the file, or the address.
    pub fn name(&self) -> &'a str {
        match *self {
            Named::Settings(name)
            | Named::CheckFile(name)
            | Named::Recording(name)
            | Named::Picture(name)
            | Named::Lines(name)
            | Named::Address(name)
            | Named::Control(name)
            | Named::Metrics(name) => name,
        }
    }
}

impl Display for Named<'_> {
    fn fmt<W: Write>(&self, f: &mut Formatter<W>) -> fmt::Result {
        match *self {
            Named::Settings(name) => write!(f, "settings {name}"),
            Named::CheckFile(name) => write!(f, "check file {name}"),
            Named::Recording(name) => write!(f, "recording {name}"),
            Named::Picture(name) => write!(f, "picture {name}"),
            Named::Lines(name) => write!(f, "lines {name}"),
            Named::Address(name) => write!(f, "address {name}"),
            Named::Control(name) => write!(f, "control socket {name}"),
            Named::Metrics(name) => write!(f, "metrics socket {name}"),
        }
    }
}

/// A fault of a device, and the text about the file or the address that it is of, if the command line names that.
#[derive(Debug, PartialEq, Eq, Drop)]
pub struct Failure {
    /// What failed.
    pub fault: DeviceFault,
    /// The file or the address and the reason, as `settings ports.toml: not found`.
    pub text: Option<String>,
}

impl Display for Failure {
    fn fmt<W: Write>(&self, f: &mut Formatter<W>) -> fmt::Result {
        match &self.text {
            Some(text) => write!(f, "{}: {text}", self.fault),
            None => write!(f, "{}", self.fault),
        }
    }
}

impl Error for Failure {}

impl From<DeviceFault> for Failure {
    ghost use Rattle.std.specs.Prelude.{◌≡◌, None};

    ghost from_gives = { λ fault failure. failure ≡ record { fault = fault; text = None } };

    fn from(fault: DeviceFault) -> Self {
        Failure { fault, text: None }
    }
}

impl From<AllocError> for Failure {
    ghost use Rattle.std.specs.Prelude.{◌≡◌, None};

    ghost from_gives = { λ _ failure. failure ≡ record { fault = Memory; text = None } };

    fn from(error: AllocError) -> Self {
        Failure::from(DeviceFault::from(error))
    }
}

impl<T: Drop> From<AllocFailed<T>> for Failure {
    ghost use Rattle.std.specs.Prelude.{◌≡◌, None};

    ghost from_gives = { λ _ failure. failure ≡ record { fault = Memory; text = None } };

    fn from(_error: AllocFailed<T>) -> Self {
        Failure::from(AllocError)
    }
}

// Returns the reason of an error of a file or an address, in words for a person. `None` if the error has its own words.
fn reason_of(named: Named<'_>, kind: ErrorKind) -> Option<&'static str> {
    match kind {
        ErrorKind::NotFound => Some("not found"),
        ErrorKind::PermissionDenied => Some("permission denied"),
        ErrorKind::IsADirectory => Some("is a directory"),
        ErrorKind::NotADirectory => Some("a part of its path is not a directory"),
        ErrorKind::ReadOnlyFilesystem => Some("the file system is read-only"),
        ErrorKind::StorageFull | ErrorKind::QuotaExceeded => Some("no space left"),
        ErrorKind::WouldBlock => match named {
            Named::Recording(_) => Some("is being recorded by another run"),
            Named::Picture(_) => Some("is being written by another process"),
            _ => None,
        },
        ErrorKind::AddrInUse => Some("in use"),
        ErrorKind::AddrNotAvailable => Some("not an address of this machine"),
        ErrorKind::InvalidInput => match named {
            Named::Address(_) => Some("not an address with a port, as 127.0.0.1:0"),
            Named::Control(_) => Some("neither a path of a socket nor an address with a port"),
            _ => Some("not a name of a file"),
        },
        _ => None,
    }
}

impl Failure {
    /// Makes the failure of a file or an address. It is `Memory`, without a text, if the error is of refused memory; if
    /// memory for the text is refused, there is none.
    pub fn of(alloc: Global, fault: DeviceFault, named: Named<'_>, error: &io::Error) -> Self
        ensures memory { error_kind error.now ≡ OutOfMemory → result.fault ≡ Memory }
        ensures other { ¬ (error_kind error.now ≡ OutOfMemory) → result.fault ≡ fault }
    {
        let kind = error.kind();
        if kind == ErrorKind::OutOfMemory {
            return Failure::from(DeviceFault::Memory);
        }
        let text = match reason_of(named, kind) {
            Some(reason) => format!(in alloc; "{named}: {reason}"),
            None => format!(in alloc; "{named}: {error}"),
        };
        Failure {
            fault,
            text: text.ok(),
        }
    }

    /// Makes the failure of a job that reads a file, which its text names if it is a failed read.
    pub fn in_reading(alloc: Global, fault: DeviceFault, named: Named<'_>) -> Self
        ensures { result.fault ≡ fault }
    {
        let text = match fault {
            DeviceFault::Read => format!(in alloc; "{named}: cannot be read").ok(),
            _ => None,
        };
        Failure { fault, text }
    }

    /// Makes the failure of a job that writes a file, which its text names if it is a failed write.
    pub fn in_writing(alloc: Global, fault: DeviceFault, named: Named<'_>) -> Self
        ensures { result.fault ≡ fault }
    {
        let text = match fault {
            DeviceFault::Write => format!(in alloc; "{named}: cannot be written").ok(),
            _ => None,
        };
        Failure { text, fault }
    }

    /// Prints the failure to standard error: a line with the fault and, indented, the text.
    pub fn print(&self, rt: &impl Eprint) {
        let _ = eprintln!(rt; "olt: {}", self.fault);
        if let Some(text) = &self.text {
            let _ = eprintln!(rt; "  {text}");
        }
    }
}
