ghost use Rattle.std.specs.Prelude.{◌≡◌};
ghost use Rattle.pon_settings.specs.declared.fault.SettingsFault.TheVariants as fault;

use pon_descr::Refusal;
use pon_units::PortNo;
use std::alloc::{AllocError, AllocFailed};
use thiserror::Error;

/// Why a text is not settings. Ports and rows are counted from 0.
#[derive(Clone, Copy, Debug, PartialEq, Eq, Error)]
pub enum SettingsFault {
    /// The text is not TOML.
    #[error("not TOML")]
    Text,
    /// The table has no list of 1 to 64 `port` tables, or another key at the top.
    #[error("no list of 1 to 64 ports, or another key")]
    Ports,
    /// A field of the port is absent, unknown, of another type or out of range.
    #[error("port {}: a field is absent, unknown or not valid", .port.get())]
    Field {
        port: PortNo,
    },
    /// A field of the port's `alloc` table of this index is absent, unknown, of another type or negative, or its
    /// `queue` is above 4,294,967,295.
    #[error("port {}, alloc {row}: a field is absent, unknown or not valid", .port.get())]
    Row {
        port: PortNo,
        row: usize,
    },
    /// The port's `alloc` table of this index is well formed, but not admitted after the rows before it: E02 to E12.
    #[error("port {}, alloc {row}: {refusal}", .port.get())]
    Refused {
        port: PortNo,
        row: usize,
        refusal: Refusal,
    },
    /// Memory was refused.
    #[error("out of memory")]
    Memory,
}

impl From<AllocError> for SettingsFault {
    ghost from_gives = { λ _ e. e ≡ fault.Memory };

    fn from(_e: AllocError) -> SettingsFault {
        SettingsFault::Memory
    }
}

impl<T: Drop> From<AllocFailed<T>> for SettingsFault {
    ghost from_gives = { λ _ e. e ≡ fault.Memory };

    fn from(_e: AllocFailed<T>) -> SettingsFault {
        SettingsFault::Memory
    }
}
