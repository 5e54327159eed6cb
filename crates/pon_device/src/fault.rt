ghost use Rattle.std.specs.Prelude.{◌≡◌};
ghost use Rattle.pon_device.specs.declared.fault.DeviceFault.TheVariants as fault;

use std::alloc::{AllocError, AllocFailed};
use thiserror::Error;

/// Why a text was not wholly read or not wholly written.
#[derive(Clone, Copy, Debug, PartialEq, Eq, Error)]
pub enum DeviceFault {
    /// The reader failed, or 2^64 - 1 reads were made.
    #[error("read failed")]
    Read,
    /// The writer failed.
    #[error("write failed")]
    Write,
    /// Memory was refused.
    #[error("out of memory")]
    Memory,
}

impl From<AllocError> for DeviceFault {
    ghost from_gives = { λ _ e. e ≡ fault.Memory };

    fn from(_e: AllocError) -> DeviceFault {
        DeviceFault::Memory
    }
}

impl<T: Drop> From<AllocFailed<T>> for DeviceFault {
    ghost from_gives = { λ _ e. e ≡ fault.Memory };

    fn from(_e: AllocFailed<T>) -> DeviceFault {
        DeviceFault::Memory
    }
}
