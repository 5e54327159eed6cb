ghost use Rattle.std.specs.Prelude.{◌≡◌};
ghost use Rattle.pon_record.specs.declared.stream_fault.StreamFault.TheVariants as fault;

use pon_device::Failed;
use std::alloc::AllocError;
use thiserror::Error;

/// Why a device gave no further chapter. `at` is the place of the first byte of a chapter, from 0.
#[derive(Clone, Copy, Debug, PartialEq, Eq, Error)]
pub enum StreamFault {
    /// The magic bytes are wrong (at 0), or the chapter that begins at `at` has a wrong tag, a field out of its range,
    /// a refused descriptor, or a body that does not end where its length says.
    #[error("byte {at}: no chapter of the format")]
    BadFormat { at: usize },
    /// The device ended inside the chapter that begins at `at`, or inside the magic bytes (at 0).
    #[error("byte {at}: the chapter is cut short")]
    Truncated { at: usize },
    /// The device failed.
    #[error("read failed")]
    Read,
    /// Memory was refused, or 2^64 bytes were read.
    #[error("out of memory")]
    Memory,
}

impl From<Failed> for StreamFault {
    ghost from_gives = { λ _ e. e ≡ fault.Read };

    fn from(_e: Failed) -> StreamFault {
        StreamFault::Read
    }
}

impl From<AllocError> for StreamFault {
    ghost from_gives = { λ _ e. e ≡ fault.Memory };

    fn from(_e: AllocError) -> StreamFault {
        StreamFault::Memory
    }
}
