ghost use Rattle.std.specs.Prelude.{◌≡◌};
ghost use Rattle.pon_record.specs.declared.record_fault.RecordFault.TheVariants as fault;

use std::alloc::AllocError;
use thiserror::Error;

/// Why a chapter was not written whole.
#[derive(Clone, Copy, Debug, PartialEq, Eq, Error)]
pub enum RecordFault {
    /// Bytes from earlier calls are left. The chapter is not taken, and nothing has changed.
    #[error("bytes of an earlier chapter are left")]
    Busy,
    /// Memory was refused. The chapter is not taken, and nothing has changed.
    #[error("out of memory")]
    Memory,
    /// The device failed. The chapter is taken, and the bytes of it that were not written are left.
    #[error("the device failed")]
    Device,
}

impl From<AllocError> for RecordFault {
    ghost from_gives = { λ _ e. e ≡ fault.Memory };

    fn from(_e: AllocError) -> RecordFault {
        RecordFault::Memory
    }
}
