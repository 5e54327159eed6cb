ghost use Rattle.std.specs.Prelude.{◌≡◌};
ghost use Rattle.pon_record.specs.declared.fault.Stop.TheVariants.{Malformed, Memory};

use crate::chapter::Recording;
use std::alloc::{AllocError, AllocFailed};
use thiserror::Error;

/// Why bytes are not a recording. `at` is the place of the first byte of a chapter, from 0.
#[derive(Debug, Drop, Error)]
pub enum ReadFault {
    /// The magic bytes are wrong (at 0), or the chapter that begins at `at` has a wrong tag, a field out of its range,
    /// a refused descriptor, or a body that does not end where its length says.
    #[error("byte {at}: no chapter of the format")]
    BadFormat { at: usize },
    /// The bytes end inside the chapter that begins at `at`, or inside the magic bytes (at 0). `whole` has the chapters
    /// before it.
    #[error("byte {at}: the chapter is cut short")]
    Truncated { at: usize, whole: Recording },
    /// Memory was refused.
    #[error("out of memory")]
    Memory,
}

impl From<AllocError> for ReadFault {
    ghost use Rattle.pon_record.specs.declared.fault.ReadFault.TheVariants as fault;

    ghost from_gives = { λ _ e. e ≡ fault.Memory };

    fn from(_e: AllocError) -> ReadFault {
        ReadFault::Memory
    }
}

/// The bytes do not begin with a value of the format.
#[derive(Clone, Copy, Debug, PartialEq, Eq)]
pub(crate) struct Malformed;

/// Why a value that needs memory was not read.
#[derive(Clone, Copy, Debug, PartialEq, Eq)]
pub(crate) enum Stop {
    Malformed,
    Memory,
}

/// Why a chapter was not read.
#[derive(Clone, Copy, Debug, PartialEq, Eq)]
pub(crate) enum ChapterFault {
    /// The bytes end inside the chapter.
    CutShort,
    Malformed,
    Memory,
}

impl From<Stop> for ChapterFault {
    ghost use Rattle.pon_record.specs.ChapterReading.{fault_of};

    ghost from_gives = { λ e f. f ≡ fault_of e };

    fn from(e: Stop) -> ChapterFault {
        match e {
            Stop::Malformed => ChapterFault::Malformed,
            Stop::Memory => ChapterFault::Memory,
        }
    }
}

impl From<Malformed> for Stop {
    ghost from_gives = { λ _ e. e ≡ Malformed };

    fn from(_e: Malformed) -> Stop {
        Stop::Malformed
    }
}

impl From<AllocError> for Stop {
    ghost from_gives = { λ _ e. e ≡ Memory };

    fn from(_e: AllocError) -> Stop {
        Stop::Memory
    }
}

impl<T: Drop> From<AllocFailed<T>> for Stop {
    ghost from_gives = { λ _ e. e ≡ Memory };

    fn from(_e: AllocFailed<T>) -> Stop {
        Stop::Memory
    }
}
