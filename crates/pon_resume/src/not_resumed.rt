ghost use Rattle.std.specs.Prelude.{◌≡◌};
ghost use Rattle.pon_resume.specs.declared.not_resumed.NotResumed.TheVariants.{Memory};

use std::alloc::AllocError;
use thiserror::Error;

/// Why no port goes on after a chapter. The first of these counts, but memory may be refused at any time.
#[derive(Clone, Copy, Debug, PartialEq, Eq, Error)]
pub enum NotResumed {
    /// The chapter is not good: its opening is not lawful, or an entry may not follow those before it.
    #[error("its last chapter is not good")]
    Chapter,
    /// The chapter has the greatest number, 2^64 - 1.
    #[error("its last chapter has the greatest number, so none can follow")]
    Number,
    /// No port of this version has the state at the end of the chapter: it is under an earlier rule, or its window has
    /// a map that is too large.
    #[error("no port of this version goes on from the end of its last chapter")]
    State,
    /// Memory was refused.
    #[error("out of memory")]
    Memory,
}

impl From<AllocError> for NotResumed {
    ghost from_gives = { λ _ why. why ≡ Memory };

    fn from(_: AllocError) -> Self {
        NotResumed::Memory
    }
}
