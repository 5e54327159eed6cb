ghost use Rattle.std.specs.Prelude.{◌≡◌};
ghost use Rattle.pon_port.specs.declared.resume_fault.ResumeFault.TheVariants.{Memory};

use std::alloc::AllocError;
use thiserror::Error;

/// Why a port does not go on in a state.
#[derive(Clone, Copy, Debug, PartialEq, Eq, Error)]
pub enum ResumeFault {
    /// The state is lawful, but none that a port of this version makes: it is under another rule than the one in force,
    /// or its window has a map of more than 512 grants or of more than 128 ONUs.
    #[error("no state of a port of this version")]
    OutOfRange,
    /// Memory was refused.
    #[error("out of memory")]
    Memory,
}

impl From<AllocError> for ResumeFault {
    ghost from_gives = { λ _ fault. fault ≡ Memory };

    fn from(_: AllocError) -> Self {
        ResumeFault::Memory
    }
}
