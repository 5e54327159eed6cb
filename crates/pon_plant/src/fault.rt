use pon_descr::Refusal;
use std::alloc::AllocError;
use thiserror::Error;

/// Why a plant is not opened.
#[derive(Clone, Copy, Debug, PartialEq, Eq, Error)]
pub enum PlantFault {
    /// There are no ports, or more than 64.
    #[error("no ports, or more than 64")]
    Ports,
    /// Memory was refused.
    #[error("out of memory")]
    Memory,
}

impl From<AllocError> for PlantFault {
    ghost use Rattle.std.specs.Prelude.{◌≡◌};
    ghost use Rattle.pon_plant.specs.declared.fault.PlantFault.TheVariants.{Memory};

    ghost from_gives = { λ _ fault. fault ≡ Memory };

    fn from(_: AllocError) -> Self {
        PlantFault::Memory
    }
}

/// Why a step is not taken.
#[derive(Clone, Copy, Debug, PartialEq, Eq, Error)]
pub enum StepFault {
    /// The plant has no port of this number.
    #[error("no such port")]
    NoSuchPort,
    /// The port refuses the event.
    #[error("refused: {0}")]
    Refused(Refusal),
}
