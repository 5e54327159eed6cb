ghost use Rattle.std.specs.Prelude.{◌≡◌, IfOk};

use crate::Sat;
use pon_units::Frac;
use std::alloc::{AllocError, Global};
use thiserror::Error;

/// The rate of an unsaturated item for each unit of its weight.
#[derive(Clone, Copy, Debug, PartialEq, Eq)]
pub enum Level {
    /// Every item gets its cap.
    All,
    /// The kbit/s for each unit of weight. The fraction is kept as it is written, not reduced.
    At(Frac),
}

/// The certificate of a class: the level, and which of its items are saturated.
#[derive(Debug, PartialEq, Eq, Drop)]
pub struct ClassCert {
    /// The level of the unsaturated items.
    pub level: Level,
    /// A flag for each item of the class, in map order: whether it gets its cap.
    pub saturated: Sat,
}

impl ClassCert {
    /// Makes an equal certificate.
    ///
    /// # Errors
    ///
    /// `AllocError` if memory is refused.
    pub fn try_copy(&self, alloc: Global) -> Result<Self, AllocError>
        ensures { IfOk result (λ copy. copy ≡ self.now) }
    {
        let saturated = self.saturated.try_copy(alloc)?;
        Ok(ClassCert {
            level: self.level,
            saturated,
        })
    }
}

/// The certificate of a map: how its surplus is shared in the non-assured class, and how the surplus that this class
/// leaves is shared in the best-effort class.
#[derive(Debug, PartialEq, Eq, Drop)]
pub struct MapCert {
    /// Certificate of the non-assured class.
    pub na: ClassCert,
    /// Certificate of the best-effort class.
    pub be: ClassCert,
}

impl MapCert {
    /// Makes an equal certificate.
    ///
    /// # Errors
    ///
    /// `AllocError` if memory is refused.
    pub fn try_copy(&self, alloc: Global) -> Result<Self, AllocError>
        ensures { IfOk result (λ copy. copy ≡ self.now) }
    {
        let na = self.na.try_copy(alloc)?;
        let be = self.be.try_copy(alloc)?;
        Ok(MapCert { na, be })
    }
}

/// Why bytes or a text are not a certificate.
#[derive(Clone, Copy, Debug, PartialEq, Eq, Error)]
pub enum CertReadFault {
    /// The bytes end inside the certificate. A text is never short.
    #[error("fewer bytes than the certificate has")]
    Short,
    /// The bytes or the text do not have the form of a certificate.
    #[error("not in the form of a certificate")]
    Form,
    /// Memory was refused for a valid certificate.
    #[error("out of memory")]
    Memory,
}
