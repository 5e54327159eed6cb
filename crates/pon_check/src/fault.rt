use std::{error, fmt};
use thiserror::Error;

/// Why the certificate of a class is refused. Of several faults the first counts, in this order: length, denominator,
/// items in order, sum.
#[derive(Clone, Copy, Debug, PartialEq, Eq)]
pub enum CertFault {
    /// The numbers of flags and of items differ.
    Length,
    /// The denominator is not the weight of the unsaturated items, or is 0.
    Denominator,
    /// Item `i`, from 0, is saturated, and its cap is above its share at the level. Not returned at a level of all.
    Saturated { i: usize },
    /// Item `i`, from 0, is not saturated, and its cap is at most its share at the level, or the level is all.
    Unsaturated { i: usize },
    /// The rates are less than the surplus, and the level is a fraction.
    NotExhausted,
    /// The rates are more than the surplus.
    Overspent,
}

impl fmt::Display for CertFault {
    ghost use Rattle.std.specs.Prelude.{Some};
    ghost use Rattle.pon_check.specs.Faults.{cert_fault_text};

    ghost output = { λ fault. Some (cert_fault_text fault) };

    fn fmt<W: fmt::Write>(&self, f: &mut fmt::Formatter<W>) -> fmt::Result {
        match *self {
            CertFault::Length => write!(f, "Length"),
            CertFault::Denominator => write!(f, "Denominator"),
            CertFault::Saturated { i } => write!(f, "Saturated {i}"),
            CertFault::Unsaturated { i } => write!(f, "Unsaturated {i}"),
            CertFault::NotExhausted => write!(f, "NotExhausted"),
            CertFault::Overspent => write!(f, "Overspent"),
        }
    }
}

impl error::Error for CertFault {}

/// Why the certificate of a map is refused: the class, and its first fault. The non-assured class is checked first.
#[derive(Clone, Copy, Debug, PartialEq, Eq, Error)]
pub enum MapCertFault {
    /// The non-assured class is refused.
    #[error("non-assured class: {0}")]
    NonAssured(CertFault),
    /// The best-effort class is refused.
    #[error("best-effort class: {0}")]
    BestEffort(CertFault),
}
