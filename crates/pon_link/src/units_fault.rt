use crate::fault::LinkFault;
use thiserror::Error;

/// Why simulated units stopped answering.
#[derive(Clone, Copy, Debug, PartialEq, Eq, Error)]
pub enum UnitsFault {
    /// A read, a write or a flush failed, or 2^64 - 1 reads were made.
    #[error("a read, a write or a flush failed")]
    Device,
    /// The bytes that were read are not maps, or the input ended inside one.
    #[error(transparent)]
    Link(LinkFault),
    /// Memory was refused for a map.
    #[error("out of memory")]
    Memory,
}
