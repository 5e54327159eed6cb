use crate::fault::LinkFault;
use thiserror::Error;

/// Result of a pull.
#[derive(Clone, Copy, Debug, PartialEq, Eq)]
pub enum Pulled {
    /// The number of bytes that were added; 0 if a whole record is held already.
    Bytes(usize),
    /// The input ended, with no bytes of a record held.
    End,
}

/// Why a pull added no bytes.
#[derive(Clone, Copy, Debug, PartialEq, Eq, Error)]
pub enum PullFault {
    /// The device failed. The reader is unchanged, and can pull again.
    #[error("the device failed")]
    Device,
    /// The bytes are not records, or the input ended inside one; every later call returns the same fault.
    #[error(transparent)]
    Link(LinkFault),
}
