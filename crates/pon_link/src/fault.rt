use thiserror::Error;

/// Why the bytes of a link are not records.
#[derive(Clone, Copy, Debug, PartialEq, Eq, Error)]
pub enum LinkFault {
    /// The first byte of a record is not the tag of its direction.
    #[error("a record does not begin with its tag")]
    BadTag,
    /// The count byte of an upstream record is 0 or above 16.
    #[error("an upstream record has no occupancy or more than 16")]
    BadCount,
    /// The bytes after the frame number of a downstream record are not a bandwidth map.
    #[error("a downstream record has no bandwidth map")]
    BadMap,
    /// The input ended inside a record, after `left` of its bytes.
    #[error("the input ended after {left} bytes of a record")]
    Truncated {
        /// Number of bytes of the record before the end.
        left: usize,
    },
}

/// Why a reader of downstream records returns none.
#[derive(Clone, Copy, Debug, PartialEq, Eq, Error)]
pub enum DownFault {
    /// The bytes are not records; every later call returns the same fault.
    #[error(transparent)]
    Link(LinkFault),
    /// Memory was refused for the map of a whole record, which is still held.
    #[error("out of memory")]
    Memory,
}
