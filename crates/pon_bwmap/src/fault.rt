use thiserror::Error;

/// Why bytes or allocation structures are not a map. `k` is the index of the structure, from 0.
#[derive(Clone, Copy, Debug, PartialEq, Eq, Error)]
pub enum MapFault {
    /// There are fewer bytes than the head has, or than it announces.
    #[error("fewer bytes than the map has")]
    Short,
    /// The head is more than two bits away from every codeword.
    #[error("the head cannot be corrected")]
    HeadHec,
    /// There are more than 512 structures.
    #[error("more than 512 allocation structures")]
    TooMany,
    /// The structure is more than two bits away from every codeword.
    #[error("allocation structure {k} cannot be corrected")]
    StructHec { k: usize },
    /// The first structure has no start.
    #[error("allocation structure {k} is the first and has no start")]
    SeriesStart { k: usize },
    /// The structure's start is above 9,719.
    #[error("allocation structure {k} starts past the frame")]
    StartRange { k: usize },
    /// The structure is the seventeenth of its series.
    #[error("allocation structure {k} is the seventeenth of its series")]
    SeriesLong { k: usize },
    /// Memory was refused.
    #[error("out of memory")]
    Memory,
}
