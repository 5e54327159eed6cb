//! The numbers of a port.

/// What the metrics of a port show, at a moment.
#[derive(Clone, Copy, Debug, PartialEq, Eq)]
pub struct PortMetrics {
    /// Whether the port is served: its worker makes maps.
    pub up: bool,
    /// Whether its worker has ended. A port that is neither served nor ended waits to be restored, or for its units.
    pub ended: bool,
    /// The cause with which the port is failed, 1 to 9, or 0 if it is not failed; `None` if that is not known.
    pub cause: Option<u64>,
    /// The number of maps that it made.
    pub maps: u64,
    /// The number of reports that it accepted.
    pub reports: u64,
    /// The number of reports that it refused.
    pub refused: u64,
    /// The number of records with a damaged burst header.
    pub damaged: u64,
    /// The number of records of a burst that no unit owns.
    pub unowned: u64,
    /// The number of maps that began late.
    pub late: u64,
    /// The greatest delay of a map by the pace since the run began, in microseconds.
    pub latest: u64,
    /// The number of its chapters that were recorded.
    pub recorded: u64,
    /// The number of its chapters that were dropped.
    pub dropped: u64,
    /// The number of connections with units that were served.
    pub connections: u64,
    /// The number of its Alloc-IDs; `None` if it is not known.
    pub alloc_ids: Option<u64>,
    /// The number of ONUs that own one; `None` if it is not known.
    pub onus: Option<u64>,
    /// The sum of the guaranteed rates, in bytes per second; `None` if it is not known.
    pub guaranteed: Option<u64>,
    /// The rate for payload, in bytes per second; `None` if it is not known.
    pub capacity: Option<u64>,
}
