use pon_bwmap::Map;
use pon_dbru::Occupancies;
use pon_units::FrameNo;
use pon_xgtc::BurstHead;

/// The content of one upstream burst.
#[derive(Debug, PartialEq, Eq, Drop)]
pub struct UpRecord {
    /// Frame of the burst.
    pub frame: FrameNo,
    /// Burst header, with bit errors corrected; `None` if its HEC was refused.
    pub head: Option<BurstHead>,
    /// Occupancies that the burst reported, in words.
    pub occ: Occupancies,
}

/// The map of a frame.
#[derive(Debug, PartialEq, Eq, Drop)]
pub struct DownRecord {
    /// Frame whose upstream bursts the map grants.
    pub frame: FrameNo,
    /// The map, with bit errors of its header words corrected.
    pub map: Map,
}
