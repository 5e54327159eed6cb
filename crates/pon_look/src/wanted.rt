use crate::frame_range::FrameRange;
use crate::query::{LoadsQuery, RatesQuery};
use pon_units::{AllocId, PortNo};

/// Which maps of a recording are summed up, and the Alloc-ID that is followed along them, if one is.
#[derive(Clone, Copy)]
pub(crate) struct Wanted {
    /// The port, or each port.
    pub port: Option<PortNo>,
    pub range: FrameRange,
    pub followed: Option<AllocId>,
}

impl Wanted {
    /// Returns whether the maps of a port are summed up.
    pub(crate) fn has(&self, port: PortNo) -> bool {
        self.port.is_none() || self.port == Some(port)
    }
}

impl From<&RatesQuery> for Wanted {
    fn from(query: &RatesQuery) -> Wanted {
        Wanted {
            port: query.port,
            range: FrameRange::from(query),
            followed: None,
        }
    }
}

impl From<&LoadsQuery> for Wanted {
    fn from(query: &LoadsQuery) -> Wanted {
        Wanted {
            port: query.port,
            range: FrameRange::from(query),
            followed: Some(query.alloc_id),
        }
    }
}
