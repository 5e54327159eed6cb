ghost use Rattle.std.specs.Prelude.{◌≡◌};
ghost use Rattle.pon_look.specs.Sums.{is_within};

use crate::query::{LoadsQuery, RatesQuery};
use pon_units::FrameNo;

/// A range of frames of 125 µs, both ends included.
#[derive(Clone, Copy, Debug, PartialEq, Eq)]
pub struct FrameRange {
    /// The number of the first frame.
    pub first: u64,
    /// The number of the last frame.
    pub last: u64,
}

impl FrameRange {
    /// Returns whether a frame is in the range.
    pub fn holds(&self, frame: FrameNo) -> bool
        ensures { result ≡ is_within self.now frame }
    {
        self.first <= frame.get() && frame.get() <= self.last
    }
}

impl FrameRange {
    // Makes the range of given ends; all frames without any.
    fn between(from: Option<u64>, to: Option<u64>) -> FrameRange {
        FrameRange {
            first: from.unwrap_or(0),
            last: to.unwrap_or(u64::MAX),
        }
    }
}

impl From<&RatesQuery> for FrameRange {
    fn from(query: &RatesQuery) -> FrameRange {
        FrameRange::between(query.from, query.to)
    }
}

impl From<&LoadsQuery> for FrameRange {
    fn from(query: &LoadsQuery) -> FrameRange {
        FrameRange::between(query.from, query.to)
    }
}
