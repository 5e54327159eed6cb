//! The answer to a series that no unit reports to.

ghost use Rattle.std.specs.Prelude.{◌≡◌, ◌≤◌, length};
ghost use Rattle.pon_link.specs.Answers.{foreign_answer};

use crate::record::UpRecord;
use pon_bwmap::Alloc;
use pon_dbru::Occupancies;
use pon_units::{BufOcc, FrameNo, MAX_SERIES};
use pon_xgtc::BurstHead;

/// The ONU-ID that no unit has (ITU-T G.987.3, ONU-ID).
pub(crate) const NO_ONU: u16 = 1023;

// Returns a record without a sender, with an occupancy of 0 for each structure.
pub(crate) fn foreign(frame: FrameNo, series: &[Alloc]) -> UpRecord
    requires { length series.now ≤ MAX_SERIES }
    ensures { result ≡ foreign_answer frame series.now }
{
    let mut occ = Occupancies::new();
    for _structure in series {
        occ.push(BufOcc::new(0));
    }
    let head = BurstHead::new(NO_ONU, 0);
    UpRecord { frame, head, occ }
}
