use crate::row::RawRow;
use pon_admit::Rule;
use pon_descr::Cause;
use pon_units::{FrameNo, Gap, Granted, OnuId, Profile};
use std::marker::Model;

/// A map of a recorded window.
#[derive(Debug, Drop)]
pub struct RawMap {
    /// The frame of the map, of 125 µs.
    pub frame: FrameNo,
    /// Its grants, at most 512.
    pub grants: Vec<Granted>,
    /// The ONUs that reported for it, at most 255.
    pub reported: Vec<OnuId>,
}

impl Model for RawMap {
    ghost use Rattle.pon_guar.specs.Window.{WindowMap};

    ghost Value = { WindowMap };

    ghost view = { λ m. record {
      frame = m.frame;
      grants = m.grants.items;
      reported = m.reported.items;
    } };
}

/// The state that a recorded chapter opens with.
#[derive(Debug, Drop)]
pub struct Opening {
    /// The rule of the chapter.
    pub rule: Rule,
    /// The gap before each burst, 1 to 256 words of 4 bytes.
    pub gap: Gap,
    /// The burst profile, 0 to 3.
    pub profile: Profile,
    /// The cause of the failure, 1 to 9, if the port is failed.
    pub cause: Option<Cause>,
    /// The next frame, of 125 µs.
    pub next: FrameNo,
    /// The number of entries before the chapter.
    pub taken_before: u64,
    /// The rows of the admitted Alloc-IDs, at most 512.
    pub rows: Vec<RawRow>,
    /// The maps of the window, at most 64.
    pub window: Vec<RawMap>,
}

impl Model for Opening {
    ghost use Rattle.pon_record.specs.Openings.{Opening};

    ghost Value = { Opening };

    ghost view = { λ o. record {
      rule = o.rule;
      gap = o.gap;
      profile = o.profile;
      cause = o.cause;
      next = o.next;
      taken_before = o.taken_before;
      rows = o.rows.items;
      window = o.window.items;
    } };
}
