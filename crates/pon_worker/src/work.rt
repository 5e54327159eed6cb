// The work of a worker so far.
ghost use Rattle.std.specs.Prelude.{◌≡◌};
ghost use Rattle.pon_link.specs.Reading.{empty};
ghost use Rattle.pon_worker.specs.Turns.{no_counts};

use crate::counts::PortCounts;
use pon_link::{Direction, UpReader};

/// The work of a worker so far: the reader of the records of its link, and its counts.
#[derive(Drop)]
pub(crate) struct Work {
    pub(crate) up: UpReader,
    pub(crate) counts: PortCounts,
}

impl Work {
    pub(crate) fn new() -> Work
        ensures up { result.up ≡ empty Direction.Up }
        ensures counts { result.counts ≡ no_counts }
    {
        Work {
            up: UpReader::new(),
            counts: PortCounts::none(),
        }
    }
}
