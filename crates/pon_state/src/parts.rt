ghost use Rattle.std.specs.Prelude.{◌≡◌};
ghost use Rattle.pon_state.specs.Parts.{state_from};

use crate::state::PortState;
use pon_admit::Roster;
use pon_descr::Cause;
use pon_guar::Loads;
use pon_units::{FrameNo, Profile};

/// The parts of a state.
#[derive(Drop)]
pub struct StateParts {
    /// The burst profile, 0 to 3.
    pub profile: Profile,
    /// The next frame, of 125 µs.
    pub next: FrameNo,
    /// The cause of the failure, 1 to 9, if the port is failed.
    pub cause: Option<Cause>,
    /// The number of entries before the state.
    pub taken_before: u64,
    /// The roster of the admitted Alloc-IDs, in map order.
    pub roster: Roster,
    /// The report book.
    pub loads: Loads,
    /// What the last map left to each row, in map order, in kbit/s: 0 to 255.
    pub carries: Vec<u8>,
}

impl PortState {
    /// Makes the state of these parts.
    pub fn from_parts(parts: StateParts) -> PortState
        ensures { result ≡ state_from parts }
    {
        PortState {
            profile: parts.profile,
            next: parts.next,
            cause: parts.cause,
            taken_before: parts.taken_before,
            roster: parts.roster,
            loads: parts.loads,
            carries: parts.carries,
        }
    }
}
