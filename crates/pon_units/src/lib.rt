//! The units of upstream scheduling on an XG-PON line (ITU-T G.987.3): identifiers, rates, words, gaps,
//! frames and grants, and exact fractions.
//!
//! A number in range is a type of its own, created by `new` and read by `get`, so its users never test the range
//! again. Only [`whole`] rounds, and nothing allocates memory.
#![tactic(auto)]

mod amount;
mod frac;
mod granted;
mod identity;
mod limits;
mod line;

pub use amount::{BufOcc, Kbps, Words};
pub use frac::{Frac, cmp_frac, whole};
pub use granted::Granted;
pub use identity::{AllocId, OnuId, PortNo};
pub use limits::{
    FRAME_WORDS, LINE_RATE, MAX_ALLOC_ID, MAX_GAP, MAX_OCCUPANCY, MAX_ONU_ID, MAX_ONUS, MAX_PORTS,
    MAX_PROFILE, MAX_RATE, MAX_SERIES, MAX_STRUCTURES, MIN_ALLOC_ID, MIN_GAP, WORD_RATE,
};
pub use line::{FrameNo, Gap, Profile};
