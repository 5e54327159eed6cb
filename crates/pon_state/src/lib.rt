//! The state of one port of an XG-PON optical line terminal (upstream bandwidth assignment, ITU-T G.987.3): the checks
//! that refuse an event, the step of an accepted event, and the map under a given certificate.
//!
//! A [`PortState`] is the state after the history of a port. The crate keeps no history.
#![tactic(auto)]

mod apply;
mod checks;
mod entry;
mod maps;
mod parts;
mod ranges;
mod reply;
mod state;

pub use apply::{add_map, step};
pub use checks::{Checked, MAX_ENTRIES, check};
pub use entry::{Entry, EntryRef};
pub use maps::{MapUnder, map_under, next_problems};
pub use parts::StateParts;
pub use ranges::prove_in_range;
pub use reply::{MadeMap, Reply};
pub use state::PortState;
