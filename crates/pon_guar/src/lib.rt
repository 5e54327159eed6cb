//! The guaranteed stage of an XG-PON optical line terminal (upstream bandwidth assignment, ITU-T G.987.3): the window of
//! the last maps, for which buffer reports may still come, the loads that these reports offer, and the rates that
//! descriptors guarantee under them.
//!
//! [`Loads`] is the report book of a port. A [`Window`] keeps a running sum with each grant of its maps: the words
//! granted to an Alloc-ID since a map are the difference of two sums, whatever the age of the map. A load needs at most
//! one search, and a map one pass over its grants, with searches for wrong hints. A structure of a report needs at most
//! one search of the accounts and two of each map.
#![tactic(auto)]

mod account;
mod counting;
mod deduction;
pub mod laws;
mod loads;
mod map;
mod parts;
mod place;
mod rates;
mod reports;
mod sums;
mod window;

pub use account::{Account, Counted};
pub use loads::Loads;
pub use map::{OnuGrants, WindowMap};
pub use parts::{LoadsFault, MapParts};
pub use rates::{cap, guaranteed};
pub use reports::Accepted;
pub use window::{MAX_MAPS, Window};
