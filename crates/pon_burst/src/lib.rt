//! Packing of upstream bursts into an XG-PON frame (ITU-T G.987.3, StartTime and GrantSize of a bandwidth map).
//! Given the payload words of the Alloc-IDs of each ONU, it lays one burst for each ONU, one after another with a gap
//! before each, and writes the allocation structures that grant them: no two bursts overlap, and each ends within the
//! frame. [`lay_bursts`] takes the grants of a map as a list, [`pack`] takes them grouped by ONU; both write the same
//! structures. Neither allocates memory; the granted words are decided by other crates.
#![tactic(auto)]

pub mod laws;
mod laying;
mod layout;
mod packing;

pub use laying::lay_bursts;
pub use packing::pack;
