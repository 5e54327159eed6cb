//! What was sold to the Alloc-IDs of an XG-PON upstream line (the reference model of dynamic bandwidth assignment, ITU-T
//! G.987.3) over maps, and what they got of it.
//!
//! [`Watches`] takes the maps of chapters, in their order. It has for each Alloc-ID the sold rate while at least as much was
//! reported, the words granted then, the greatest shortfall over any run of maps, and the longest wait for a word.
//! [`laws`] says that no lawful chapters fall short. The crate reads no recording and makes no map.
#![tactic(auto)]

mod head;
pub mod laws;
mod watch;
mod watches;

pub use watch::Sold;
pub use watches::Watches;
