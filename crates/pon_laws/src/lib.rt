//! What the promise of a map means for the owner of an Alloc-ID of an XG-PON upstream line (the reference model of dynamic
//! bandwidth assignment, ITU-T G.987.3): laws over the definitions of the promise alone.
//!
//! [`shares`] is about one map: what no other subscriber can take, and when capacity may be idle. [`growth`] compares two
//! class problems that differ in one item. [`runs`] is about the words of an Alloc-ID over consecutive maps.
#![tactic(auto)]

pub mod growth;
pub mod runs;
pub mod shares;
