//! The roster of a port of an XG-PON optical line terminal: its admitted Alloc-IDs in map order (upstream bandwidth
//! assignment, ITU-T G.987.3); the configuration of a port, and the seven events that it may be asked to take.
//!
//! A [`Roster`] is always an admitted set, by its type: the overhead of all bursts fits a frame, and the promised rates
//! fit the remaining words. The sums are kept, so a step costs one or two searches in the rows. An [`Event`] is a
//! value: the crates above define what it does to a port and when a port refuses it.
#![tactic(auto)]

mod event;
pub mod laws;
mod port_cfg;
mod roster;
mod row;
mod rule;
mod search;
mod step;
mod sums;

pub use event::Event;
pub use pon_descr::Cause;
pub use port_cfg::PortCfg;
pub use roster::{RULE_IN_FORCE, Roster};
pub use row::Row;
pub use rule::Rule;
pub use step::Step;
