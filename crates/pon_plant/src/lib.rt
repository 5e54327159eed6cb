//! The ports of one XG-PON optical line terminal (upstream bandwidth assignment, ITU-T G.987.3).
//!
//! A [`Plant`] has 1 to 64 ports and takes steps, each an event at a port, in any order. A step changes no other port,
//! so the history of a port depends on the steps at that port alone. The crate has no clock, device or thread.
#![tactic(auto)]

mod fault;
pub mod laws;
mod opening;
mod plant;

pub use fault::{PlantFault, StepFault};
pub use plant::Plant;
pub use pon_admit::Step;
