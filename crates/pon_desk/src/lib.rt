//! A desk: many threads post events to the ports of one XG-PON optical line terminal (upstream bandwidth assignment,
//! ITU-T G.987.3).
//!
//! Each port is under its own lock. Each post is counted twice, at its port and at the seat that made it, and a ledger
//! for each keeps the two totals equal: once all seats are given back, no post was lost and none was kept twice. The
//! crate starts no thread, and has no clock or device.
#![tactic(auto)]

mod books;
mod closed;
mod closing;
mod desk;
mod fault;
mod held;
pub mod laws;
mod opening;
mod receipt;
mod resuming;
#[cfg(test)]
mod rows;
mod seat;
mod settling;
mod unsettled;
mod view;
mod walk;

pub use books::Books;
pub use closed::Closed;
pub use desk::Desk;
pub use fault::{CloseFault, DeskFault};
pub use held::Held;
pub use pon_lists::Kept;
pub use pon_plant::{PlantFault, StepFault};
pub use receipt::Receipt;
pub use seat::Seat;
pub use unsettled::Unsettled;
pub use view::{LastView, PortView};
