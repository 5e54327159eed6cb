//! The connections between the ports of a terminal and their units, over sockets: with both ends in this process, with units
//! elsewhere, and the simulated units of a terminal elsewhere.
#![tactic(auto)]

mod address;
mod answering;
mod client;
mod control;
mod conversing;
mod elsewhere;
mod external;
mod link;
mod metrics;
mod operator;
mod outside;
mod refusals;
mod units;

pub use address::has_room;
pub use answering::{UnitsPart, answer, answer_growing};
pub use client::stop_run;
pub use control::ControlListener;
pub use conversing::operate_run;
pub use elsewhere::{UnitsArgs, run_units};
pub use external::{ExternalUnits, Visitors};
pub use link::{FarEnd, Link, open_links};
pub use metrics::{MetricsClients, MetricsListener};
pub use operator::OperatorStream;
pub use outside::accept_links;
pub use units::units_of;
