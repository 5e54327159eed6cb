//! The core of one port of an XG-PON optical line terminal (upstream bandwidth assignment, ITU-T G.987.3).
//!
//! A [`Port`] takes events and keeps them with their replies. Its state is the replay of that history:
//! a map depends on nothing else. It makes its maps with the certificate that progressive filling finds; the audit checks
//! them without it, as no crate below the audit fills. The crate has no clock, no device and no thread.
#![tactic(auto)]

mod certificates;
pub mod laws;
mod next_map;
mod port;
mod ranges;
mod resume_fault;

pub use pon_admit::{Event, PortCfg};
pub use pon_history::Chapter;
pub use pon_state::{Entry, EntryRef, MadeMap, PortState, Reply};
pub use port::Port;
pub use resume_fault::ResumeFault;
