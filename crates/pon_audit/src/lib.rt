//! The audit of recordings of the ports of an XG-PON optical line terminal (upstream bandwidth assignment, ITU-T
//! G.987.3).
//!
//! [`audit_from`] reads a recording from a device, and [`audit`] has its bytes in memory. They replay each chapter and
//! check each map against its certificate: either each entry may follow those before it and each map is fair, or the
//! first fault is returned. The crate computes no certificate and applies no event to a port.
#![tactic(auto)]

mod answer;
mod auditing;
mod batches;
mod chain;
mod chapters;
mod ends;
mod entries;
mod faults;
mod in_order;
pub mod laws;
mod openings;
mod progress;
mod reading;
mod verdict;

pub use answer::write_verdict;
pub use auditing::{Auditing, Step, audit, audit_from, audit_keeping};
pub use batches::PARALLEL_MAPS;
pub use chapters::{Fault, Judged, judge};
pub use ends::KeptEnds;
pub use entries::{accepted_problems, take_entry, take_map};
pub use in_order::{audit_in_order, judge_all};
pub use openings::open_state;
pub use reading::{Batch, BatchEnd};
pub use verdict::{AuditReason, Verdict};
