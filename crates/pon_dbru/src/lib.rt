//! The dynamic bandwidth report (DBRu) of an allocation on an XG-PON line (ITU-T G.987.3): the number of waiting words
//! in three bytes, and a check byte.
//!
//! A report with a wrong check byte is garbled; no bit is corrected. The crate allocates no memory.
#![tactic(auto)]

mod occupancies;
mod report;

pub use occupancies::Occupancies;
pub use report::{Garbled, decode, encode};
