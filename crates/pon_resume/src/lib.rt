//! Ports of an XG-PON optical line terminal (upstream bandwidth assignment, ITU-T G.987.3) that go on where a recording
//! ends.
//!
//! [`read_ends`] audits a recording and keeps the last chapter of each port, and [`LastChapters::resume`] opens the port
//! after it: with the next number, the state at the end, and no entries. The crate opens no file and has no clock.
#![tactic(auto)]

mod after;
mod changes;
mod ends;
mod last;
mod not_resumed;
mod reading;

pub use after::{end_of, resume_after};
pub use changes::{Change, changes_to, is_other_line};
pub use ends::{ReadEnds, read_ends};
pub use last::LastChapters;
pub use not_resumed::NotResumed;
pub use reading::read_last;
