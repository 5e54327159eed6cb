//! The history of one port of an XG-PON optical line terminal (upstream bandwidth assignment, ITU-T G.987.3): its
//! chapters, what makes them lawful, and what their maps promise.
//!
//! A [`Chapter`] is an opening and the entries after it. Its end is the replay of these entries, and the laws are
//! about replay alone: nothing here makes a map.
#![tactic(auto)]

mod chapter;
pub mod laws;

pub use chapter::Chapter;
