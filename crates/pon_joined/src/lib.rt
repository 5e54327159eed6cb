//! The files of one recording, read as one: the bytes of the first, and then those of each further file after its magic
//! bytes.
//!
//! A file is opened when the one before it has ended, so no two are held at a time.
#![tactic(auto)]

mod files;
mod joined;
pub mod laws;

pub use files::NextFile;
pub use joined::{Joined, NO_CHAPTER};
