//! The ports of an XG-PON optical line terminal for programs in C (upstream bandwidth assignment, ITU-T G.987.3):
//! bandwidth maps into the caller's memory.
//!
//! `include/sezhimow.h` declares each export for C. Its names, parameters and numbers are those of this crate, as
//! `bench/library` checks.
#![tactic(auto)]

mod auditing;
mod chapter_handle;
mod checking;
mod codecs;
mod events;
mod filling;
mod grants;
mod handle;
mod maps;
mod numbers;
mod opening;
mod owned;
mod resuming;
mod state;
mod turned;
mod turning;
mod version;
mod why;
