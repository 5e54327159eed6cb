//! Bandwidth maps of XG-PON (ITU-T G.987.3), which grant the upstream frame to the Alloc-IDs of the ONUs. A map is a
//! list of allocation structures that keeps the rules of series. It is written as its head and 8 bytes for each
//! structure, each of them a codeword of the header code, and is read with bit errors in its header words corrected.
//! Which Alloc-ID is granted what is decided by other crates.
#![tactic(auto)]

mod alloc;
mod decode;
mod encode;
mod fault;
pub mod laws;
mod map;
mod rules;

pub use alloc::Alloc;
pub use decode::{decode_map, map_fault};
pub use encode::{encode_map, write_map};
pub use fault::MapFault;
pub use map::Map;
