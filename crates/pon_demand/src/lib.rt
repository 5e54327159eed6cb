//! The demands on a map of an XG-PON upstream frame (the reference model of ITU-T G.987.3): the guaranteed rate of each
//! admitted Alloc-ID, the class problems of what is not guaranteed, and, under a given certificate, the payload words of
//! each Alloc-ID and the structures that grant them.
//!
//! Nothing here fills a class: a certificate comes from elsewhere. [`MapBuffers`] keep the memory of demands and grants
//! for the next map.
#![tactic(auto)]

mod buffers;
mod demand;
mod grants;
mod input;
mod packing;
mod problems;
mod shares;
mod sharing;

pub use buffers::MapBuffers;
pub use demand::Demand;
pub use grants::Grants;
pub use input::ShareInput;
pub use packing::pack_grants;
pub use problems::{Problems, class_problems, grants_under};
pub use shares::{Share, Shares};
pub use sharing::Members;
