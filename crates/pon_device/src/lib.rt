//! Devices that bytes are read from and written to, and the reading and writing of whole texts.
//!
//! Each device counts its failures, and a reader also its reads, so a contract can state that a fault was returned only
//! if the device failed. A failed read is never taken for the end of the input, and a failed write leaves a prefix of
//! the text. The contracts of a device over memory also give its bytes, and only [`MemWrite`] allocates memory.
#![tactic(auto)]

mod fault;
mod memory;
mod reading;
mod standard;
mod traits;
mod writing;

pub use fault::DeviceFault;
pub use memory::{MemRead, MemWrite};
pub use reading::next_byte;
pub use standard::{StdRead, StdWrite};
pub use traits::{DevRead, DevWrite, Failed, write_all};
pub use writing::write_text;
