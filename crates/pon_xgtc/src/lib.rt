//! The headers of 4 bytes of XG-PON transmission convergence (ITU-T G.987.3), as values and as bytes.
//! Each is a payload of 19 bits in a codeword of the header code. The bytes after a header are left to
//! other crates.
#![tactic(auto)]

mod burst_head;
mod fault;
mod header;
mod hlend;

pub use burst_head::BurstHead;
pub use fault::HeadFault;
pub use hlend::HLend;
