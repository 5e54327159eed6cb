//! The header error control of XG-PON transmission convergence (ITU-T G.987.3): each header word ends with 12 check
//! bits and a parity bit, so that a reader can correct up to two bit errors. The check bits are the remainder of the
//! payload, as a polynomial, after division by the generator: a table has the remainder of each byte at each of its
//! positions, and their sum is the remainder of the payload. A second table has the two bit positions of each syndrome,
//! at which a word is corrected. The meaning of a payload is left to other crates.
#![tactic(auto)]

mod fault;
pub mod laws;
mod open;
mod places;
mod seal;
mod table;

pub use fault::HecFault;
pub use open::{open32, open64};
pub use seal::{seal32, seal64};
