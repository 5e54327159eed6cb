//! What is sure for an Alloc-ID of an XG-PON upstream line (the reference model of dynamic bandwidth assignment, ITU-T
//! G.987.3) whatever others report: it follows from the admitted set alone.
//!
//! [`sure_of`] has for an admitted Alloc-ID its guaranteed rate, its sure part of the surplus of its class, and its longest
//! wait. The laws of `pon_laws` say what each is worth. The crate makes no map and formats nothing.
#![tactic(auto)]

mod sure;

pub use sure::{Sure, sure_of};
