//! Certificates of a fair share: how the surplus of an XG-PON upstream line (the reference model of ITU-T G.987.3) is
//! shared in a class, as a level and the items that get their cap, and what a certificate guarantees.
//!
//! A certificate stands for one assignment, and no other is as fair. Its bytes and its text are the project's own. This
//! crate neither computes nor checks certificates.
#![tactic(auto)]

mod cert;
mod decode;
mod encode;
pub mod laws;
mod left;
mod print;
mod problem;
mod sat;

pub use cert::{CertReadFault, ClassCert, Level, MapCert};
pub use left::left_surplus;
pub use problem::{Item, MAX_ITEMS, is_problem};
pub use sat::Sat;
