//! A checker of certificates of a fair share (the rate-proportional reference model of ITU-T G.987.3): it accepts the
//! certificate of a surplus and its items, and returns the first fault of any other.
//!
//! The contracts state more than agreement with a program: the assignment of an accepted certificate is the fairest
//! share, and no other certificate is accepted. The crate computes no certificate, allocates no memory, and depends on
//! no crate that shares a surplus.
#![tactic(auto)]

mod class;
mod fault;
mod map;
mod sums;

pub use class::check_class;
pub use fault::{CertFault, MapCertFault};
pub use map::check_map;
