//! Shares a surplus among weighted items with caps, in whole numbers. The level is the remaining surplus over the
//! remaining weight. A round saturates every item whose cap is met there, which raises the level for the others, until
//! no other cap is met. A few rounds solve most problems. Otherwise the items are sorted by the level that meets their
//! caps, their caps over their weights, and saturated in that order up to the first whose cap is not met. It allocates
//! no memory, and the fraction is not reduced. The certificate of a fair share, and the proof that it is the fairest,
//! are in the crate `pon_cert`.
#![tactic(auto)]

pub mod laws;
mod level;
mod order;
mod rest;

pub use level::fill;
