//! Tests of what a map follows from, and of long histories through the public functions of several crates: the roster, the
//! report book and the rates; ports, plants, and `plan`.
//!
//! They are in a crate above these, so that each of these is proved once and its wrong programs wait for no test.
#![tactic(auto)]

#[cfg(test)]
mod acts;
#[cfg(test)]
mod left;
#[cfg(test)]
mod loads;
#[cfg(test)]
mod plan;
#[cfg(test)]
mod plants;
#[cfg(test)]
mod port;
#[cfg(test)]
mod rates;
#[cfg(test)]
mod rings;
#[cfg(test)]
mod roster;
