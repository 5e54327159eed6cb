//! Laws that join the recordings of the ports of an XG-PON optical line terminal (upstream bandwidth assignment, ITU-T
//! G.987.3) and their audit; tests of the writer, the reader and the audit; and tests of what a recording holds of a map:
//! its structures and its certificate.
//!
//! Each law is the contract of a function that computes nothing: what is written is judged good, and any bytes have a
//! verdict. Each crate of which the laws and tests speak is proved once, so these are in a crate above them.
#![tactic(auto)]

#[cfg(test)]
mod audit;
#[cfg(test)]
mod batches;
#[cfg(test)]
mod carries;
#[cfg(test)]
mod certificates;
#[cfg(test)]
mod chains;
#[cfg(test)]
mod joined;
pub mod laws;
#[cfg(test)]
mod limits;
#[cfg(test)]
mod maps;
#[cfg(test)]
mod migrating;
#[cfg(test)]
mod planning;
#[cfg(test)]
mod reading;
#[cfg(test)]
mod recordings;
#[cfg(test)]
mod resumed;
#[cfg(test)]
mod segments;
#[cfg(test)]
mod streams;
#[cfg(test)]
mod versions;
#[cfg(test)]
mod writing;
