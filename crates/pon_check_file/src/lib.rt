//! Check files: reads a text with a surplus, the items that share it and a certificate, and writes the verdict as one
//! line.
//!
//! The text is judged by the checker of `pon_check` only, so `yes` has the same guarantee: the assignment of the
//! certificate is the fairest share. The crate computes no certificate and depends on no crate that shares a surplus.
#![tactic(auto)]

mod answer;
mod file;
pub mod laws;
mod lines;
mod reading;
mod set;
mod stage;

pub use answer::check_file;
pub use pon_device::DeviceFault as PlanFault;
pub use reading::MAX_LINE_BYTES;
