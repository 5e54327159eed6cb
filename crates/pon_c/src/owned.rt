//! What C owns behind a pointer, as a `Box` owns it.

pub(crate) mod chapter;
mod parts;
pub(crate) mod port;
