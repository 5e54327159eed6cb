//! Lists for several crates: a list in an order, an element inserted in its place, bytes, the distinct numbers of a list,
//! decoders that read step by step, and items that are all kept or, once memory was refused, none.
//!
//! Beside [`Kept`] it has definitions (`specs/`) and lemmas (`proofs/`), and no code that runs.
#![tactic(auto)]

mod kept;

pub use kept::Kept;
