//! The chapters of one port of an XG-PON optical line terminal on their way from the worker of the port to the recorder
//! of the terminal: a ring between two threads, and the sink that a worker passes its chapters to.
//!
//! The ring is that of `rtrb`, with room for one chapter, under the protocol that the numbers of the chapters rise. No
//! call waits: a chapter that finds no room is kept by the sink, or dropped and counted.
#![tactic(auto)]

pub mod laws;
mod opening;
mod ring_in;
mod ring_out;
mod rising;
mod sink;

pub use opening::ring;
pub use ring_in::{RingEnd, RingIn};
pub use ring_out::RingOut;
pub use rising::Rising;
pub use sink::{Rest, Sink};
