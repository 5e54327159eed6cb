//! The worker of one port of an XG-PON optical line terminal (upstream bandwidth assignment, ITU-T G.987.3).
//!
//! In each turn a worker has its port make the map of the next frame, sends it to the units of the line, reads one
//! record for each burst of the map, and posts the reports of the bursts. It posts at a desk, which other threads may
//! use meanwhile. It holds no lock while it calls its gate, writes or reads, starts no thread and opens no device.
#![tactic(auto)]

mod between;
mod causes;
mod counts;
mod gate;
mod posting;
mod reading;
mod receiving;
mod sending;
mod serving;
mod turn;
mod work;

pub use between::{cut_chapter, restore_port};
pub use counts::{PortCounts, StopReason, WorkerEnd};
pub use gate::{Gate, OpenGate, Pace, Point, Turns};
pub use pon_ring::Sink;
pub use serving::serve_port;
