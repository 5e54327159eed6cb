//! The recorder of a run: it collects the chapters of all ports of an XG-PON optical line terminal (upstream bandwidth
//! assignment, ITU-T G.987.3) out of their rings into the file of a recording, which `pon_record` writes.
//!
//! The worker of a port passes each full chapter to the sink of the port, and the recorder takes it out of the ring after
//! that sink, meanwhile. At the end the recorder takes what is left in each sink, and the chapter that each
//! port keeps. No worker waits for it: a chapter that the file does not take is dropped and counted. The crate opens no
//! file, starts no thread and decides nothing about a port.
#![tactic(auto)]

mod chapter_watch;
mod going_on;
mod held;
mod inlet;
mod kept;
mod map_count;
mod next_device;
mod port_maps;
mod port_sink;
mod recorder;
mod recording;
mod recording_thread;
mod rings;
mod rounds;
mod tape;

pub use chapter_watch::ChapterWatch;
pub use held::Held;
pub use inlet::TakenChapters;
pub use next_device::NextDevice;
pub use port_sink::PortSink;
pub use recorder::{Ended, Recorder};
pub use recording::{open_recorder, record_to};
pub use recording_thread::{Recording, Sinks};
pub use rings::{PortRing, Rings, open_rings};
pub use tape::{FollowedFile, Tape, TapeFile};
