//! Recordings of the ports of an XG-PON optical line terminal (upstream bandwidth assignment, ITU-T G.987.3): the
//! chapters of their histories as bytes.
//!
//! The format is defined once, in `specs/`: each value has one encoding, and [`read_recording`] accepts exactly these. A
//! [`RecordFile`] writes chapters to a device. It keeps the bytes that a failed device did not take, and writes them before
//! anything else. [`laws`] say that what is written is read back.
//!
//! The crate does not judge the content of a recording, such as whether its entries follow from its openings.
#![tactic(auto)]

mod chapter;
mod chapter_reader;
mod chapters;
mod codes;
mod counting;
mod cursor;
mod entry;
mod events;
mod fault;
mod fronts;
pub mod laws;
mod layout;
mod limits;
mod lists;
mod made;
mod migration;
mod moved;
mod opening;
mod openings;
mod pending;
mod record_fault;
mod record_file;
mod recording;
mod row;
mod stream_fault;
mod version;
mod writing;

pub use chapter::{RawChapter, Recording};
pub use chapter_reader::ChapterReader;
pub use counting::chapter_count;
pub use fault::ReadFault;
pub use limits::{CHAPTER_TAG, MAGIC_BYTES};
pub use migration::migrate;
pub use opening::{Opening, RawMap};
pub use record_fault::RecordFault;
pub use record_file::RecordFile;
pub use recording::read_recording;
pub use row::RawRow;
pub use stream_fault::StreamFault;
pub use version::Version;
