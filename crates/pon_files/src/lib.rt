//! The files that the command line names: those that are read; those that are written beside their name, and get it when they
//! are whole; and the file of a recording, or the folder of its segments.
//!
//! No file that is read is ever written, by whatever name it is called; no part of an earlier run is emptied, and no two
//! processes write one part.
#![tactic(auto)]

mod finishing;
mod flushing;
mod identity;
mod inputs;
mod leftover;
mod lock;
mod opening;
mod part;
mod reading;
mod recording_file;
mod segment_file;
mod segment_folder;
mod segment_names;
mod segment_numbers;
mod segments;
mod target;
mod writing;

pub use finishing::finish_recording;
pub use flushing::FlushTimer;
pub use inputs::{Inputs, Source};
pub use lock::LockFile;
pub use part::{PartFile, Progress};
pub use reading::open_input;
pub use recording_file::{
    FileTape, RecordingFile, SegmentFiles, begin_recording, end_recording, record_in,
};
pub use segment_file::SegmentFile;
pub use segments::{SegmentsWanted, record_in_segments};
pub use target::{Output, Target, target_of};
pub use writing::write_file;
