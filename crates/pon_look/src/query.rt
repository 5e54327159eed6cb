//! What a person asks of a recording, and what an answer says if nothing in it matches.

use pon_units::{AllocId, FrameNo, PortNo};
use std::error::Error;
use std::fmt;

/// Which maps `olt rates` sums up. A field that is `None` matches each port, Alloc-ID or frame.
#[derive(Clone, Copy, Debug, PartialEq, Eq)]
pub struct RatesQuery {
    /// The port, 0 to 63.
    pub port: Option<PortNo>,
    /// The Alloc-ID, 1024 to 16383.
    pub alloc: Option<AllocId>,
    /// The first frame, of 125 µs.
    pub from: Option<u64>,
    /// The last frame, of 125 µs.
    pub to: Option<u64>,
}

/// Which Alloc-ID `olt loads` follows, and along which frames.
#[derive(Clone, Copy, Debug, PartialEq, Eq)]
pub struct LoadsQuery {
    /// The port, 0 to 63; `None` for the lowest one that has the Alloc-ID in these frames.
    pub port: Option<PortNo>,
    /// The Alloc-ID, 1024 to 16383.
    pub alloc_id: AllocId,
    /// The first frame, of 125 µs.
    pub from: Option<u64>,
    /// The last frame, of 125 µs.
    pub to: Option<u64>,
}

/// Which map `olt why` explains, and `olt picture` draws.
#[derive(Clone, Copy, Debug, PartialEq, Eq)]
pub struct WhyQuery {
    /// The port, 0 to 63; `None` for the lowest one that has such a map.
    pub port: Option<PortNo>,
    /// The frame of the map, of 125 µs; `None` for the last map of the port, with the Alloc-ID if one has it.
    pub frame: Option<FrameNo>,
    /// The Alloc-ID, 1024 to 16383; `None` for each Alloc-ID of the map.
    pub alloc: Option<AllocId>,
}

/// The form of an answer.
#[derive(Clone, Copy, Debug, PartialEq, Eq)]
pub enum Format {
    /// Lines of words and numbers.
    Text,
    /// A JSON object on each line.
    Json,
}

/// Whether the recording has what was asked for.
#[derive(Clone, Copy, Debug, PartialEq, Eq)]
pub enum Answer {
    /// It has, and the answer is written.
    Shown,
    /// It has not.
    NotFound(Missing),
}

/// What a recording does not have.
#[derive(Clone, Copy, Debug, PartialEq, Eq)]
pub enum Missing {
    /// No chapter.
    Chapters,
    /// No chapter of the port. `first` and `last` are the least and the greatest port that has one.
    Port {
        port: PortNo,
        first: PortNo,
        last: PortNo,
    },
    /// No map of the frame at the port. `first` and `last` are the least and the greatest frame of a map of the port.
    Frame {
        port: PortNo,
        frame: FrameNo,
        first: FrameNo,
        last: FrameNo,
    },
    /// No map of the port, or of any port, in the frames that were asked for.
    Maps {
        port: Option<PortNo>,
    },
    /// No map with the Alloc-ID among those that were asked for.
    Alloc {
        alloc_id: AllocId,
    },
    /// The map of the frame is in the recording, but not the state that it was made from: the chapter is refused at an
    /// entry, counted from 0, up to that of the map.
    State {
        port: PortNo,
        frame: FrameNo,
        chapter: u64,
        entry: u64,
    },
}

// Writes that a port has no map among those asked for; `None` is any port.
fn write_no_maps<W: fmt::Write>(port: Option<PortNo>, f: &mut fmt::Formatter<W>) -> fmt::Result {
    match port {
        Some(port) => {
            let port = port.get();
            write!(
                f,
                "no map of port {port} in these frames is in the recording"
            )
        }
        None => write!(f, "no map of these frames is in the recording"),
    }
}

// Writes that a frame of a port has no map.
fn write_no_frame<W: fmt::Write>(
    port: PortNo,
    frame: FrameNo,
    first: FrameNo,
    last: FrameNo,
    f: &mut fmt::Formatter<W>,
) -> fmt::Result {
    let (port, frame, first, last) = (port.get(), frame.get(), first.get(), last.get());
    write!(
        f,
        "frame {frame} of port {port} is not in the recording (frames {first} to {last})"
    )
}

impl fmt::Display for Missing {
    fn fmt<W: fmt::Write>(&self, f: &mut fmt::Formatter<W>) -> fmt::Result {
        match *self {
            Missing::Chapters => write!(f, "the recording has no chapter"),
            Missing::Port { port, first, last } => {
                let (port, first, last) = (port.get(), first.get(), last.get());
                write!(
                    f,
                    "port {port} is not in the recording (ports {first} to {last})"
                )
            }
            Missing::Frame {
                port,
                frame,
                first,
                last,
            } => write_no_frame(port, frame, first, last, f),
            Missing::Maps { port } => write_no_maps(port, f),
            Missing::Alloc { alloc_id } => {
                let alloc_id = alloc_id.get();
                write!(
                    f,
                    "Alloc-ID {alloc_id} is in none of these maps of the recording"
                )
            }
            Missing::State {
                port,
                frame,
                chapter,
                entry,
            } => {
                let (port, frame) = (port.get(), frame.get());
                write!(
                    f,
                    "frame {frame} of port {port} has no known state: chapter {chapter} is refused at entry {entry}"
                )
            }
        }
    }
}

impl Error for Missing {}
