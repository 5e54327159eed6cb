//! Why a port refuses a report, with its numbers, for a person.

use pon_descr::Refusal;
use pon_port::Port;
use pon_units::{FrameNo, OnuId};
use std::fmt::{self, Display, Formatter, Write};

/// Why a port refuses a report of an ONU for a frame.
#[derive(Clone, Copy)]
pub(crate) enum RefusedReport {
    /// The frame has no map yet.
    NotMade {
        frame: u64,
        next: u64,
    },
    /// The frame is before the first one whose map waits for reports; `None` if no map does.
    TooOld {
        frame: u64,
        first: Option<u64>,
    },
    /// The ONU has no burst in the map of the frame.
    NotPolled {
        frame: u64,
        onu: u16,
    },
    /// The report has another number of occupancies than the ONU has Alloc-IDs in the map.
    Count {
        frame: u64,
        onu: u16,
        wanted: usize,
        found: usize,
    },
    /// The ONU has reported for the frame already.
    Reported {
        frame: u64,
        onu: u16,
    },
}

impl Display for RefusedReport {
    fn fmt<W: Write>(&self, f: &mut Formatter<W>) -> fmt::Result {
        match *self {
            RefusedReport::NotMade { frame, next } => {
                write!(f, "frame {frame} is not made yet, the next is {next}")
            }
            RefusedReport::TooOld {
                frame,
                first: Some(first),
            } => write!(f, "frame {frame} is too old, the first is {first}"),
            RefusedReport::TooOld { frame, first: None } => {
                write!(f, "frame {frame} is too old, no map waits for a report")
            }
            RefusedReport::NotPolled { frame, onu } => {
                write!(f, "ONU {onu} has no burst in the map of frame {frame}")
            }
            RefusedReport::Count {
                frame,
                onu,
                wanted,
                found,
            } => write!(
                f,
                "{found} occupancies given, {wanted} expected of ONU {onu} in the map of frame {frame}"
            ),
            RefusedReport::Reported { frame, onu } => {
                write!(f, "ONU {onu} has reported for frame {frame} already")
            }
        }
    }
}

// Returns why a report for a frame is stale at a port.
fn of_frame(port: &Port, frame: u64) -> RefusedReport {
    let next = port.state().next_frame().get();
    if frame >= next {
        return RefusedReport::NotMade { frame, next };
    }
    let maps = port.state().loads().window().maps();
    let first = maps.first().map(|map| map.frame().get());
    RefusedReport::TooOld { frame, first }
}

// Returns the number of Alloc-IDs of an ONU in a map of the window.
fn structures_of(port: &Port, frame: FrameNo, onu: OnuId) -> Option<usize> {
    let window = port.state().loads().window();
    let map = window.maps().get(window.place_of(frame)?)?;
    Some(map.grants().iter().filter(|grant| grant.onu == onu).count())
}

/// Returns why a port refuses the report of an ONU for a frame, with this number of occupancies. `None` if the refusal says
/// all.
pub(crate) fn of_report(
    refusal: Refusal,
    port: &Port,
    frame: FrameNo,
    onu: OnuId,
    found: usize,
) -> Option<RefusedReport> {
    let (at, by) = (frame.get(), onu.get());
    match refusal {
        Refusal::StaleFrame => Some(of_frame(port, at)),
        Refusal::NotPolled => Some(RefusedReport::NotPolled { frame: at, onu: by }),
        Refusal::ReportCount => Some(RefusedReport::Count {
            frame: at,
            onu: by,
            wanted: structures_of(port, frame, onu)?,
            found,
        }),
        Refusal::AlreadyReported => Some(RefusedReport::Reported { frame: at, onu: by }),
        _ => None,
    }
}
