//! Why a port refuses an event, with its numbers, for a person.

use crate::refused_report::{RefusedReport, of_report};
use crate::refused_row::{AskedRow, RefusedRow, of_row};
use pon_descr::Refusal;
use pon_plant::Plant;
use pon_port::{Event, Port};
use pon_units::PortNo;
use std::alloc::Global;
use std::fmt::{self, Display, Formatter, Write};

/// Why a port refuses an event.
#[derive(Clone, Copy)]
pub(crate) enum Refused {
    /// Its row cannot be admitted, changed or removed.
    Row(RefusedRow),
    /// Its report is not accepted.
    Report(RefusedReport),
    /// The port is down by this cause.
    Down { cause: u8 },
    /// The port is up.
    Up,
    /// No frame comes after the last one.
    LastFrame,
    /// The chapter is full.
    ChapterFull,
}

impl Display for Refused {
    fn fmt<W: Write>(&self, f: &mut Formatter<W>) -> fmt::Result {
        match *self {
            Refused::Row(row) => write!(f, "{row}"),
            Refused::Report(report) => write!(f, "{report}"),
            Refused::Down { cause } => {
                write!(f, "the port is down by cause {cause}: restore it first")
            }
            Refused::Up => f.write_str("the port is up"),
            Refused::LastFrame => f.write_str("no frame comes after the last one"),
            Refused::ChapterFull => {
                f.write_str("the chapter is full; --record or --forget goes on with the next one")
            }
        }
    }
}

// Returns why an event is refused for the state of the port.
fn of_state(refusal: Refusal) -> Option<Refused> {
    match refusal {
        Refusal::PortDown { cause } => Some(Refused::Down { cause: cause.get() }),
        Refusal::PortUp => Some(Refused::Up),
        Refusal::FrameLimit => Some(Refused::LastFrame),
        Refusal::ChapterFull => Some(Refused::ChapterFull),
        _ => None,
    }
}

// Returns the row that an event asks a port to admit or to change.
fn asked_row(event: &Event) -> Option<AskedRow> {
    match event {
        Event::Admit(row) => Some(AskedRow {
            alloc_id: row.alloc_id,
            onu: Some(row.onu),
            descriptor: row.descriptor,
        }),
        Event::Change {
            alloc_id,
            descriptor,
        } => Some(AskedRow {
            alloc_id: *alloc_id,
            onu: None,
            descriptor: *descriptor,
        }),
        _ => None,
    }
}

// Returns why a port refuses an event if that follows from the event.
fn of_event(alloc: Global, refusal: Refusal, port: &Port, event: &Event) -> Option<Refused> {
    match event {
        Event::Remove { alloc_id } if refusal == Refusal::NoSuchAlloc => {
            let alloc = alloc_id.get();
            Some(Refused::Row(RefusedRow::NotAdmitted { alloc }))
        }
        Event::Report { frame, onu, occ } => {
            let found = occ.as_slice().len();
            of_report(refusal, port, *frame, *onu, found).map(Refused::Report)
        }
        event => of_row(alloc, refusal, port, asked_row(event)?).map(Refused::Row),
    }
}

/// Returns why the port of a plant refuses an event. `None` if the refusal says all, or memory is refused.
pub(crate) fn refused_event(
    alloc: Global,
    refusal: Refusal,
    plant: &Plant,
    port: usize,
    event: &Event,
) -> Option<Refused> {
    let port = plant.port(PortNo::new(u8::try_from(port).ok()?)?)?;
    match of_state(refusal) {
        Some(refused) => Some(refused),
        None => of_event(alloc, refusal, port, event),
    }
}
