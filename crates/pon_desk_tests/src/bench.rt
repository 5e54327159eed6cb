//! Numbers, events, and the seats and the end of a desk.

use pon_admit::{Event, Row};
use pon_dbru::Occupancies;
use pon_descr::{Cause, Class, Descriptor};
use pon_desk::{Closed, Desk, Seat};
use pon_port::PortCfg;
use pon_units::{AllocId, BufOcc, FrameNo, Gap, OnuId, PortNo, Profile};
use std::process::Abort;
use std::sync::ledger::Ledger;

/// The ONU-ID of the unit.
pub(crate) const ONU: u16 = 5;

pub(crate) fn number(rt: &impl Abort, port: u8) -> PortNo {
    PortNo::new(port).expect(rt, "a port")
}

pub(crate) fn id(rt: &impl Abort) -> AllocId {
    AllocId::new(1024).expect(rt, "an Alloc-ID")
}

pub(crate) fn cause(rt: &impl Abort, number: u8) -> Cause {
    Cause::new(number).expect(rt, "a cause")
}

fn onu(rt: &impl Abort) -> OnuId {
    OnuId::new(ONU).expect(rt, "an ONU-ID")
}

/// Returns the configuration and the first frame of a port with profile 0.
pub(crate) fn cfg(rt: &impl Abort, gap: u16, first: u64) -> (PortCfg, FrameNo) {
    let gap = Gap::new(gap).expect(rt, "a gap");
    let profile = Profile::new(0).expect(rt, "a profile");
    (PortCfg { gap, profile }, FrameNo::new(first))
}

/// Makes an admission of Alloc-ID 1024.
fn admission_of(rt: &impl Abort, descriptor: Descriptor) -> Event {
    Event::Admit(Row::new(onu(rt), id(rt), descriptor))
}

/// Makes an admission of Alloc-ID 1024, with a fixed rate of 10 words a frame only.
pub(crate) fn admission(rt: &impl Abort) -> Event {
    let descriptor = Descriptor::new(2560, 0, 2560, Class::Plain);
    admission_of(rt, descriptor.expect(rt, "a descriptor"))
}

/// Makes a report of 100 words for the map of a frame.
fn report(rt: &impl Abort, frame: u64) -> Event {
    let mut occ = Occupancies::new();
    occ.push(BufOcc::new(100));
    Event::Report {
        frame: FrameNo::new(frame),
        onu: onu(rt),
        occ,
    }
}

/// Makes a descriptor with this fixed rate and a maximum rate of 100 words a frame, of the best-effort class.
fn descriptor(rt: &impl Abort, fixed: u64) -> Descriptor {
    Descriptor::new(fixed, 0, 25_600, Class::BestEffort).expect(rt, "a descriptor")
}

/// The number of events: all seven kinds, each accepted after those before it, if the report is for the port's first frame.
pub(crate) const EVENTS: u8 = 8;

/// Makes the k-th event.
pub(crate) fn event(rt: &impl Abort, first: u64, k: u8) -> Event {
    match k {
        0 => admission_of(rt, descriptor(rt, 2560)),
        1 | 4 => Event::MakeMap,
        2 => report(rt, first),
        3 => Event::Change {
            alloc_id: id(rt),
            descriptor: descriptor(rt, 5120),
        },
        5 => Event::Fail {
            cause: cause(rt, 4),
        },
        6 => Event::Restore,
        _ => Event::Remove { alloc_id: id(rt) },
    }
}

/// Takes the last seat.
pub(crate) fn seat<L: Ledger, M: Ledger>(
    rt: &impl Abort,
    seats: &mut Vec<Seat<L, M>>,
) -> Seat<L, M> {
    seats.pop().expect(rt, "a seat")
}

/// Gives a seat back.
pub(crate) fn put<L: Ledger, M: Ledger>(
    rt: &impl Abort,
    seats: &mut Vec<Seat<L, M>>,
    seat: Seat<L, M>,
) {
    seats.push(seat).expect(rt, "memory");
}

/// Closes the desk with all its seats.
pub(crate) fn close<L: Ledger, M: Ledger>(
    rt: &impl Abort,
    desk: Desk<L, M>,
    seats: Vec<Seat<L, M>>,
) -> Closed {
    desk.close(seats).ok().expect(rt, "a closed desk")
}

/// Returns whether the ports took these numbers of entries.
pub(crate) fn each_took(closed: Closed, taken: &[u64]) -> bool {
    let ports = closed.into_ports();
    for (port, taken) in ports.iter().zip(taken) {
        if port.taken() != *taken {
            return false;
        }
    }
    ports.len() == taken.len()
}
