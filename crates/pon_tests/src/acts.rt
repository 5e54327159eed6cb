//! Events in plain numbers, so that tables of them are constants.

use pon_admit::{Event, Row};
use pon_dbru::Occupancies;
use pon_descr::{Cause, Class, Descriptor, Refusal};
use pon_units::{AllocId, BufOcc, FrameNo, Gap, OnuId, Profile};
use std::process::Abort;

/// An event of a port.
#[derive(Clone, Copy)]
pub(crate) enum Act {
    /// Admits an Alloc-ID (ONU-ID, Alloc-ID) with this fixed rate only.
    Admit(u16, u16, u64),
    /// Admits Alloc-ID 1024 of ONU 5 with a fixed rate of 10 words a frame, and up to 20 more while it has a load.
    AdmitLoaded,
    /// Changes the descriptor of an Alloc-ID to this fixed rate only.
    Change(u16, u64),
    Remove(u16),
    /// Reports for the map of a frame (frame, ONU-ID, occupancies); `None` is a garbled occupancy.
    Report(u64, u16, &'static [Option<u32>]),
    MakeMap,
    Fail(u8),
    Restore,
}

/// A refusal in plain numbers.
#[derive(Clone, Copy)]
pub(crate) enum Why {
    NoSuchAlloc,
    AllocTaken,
    TooManyAllocs,
    TooManyOnus,
    SeriesFull,
    Capacity,
    StaleFrame,
    NotPolled,
    ReportCount,
    AlreadyReported,
    /// The line failed by this cause.
    PortDown(u8),
    PortUp,
    FrameLimit,
    ChapterFull,
}

/// Makes the refusal.
pub(crate) fn refusal(rt: &impl Abort, why: Why) -> Refusal {
    match why {
        Why::NoSuchAlloc => Refusal::NoSuchAlloc,
        Why::AllocTaken => Refusal::AllocTaken,
        Why::TooManyAllocs => Refusal::TooManyAllocs,
        Why::TooManyOnus => Refusal::TooManyOnus,
        Why::SeriesFull => Refusal::SeriesFull,
        Why::Capacity => Refusal::Capacity,
        Why::StaleFrame => Refusal::StaleFrame,
        Why::NotPolled => Refusal::NotPolled,
        Why::ReportCount => Refusal::ReportCount,
        Why::AlreadyReported => Refusal::AlreadyReported,
        Why::PortDown(number) => Refusal::PortDown {
            cause: cause(rt, number),
        },
        Why::PortUp => Refusal::PortUp,
        Why::FrameLimit => Refusal::FrameLimit,
        Why::ChapterFull => Refusal::ChapterFull,
    }
}

pub(crate) fn gap(rt: &impl Abort, words: u16) -> Gap {
    Gap::new(words).expect(rt, "a gap")
}

pub(crate) fn profile(rt: &impl Abort) -> Profile {
    Profile::new(0).expect(rt, "a profile")
}

pub(crate) fn onu(rt: &impl Abort, number: u16) -> OnuId {
    OnuId::new(number).expect(rt, "an ONU-ID")
}

pub(crate) fn id(rt: &impl Abort, number: u16) -> AllocId {
    AllocId::new(number).expect(rt, "an Alloc-ID")
}

pub(crate) fn cause(rt: &impl Abort, number: u8) -> Cause {
    Cause::new(number).expect(rt, "a cause")
}

/// Makes a descriptor with only a fixed rate.
fn fixed(rt: &impl Abort, rate: u64) -> Descriptor {
    Descriptor::new(rate, 0, rate, Class::Plain).expect(rt, "a descriptor")
}

/// Makes the descriptor of `AdmitLoaded`.
fn loaded(rt: &impl Abort) -> Descriptor {
    Descriptor::new(2560, 5120, 7680, Class::Plain).expect(rt, "a descriptor")
}

fn admission(rt: &impl Abort, unit: u16, number: u16, descriptor: Descriptor) -> Event {
    Event::Admit(Row::new(onu(rt, unit), id(rt, number), descriptor))
}

fn occupancy(rt: &impl Abort, words: Option<u32>) -> Option<BufOcc> {
    match words {
        None => None,
        Some(words) => Some(BufOcc::new(words).expect(rt, "an occupancy")),
    }
}

fn report(rt: &impl Abort, frame: u64, unit: u16, words: &[Option<u32>]) -> Event {
    let mut occ = Occupancies::new();
    for words in words {
        assert!(rt; occ.as_slice().len() < 16);
        occ.push(occupancy(rt, *words));
    }
    Event::Report {
        frame: FrameNo::new(frame),
        onu: onu(rt, unit),
        occ,
    }
}

/// Makes the event.
pub(crate) fn event(rt: &impl Abort, act: Act) -> Event {
    match act {
        Act::Admit(unit, number, rate) => admission(rt, unit, number, fixed(rt, rate)),
        Act::AdmitLoaded => admission(rt, 5, 1024, loaded(rt)),
        Act::Change(number, rate) => Event::Change {
            alloc_id: id(rt, number),
            descriptor: fixed(rt, rate),
        },
        Act::Remove(number) => Event::Remove {
            alloc_id: id(rt, number),
        },
        Act::Report(frame, unit, words) => report(rt, frame, unit, words),
        Act::MakeMap => Event::MakeMap,
        Act::Fail(number) => Event::Fail {
            cause: cause(rt, number),
        },
        Act::Restore => Event::Restore,
    }
}
