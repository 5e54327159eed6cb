//! A desk of two ports with a gap of 16 words, each with one Alloc-ID of 10 words a frame, and the bytes of their links.
ghost use Rattle.std.specs.Prelude.{◌≡◌};

use crate::bench::{ONU, admission, cfg, number};
use pon_dbru::Occupancies;
use pon_desk::{Desk, Seat};
use pon_link::{UpRecord, encode_up};
use pon_units::{BufOcc, FrameNo};
use pon_xgtc::BurstHead;
use std::alloc::Global;
use std::process::Abort;
use std::sync::Wait;
use std::sync::ledger::{Blank, Ledger};

/// The bytes of the map of each frame: one burst of 11 words.
const MAP: [u8; 12] = [
    0x00, 0x20, 0x13, 0xac, 0x10, 0x02, 0x00, 0x10, 0x00, 0x0b, 0x13, 0xcb,
];

/// The first byte of a record of a map.
const DOWN: u8 = 0x44;

fn admit<L: Ledger, M: Ledger, R: Wait + Abort>(
    rt: &R,
    desk: &Desk<L, M>,
    seat: &mut Seat<L, M>,
    port: u8,
) {
    let posted = desk.post(rt, seat, number(rt, port), admission(rt));
    assert!(rt; posted.is_ok(), "admitted");
}

/// Opens a desk of two ports and three seats, the first of which has admitted the Alloc-ID at both ports.
pub(crate) fn open<L: Ledger, M: Ledger, R: Wait + Abort>(
    rt: &R,
    alloc: Global,
    of_ports: Blank,
    of_seats: Blank,
) -> (Desk<L, M>, Vec<Seat<L, M>>)
    requires ports { (of_ports.name ≡ L.name) × (of_ports.parts ≡ L.parts) × (L.parts ≡ 2) }
    requires seats { (of_seats.name ≡ M.name) × (of_seats.parts ≡ M.parts) × (M.parts ≡ 3) }
{
    let ports = [cfg(rt, 16, 0), cfg(rt, 16, 0)];
    let opened = Desk::<L, M>::open(alloc, of_ports, of_seats, &ports, 3);
    let (desk, mut seats) = opened.ok().expect(rt, "a desk");
    let first = seats.get_mut(0).expect(rt, "a seat");
    admit(rt, &desk, first, 0);
    admit(rt, &desk, first, 1);
    (desk, seats)
}

/// Adds a burst of the unit with this ONU-ID in a frame. It reports 100 words. Returns `false` if memory is refused.
pub(crate) fn try_add_burst(rt: &impl Abort, bytes: &mut Vec<u8>, frame: u64, onu: u16) -> bool {
    let head = BurstHead::new(onu, 0);
    assert!(rt; head.is_some(), "a burst header");
    let mut occ = Occupancies::new();
    occ.push(BufOcc::new(100));
    let record = UpRecord {
        frame: FrameNo::new(frame),
        head,
        occ,
    };
    let burst = encode_up(&record);
    bytes.extend_from_slice(burst.as_slice()).is_ok()
}

/// Adds such a burst.
pub(crate) fn add_burst(rt: &impl Abort, bytes: &mut Vec<u8>, frame: u64, onu: u16) {
    let is_added = try_add_burst(rt, bytes, frame, onu);
    assert!(rt; is_added, "memory");
}

/// Returns the bursts of the unit in the first frames, concatenated.
pub(crate) fn bursts(rt: &impl Abort, alloc: Global, frames: u64) -> Vec<u8> {
    let mut bytes = Vec::new(alloc);
    for frame in 0..frames {
        add_burst(rt, &mut bytes, frame, ONU);
    }
    bytes
}

fn add(rt: &impl Abort, bytes: &mut Vec<u8>, more: &[u8]) {
    bytes.extend_from_slice(more).expect(rt, "memory");
}

/// Returns the records of the maps of the first frames, concatenated.
pub(crate) fn maps(rt: &impl Abort, alloc: Global, frames: u64) -> Vec<u8> {
    let mut bytes = Vec::new(alloc);
    for frame in 0..frames {
        add(rt, &mut bytes, &[DOWN]);
        add(rt, &mut bytes, &frame.to_be_bytes());
        add(rt, &mut bytes, &MAP);
    }
    bytes
}

/// Returns whether these are the records of the maps of the first frames.
pub(crate) fn are_maps(rt: &impl Abort, alloc: Global, bytes: &[u8], frames: u64) -> bool {
    bytes == maps(rt, alloc, frames).as_slice()
}
