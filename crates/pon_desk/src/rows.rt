//! The settlement of one port with two seats, worked by hand: an admission and a map of the first seat, a turn, a
//! report and a map of the second. It is in this crate since only here a field of a receipt can be changed.

use crate::closed::Closed;
use crate::receipt::{Receipt, take};
use crate::unsettled::Unsettled;
use pon_admit::{Event, Row};
use pon_dbru::Occupancies;
use pon_descr::{Class, Descriptor};
use pon_port::{Chapter, Entry, Port, PortCfg, Reply};
use pon_units::{AllocId, BufOcc, FrameNo, Gap, OnuId, PortNo, Profile};
use std::alloc::Global;
use std::process::Abort;

// A closed port, the chapter that it returned, and the receipts of its posts.
#[derive(Drop)]
struct Books {
    closed: Closed,
    chapters: Vec<Chapter>,
    receipts: Vec<Receipt>,
}

// Returns the configuration and the first frame of the port.
fn opened(rt: &impl Abort) -> (PortCfg, FrameNo) {
    let gap = Gap::new(16).expect(rt, "a gap");
    let profile = Profile::new(0).expect(rt, "a profile");
    (PortCfg { gap, profile }, FrameNo::new(0))
}

fn onu(rt: &impl Abort) -> OnuId {
    OnuId::new(5).expect(rt, "an ONU-ID")
}

// Makes an admission of Alloc-ID 1024 with a fixed rate of 10 words a frame.
fn admission(rt: &impl Abort) -> Event {
    let alloc_id = AllocId::new(1024).expect(rt, "an Alloc-ID");
    let descriptor = Descriptor::new(2560, 0, 2560, Class::Plain).expect(rt, "a descriptor");
    Event::Admit(Row::new(onu(rt), alloc_id, descriptor))
}

// Makes a report of this occupancy for the map of frame 0.
fn report(rt: &impl Abort, words: u32) -> Event {
    let mut occ = Occupancies::new();
    occ.push(BufOcc::new(words));
    Event::Report {
        frame: FrameNo::new(0),
        onu: onu(rt),
        occ,
    }
}

// Posts an event by a seat with a number of earlier posts, and adds the receipt.
fn post(
    rt: &impl Abort,
    port: &mut Port,
    receipts: &mut Vec<Receipt>,
    by: (usize, u64),
    event: Event,
) {
    let (seat, nth) = by;
    let placed = take(port, event).expect(rt, "an event that is taken");
    let receipt = Receipt {
        port: PortNo::at(0),
        placed,
        seat,
        nth,
    };
    receipts.push(receipt).expect(rt, "memory");
}

fn closed_of(rt: &impl Abort, alloc: Global, port: Port) -> Closed {
    let mut ports = Vec::new(alloc);
    ports.push(port).expect(rt, "memory");
    let mut of_ports = Vec::new(alloc);
    of_ports.push(opened(rt)).expect(rt, "memory");
    Closed {
        ports,
        opened: of_ports,
    }
}

fn closed_books(rt: &impl Abort, alloc: Global) -> Books {
    let (cfg, first) = opened(rt);
    let mut port = Port::open(alloc, cfg, first).expect(rt, "memory");
    let mut receipts = Vec::new(alloc);
    post(rt, &mut port, &mut receipts, (0, 0), admission(rt));
    post(rt, &mut port, &mut receipts, (0, 1), Event::MakeMap);
    let mut chapters = Vec::new(alloc);
    let chapter = port.turn().expect(rt, "a chapter");
    chapters.push(chapter).expect(rt, "memory");
    post(rt, &mut port, &mut receipts, (1, 0), report(rt, 100));
    post(rt, &mut port, &mut receipts, (1, 1), Event::MakeMap);
    let closed = closed_of(rt, alloc, port);
    Books {
        closed,
        chapters,
        receipts,
    }
}

// A change of the chapter or of the receipts.
#[derive(Clone, Copy)]
enum Change {
    Nothing,
    WithoutLastReceipt,
    // The occupancy of the report is 101.
    Occupancy,
    // The receipt of this index and the next one are exchanged.
    Exchanged(usize),
    // The numbers of earlier posts of the first two receipts are exchanged.
    ExchangedNth,
    WithoutChapter,
}

static ROWS: [(&str, Change, Option<Unsettled>); 7] = [
    ("as posted", Change::Nothing, None),
    (
        "without the last receipt",
        Change::WithoutLastReceipt,
        Some(Unsettled::Count),
    ),
    (
        "the occupancy 101",
        Change::Occupancy,
        Some(Unsettled::Receipt { k: 2 }),
    ),
    (
        "the first two exchanged",
        Change::Exchanged(0),
        Some(Unsettled::Receipt { k: 0 }),
    ),
    (
        "the numbers of the first two exchanged",
        Change::ExchangedNth,
        Some(Unsettled::Receipt { k: 0 }),
    ),
    (
        "the second and third exchanged",
        Change::Exchanged(1),
        Some(Unsettled::Receipt { k: 1 }),
    ),
    (
        "without the chapter",
        Change::WithoutChapter,
        Some(Unsettled::Chapter { k: 0 }),
    ),
];

fn receipt_at<'a>(rt: &impl Abort, receipts: &'a mut Vec<Receipt>, k: usize) -> &'a mut Receipt {
    receipts.get_mut(k).expect(rt, "a receipt")
}

fn exchange(rt: &impl Abort, receipts: &mut Vec<Receipt>, k: usize) {
    let next = k.wrapping_add(1);
    assert!(rt; k < receipts.len() && next < receipts.len());
    receipts.swap(k, next);
}

fn make_change(rt: &impl Abort, books: &mut Books, change: Change) {
    let receipts = &mut books.receipts;
    match change {
        Change::Nothing => {}
        Change::WithoutLastReceipt => receipts.truncate(3),
        Change::Occupancy => {
            let entry = Entry::new(report(rt, 101), Reply::Taken);
            receipt_at(rt, receipts, 2).placed.entry = entry;
        }
        Change::Exchanged(k) => exchange(rt, receipts, k),
        Change::ExchangedNth => {
            receipt_at(rt, receipts, 0).nth = 1;
            receipt_at(rt, receipts, 1).nth = 0;
        }
        Change::WithoutChapter => books.chapters.clear(),
    }
}

// Returns why the port does not settle after a change.
fn fault_after(rt: &impl Abort, alloc: Global, change: Change) -> Option<Unsettled> {
    let mut books = closed_books(rt, alloc);
    make_change(rt, &mut books, change);
    let (chapters, receipts) = (books.chapters.as_slice(), books.receipts.as_slice());
    books.closed.settle(PortNo::at(0), chapters, receipts).err()
}

#[test]
fn each_change_is_found(rt: HostRuntime) {
    for (name, change, wanted) in ROWS.iter() {
        let fault = fault_after(&rt, rt.alloc(), *change);
        assert!(rt; fault == *wanted, "{name}");
    }
}
