// A full port: 512 Alloc-IDs of 32 ONUs in all three classes, whose ONUs report all their buffers after each map. The
// expected map is computed here from descriptors, reports and carries alone; the checker judges its certificate.

use super::*;
use crate::acts::{id, onu};
use pon_admit::{Event, Row};
use pon_cert::{Item, Level, MapCert, is_problem};
use pon_check::check_map;
use pon_dbru::Occupancies;
use pon_descr::{Class, Descriptor};
use pon_units::BufOcc;
use std::slice;

const LINE: u64 = 2_488_320;

const ALLOC_IDS: u16 = 512;

const ONUS: u16 = 32;

// The words of a frame, less gap, header and trailer of 32 ONUs and two words of each Alloc-ID, at 256 kbit/s a word.
const CAPACITY: u64 = 256 * (9720 - 32 * 18 - 2 * 512);

// An Alloc-ID with its descriptor, its reported words that are not granted yet, and what whole words left of its rates.
#[derive(Clone, Copy)]
struct Buffer {
    onu: u16,
    alloc_id: u16,
    class: Class,
    fixed: u64,
    assured: u64,
    max: u64,
    left: u64,
    carry: u64,
}

impl Buffer {
    fn load(&self) -> u64 {
        self.left.wrapping_mul(256)
    }

    fn promised(&self) -> u64 {
        self.fixed.wrapping_add(self.assured)
    }

    fn guaranteed(&self) -> u64 {
        self.promised().min(self.load().max(self.fixed))
    }

    fn item(&self) -> Item {
        let weight = match self.class {
            Class::BestEffort => self.max.wrapping_sub(self.promised()),
            _ => self.promised(),
        };
        let wanted = self.max.min(self.load().max(self.fixed));
        Item {
            weight,
            cap: wanted.wrapping_sub(self.guaranteed()),
        }
    }
}

fn buffer_of(onu: u16, alloc_id: u16) -> Buffer {
    let (class, fixed, assured, max) = match alloc_id % 3 {
        0 => (Class::Plain, 2560, 256, 5120),
        1 => (Class::NonAssured, 0, 2304, 8192),
        _ => (Class::BestEffort, 512, 1024, 131_072),
    };
    Buffer {
        onu,
        alloc_id,
        class,
        fixed,
        assured,
        max,
        left: 0,
        carry: 0,
    }
}

fn buffers(rt: &impl Abort, alloc: Global) -> Vec<Buffer> {
    let mut all = Vec::new(alloc);
    for k in 0..ALLOC_IDS {
        all.push(buffer_of(k / 16, 1024 + k)).expect(rt, "memory");
    }
    all
}

fn take_event(rt: &impl Abort, port: &mut Port, event: Event) {
    assert!(rt; port.take(event) == Ok(Reply::Taken), "taken");
}

fn admit(rt: &impl Abort, port: &mut Port, buffer: &Buffer) {
    let descriptor = Descriptor::new(buffer.fixed, buffer.assured, buffer.max, buffer.class);
    let event = Event::Admit(Row::new(
        onu(rt, buffer.onu),
        id(rt, buffer.alloc_id),
        descriptor.expect(rt, "a descriptor"),
    ));
    take_event(rt, port, event);
}

fn items(rt: &impl Abort, alloc: Global, buffers: &[Buffer], class: Class) -> Vec<Item> {
    let mut items = Vec::new(alloc);
    for buffer in buffers {
        if buffer.class == class {
            items.push(buffer.item()).expect(rt, "memory");
        }
    }
    items
}

// Checks with the checker that the certificate is that of both classes.
fn assert_certified(rt: &impl Abort, alloc: Global, buffers: &[Buffer], cert: &MapCert) {
    let na = items(rt, alloc, buffers, Class::NonAssured);
    let be = items(rt, alloc, buffers, Class::BestEffort);
    let surplus = surplus(buffers);
    assert!(rt; is_certified(na.as_slice(), be.as_slice(), surplus, cert));
}

fn surplus(buffers: &[Buffer]) -> u64 {
    let mut surplus = CAPACITY;
    for buffer in buffers {
        surplus = surplus.wrapping_sub(buffer.guaranteed());
    }
    surplus
}

fn is_certified(na: &[Item], be: &[Item], surplus: u64, cert: &MapCert) -> bool {
    is_problem(na, surplus) && is_problem(be, surplus) && check_map(na, be, surplus, cert).is_ok()
}

fn rate(item: &Item, level: &Level, saturated: bool) -> u64 {
    match level {
        Level::At(share) if !saturated => item.weight.wrapping_mul(share.num())
            / share.den().max(1),
        _ => item.cap,
    }
}

/// Returns the surplus of the next Alloc-ID of a class.
pub(super) fn next_rate(
    rt: &impl Abort,
    item: &Item,
    level: &Level,
    flags: &mut slice::Iter<'_, bool>,
) -> u64 {
    rate(item, level, *flags.next().expect(rt, "a flag"))
}

// Returns the payload words of each Alloc-ID, and keeps what they leave of its rate.
fn words(rt: &impl Abort, alloc: Global, buffers: &mut [Buffer], cert: &MapCert) -> Vec<u64> {
    let mut na = cert.na.saturated.as_slice().iter();
    let mut be = cert.be.saturated.as_slice().iter();
    let mut words = Vec::new(alloc);
    for buffer in buffers {
        let surplus = match buffer.class {
            Class::Plain => 0,
            Class::NonAssured => next_rate(rt, &buffer.item(), &cert.na.level, &mut na),
            Class::BestEffort => next_rate(rt, &buffer.item(), &cert.be.level, &mut be),
        };
        let rate = buffer.guaranteed().wrapping_add(surplus);
        let owed = buffer.carry.wrapping_add(rate);
        buffer.carry = owed % 256;
        words.push(owed / 256).expect(rt, "memory");
    }
    words
}

// Returns whether a structure is that of the Alloc-ID, with this start and these words of payload.
fn is_row(row: &Alloc, buffer: &Buffer, start: Option<u64>, words: u64) -> bool {
    row.start().map(u64::from) == start
        && row.id() == buffer.alloc_id
        && u64::from(row.grant()) == words.wrapping_add(1)
        && row.dbru()
        && !row.ploam()
        && row.profile() == 0
}

// Expects a structure for each Alloc-ID and a burst for each ONU: header, grants and trailer, after a gap of 16 words.
fn assert_rows(rt: &impl Abort, rows: &[Alloc], buffers: &[Buffer], words: &[u64]) {
    let mut at = 0u64;
    let mut before = None;
    for ((row, buffer), words) in rows.iter().zip(buffers.iter()).zip(words.iter()) {
        let is_first = before != Some(buffer.onu);
        if is_first {
            at = at.wrapping_add(16);
        }
        let start = if is_first { Some(at) } else { None };
        assert!(rt; is_row(row, buffer, start, *words), "{}", buffer.alloc_id);
        let header = if is_first { 1 } else { 0 };
        let trailer = if buffer.alloc_id % 16 == 15 { 1 } else { 0 };
        at = at
            .wrapping_add(header + trailer)
            .wrapping_add(u64::from(row.grant()));
        before = Some(buffer.onu);
    }
    assert!(rt; rows.len() == buffers.len() && at <= 9720);
}

// Returns the number of words that wait at an Alloc-ID, 0 to 1999.
fn waiting(alloc_id: u16, frame: u64) -> u64 {
    (u64::from(alloc_id)
        .wrapping_mul(2_654_435_761)
        .wrapping_add(frame.wrapping_mul(40_503))
        >> 7)
        % 2000
}

// Makes the report of an ONU for a frame: the words that wait at each of its Alloc-IDs.
fn report_of(rt: &impl Abort, frame: u64, unit: u16, buffers: &[Buffer]) -> Event {
    let mut occ = Occupancies::new();
    for buffer in buffers {
        if buffer.onu == unit {
            assert!(rt; occ.as_slice().len() < 16);
            occ.push(BufOcc::new(waiting(buffer.alloc_id, frame).min(1999) as u32));
        }
    }
    Event::Report {
        frame: FrameNo::new(frame),
        onu: onu(rt, unit),
        occ,
    }
}

// Reports for each ONU the words that wait at its Alloc-IDs, for the map of a frame that granted these words.
fn report(rt: &impl Abort, port: &mut Port, frame: u64, buffers: &mut [Buffer], words: &[u64]) {
    for (buffer, words) in buffers.iter_mut().zip(words.iter()) {
        buffer.left = waiting(buffer.alloc_id, frame).saturating_sub(*words);
    }
    for unit in 0..ONUS {
        take_event(rt, port, report_of(rt, frame, unit, buffers));
    }
}

// Makes the map of a frame, checks it, and reports what is left after it.
fn map_and_report(
    rt: &impl Abort,
    alloc: Global,
    port: &mut Port,
    frame: u64,
    buffers: &mut [Buffer],
) {
    let made = made_map(rt, port);
    assert_certified(rt, alloc, buffers, &made.cert);
    // From the first report on, best effort requests more than is left for it.
    let shares = matches!(made.cert.be.level, Level::At(_));
    assert!(rt;
        made.frame.get() == frame && shares == (frame > 0),
        "{frame}"
    );
    let words = words(rt, alloc, buffers, &made.cert);
    assert_rows(rt, made.map.rows(), buffers, words.as_slice());
    report(rt, port, frame, buffers, words.as_slice());
}

#[test]
fn maps_a_full_port_under_load(rt: HostRuntime) {
    let mut port = open(&rt, rt.alloc(), 16, 0);
    let mut buffers = buffers(&rt, rt.alloc());
    for buffer in &buffers {
        admit(&rt, &mut port, buffer);
    }
    for frame in 0..6 {
        map_and_report(&rt, rt.alloc(), &mut port, frame, buffers.as_mut_slice());
    }
    assert!(rt; port.history().len() == 512 + 6 * 33);
}
