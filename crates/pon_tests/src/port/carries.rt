//! Words beside the sums of rates, over random histories.

use super::full::next_rate;
use super::*;
use crate::acts::{cause, id, onu};
use pon_admit::{Event, Row};
use pon_cert::{Item, MapCert};
use pon_dbru::Occupancies;
use pon_descr::{Class, Descriptor};
use pon_guar::{cap, guaranteed};
use pon_units::BufOcc;

const ALLOC_IDS: u16 = 8;

const FIRST: u16 = 1024;

// The whole kbit/s and the words of an Alloc-ID since its last admission.
#[derive(Clone, Copy)]
struct Sums {
    rates: u64,
    words: u64,
}

const NOTHING: Sums = Sums { rates: 0, words: 0 };

// A number of a fixed sequence, below an end.
fn next_number(seed: &mut u64, end: u64) -> u64 {
    *seed = seed
        .wrapping_mul(6_364_136_223_846_793_005)
        .wrapping_add(1_442_695_040_888_963_407);
    (*seed >> 33) % end.max(1)
}

// A descriptor with rates that are mostly no multiples of a word's.
fn descriptor(rt: &impl Abort, seed: &mut u64) -> Descriptor {
    let fixed = next_number(seed, 400);
    let assured = next_number(seed, 1_000_000).wrapping_add(1);
    let promised = fixed.wrapping_add(assured);
    let more = next_number(seed, 1_000_000).wrapping_add(1);
    let class = match next_number(seed, 3) {
        0 => Class::Plain,
        1 => Class::NonAssured,
        _ => Class::BestEffort,
    };
    Descriptor::new(fixed, assured, promised.wrapping_add(more), class).expect(rt, "a descriptor")
}

// What the next map owes to an Alloc-ID, but for its share of the surplus.
#[derive(Clone, Copy)]
struct Owed {
    index: u16,
    class: Class,
    item: Item,
    guaranteed: u64,
}

fn owed_to(port: &Port, row: &Row) -> Owed {
    let load = port.state().loads().load_of(row.alloc_id);
    let promised = u64::from(row.descriptor.promised().get());
    let class = row.descriptor.class();
    let weight = match class {
        Class::BestEffort => u64::from(row.descriptor.max().get()).wrapping_sub(promised),
        _ => promised,
    };
    Owed {
        index: row.alloc_id.get().wrapping_sub(FIRST),
        class,
        item: Item {
            weight,
            cap: u64::from(cap(&row.descriptor, load).get()),
        },
        guaranteed: u64::from(guaranteed(&row.descriptor, load).get()),
    }
}

// Returns what the next map owes to each admitted Alloc-ID, in map order.
fn owed_to_all(rt: &impl Abort, alloc: Global, port: &Port) -> Vec<Owed> {
    let rows = port.state().roster().rows().iter();
    rows.map(|row| owed_to(port, row))
        .collect(alloc)
        .expect(rt, "memory")
}

// Returns the whole kbit/s of each Alloc-ID under the certificate of a map, in map order.
fn rates(rt: &impl Abort, alloc: Global, owed: &[Owed], cert: &MapCert) -> Vec<u64> {
    let mut na = cert.na.saturated.as_slice().iter();
    let mut be = cert.be.saturated.as_slice().iter();
    let mut rates = Vec::new(alloc);
    for owed in owed {
        let surplus = match owed.class {
            Class::Plain => 0,
            Class::NonAssured => next_rate(rt, &owed.item, &cert.na.level, &mut na),
            Class::BestEffort => next_rate(rt, &owed.item, &cert.be.level, &mut be),
        };
        let rate = owed.guaranteed.wrapping_add(surplus);
        rates.push(rate).expect(rt, "memory");
    }
    rates
}

// Adds the rate and the words of a map to the sums of an Alloc-ID, and checks the one by the other.
fn add(rt: &impl Abort, port: &Port, sums: &mut [Sums], index: u16, rate: u64, words: u64) {
    let sum = sums.get_mut(usize::from(index)).expect(rt, "sums");
    sum.rates = sum.rates.wrapping_add(rate);
    sum.words = sum.words.wrapping_add(words);
    let alloc_id = id(rt, FIRST.wrapping_add(index));
    let left = port.state().carry(alloc_id).map(u64::from);
    assert!(rt;
        sum.words == sum.rates / 256 && left == Some(sum.rates % 256),
        "{index}"
    );
}

// Makes a map, and checks the words of each Alloc-ID.
fn map(rt: &impl Abort, alloc: Global, port: &mut Port, sums: &mut [Sums]) {
    let owed = owed_to_all(rt, alloc, port);
    let made = made_map(rt, port);
    let rates = rates(rt, alloc, &owed, &made.cert);
    for ((owed, rate), row) in owed.iter().zip(rates.iter()).zip(made.map.rows()) {
        let words = u64::from(row.grant()).wrapping_sub(1);
        add(rt, port, sums, owed.index, *rate, words);
    }
    assert!(rt; owed.len() == made.map.rows().len(), "a structure each");
}

// Reports what waits at the Alloc-IDs of an ONU, for the last map.
fn report(rt: &impl Abort, port: &mut Port, unit: u16, seed: &mut u64) {
    let owner = onu(rt, unit);
    let rows = port.state().roster().rows().iter();
    let mut occ = Occupancies::new();
    for _row in rows.filter(|row| row.onu == owner) {
        assert!(rt; occ.as_slice().len() < 16);
        occ.push(BufOcc::new(next_number(seed, 6_000).min(6_000) as u32));
    }
    if !occ.as_slice().is_empty() {
        let frame = FrameNo::new(port.state().next_frame().get().wrapping_sub(1));
        let event = Event::Report {
            frame,
            onu: owner,
            occ,
        };
        assert!(rt; port.take(event) == Ok(Reply::Taken), "reported");
    }
}

fn fail(rt: &impl Abort, port: &mut Port) {
    let cause = cause(rt, 1);
    assert!(rt;
        port.take(Event::Fail { cause }) == Ok(Reply::Taken),
        "failed"
    );
    assert!(rt; port.take(Event::Restore) == Ok(Reply::Taken), "restored");
}

// Admits, changes or removes an Alloc-ID, if no check refuses, or fails and restores the port. An admission begins new sums.
fn disturb(rt: &impl Abort, port: &mut Port, sums: &mut [Sums], seed: &mut u64) {
    let k = next_number(seed, u64::from(ALLOC_IDS)).min(7) as u16;
    let alloc_id = id(rt, FIRST.wrapping_add(k));
    let descriptor = descriptor(rt, seed);
    match next_number(seed, 5) {
        0 | 1 => {
            let onu = onu(rt, k / 2);
            let event = Event::Admit(Row::new(onu, alloc_id, descriptor));
            if port.take(event).is_ok() {
                *sums.get_mut(usize::from(k)).expect(rt, "sums") = NOTHING;
            }
        }
        2 => {
            let _ = port.take(Event::Change {
                alloc_id,
                descriptor,
            });
        }
        3 => {
            let _ = port.take(Event::Remove { alloc_id });
        }
        _ => fail(rt, port),
    }
}

// Runs a random history: its seed, its maps, and how many maps are made between two other events.
fn run(rt: &impl Abort, alloc: Global, seed: u64, maps: u64, between: u64) {
    let mut port = open(rt, alloc, 16, 0);
    let mut seed = seed;
    let mut sums = [NOTHING; ALLOC_IDS as usize];
    for made in 0..maps {
        if made % between.max(1) == 0 {
            disturb(rt, &mut port, &mut sums, &mut seed);
        }
        map(rt, alloc, &mut port, &mut sums);
        for unit in 0..ALLOC_IDS / 2 {
            report(rt, &mut port, unit, &mut seed);
        }
    }
}

// Seeds, maps, and maps between two other events: short histories with many events, and one of 10,000 maps.
static HISTORIES: [(u64, u64, u64); 6] = [
    (1, 500, 1),
    (2, 500, 2),
    (3, 500, 3),
    (4, 1_000, 7),
    (5, 1_000, 20),
    (6, 10_000, 50),
];

#[test]
fn grants_the_whole_parts_of_the_summed_rates(rt: HostRuntime) {
    for (seed, maps, between) in HISTORIES.iter() {
        run(&rt, rt.alloc(), *seed, *maps, *between);
    }
}
