//! The classes that share surplus in the last map of a port.

use super::*;
use crate::acts::{id, onu};
use pon_admit::{Event, Row};
use pon_cert::Level;
use pon_descr::{Class, Descriptor};
use pon_units::AllocId;

// Admits an Alloc-ID of ONU 5 that shares surplus.
fn share(rt: &impl Abort, port: &mut Port, number: u16, assured: u64, max: u64, class: Class) {
    let descriptor = Descriptor::new(0, assured, max, class).expect(rt, "a descriptor");
    let event = Event::Admit(Row::new(onu(rt, 5), id(rt, number), descriptor));
    assert!(rt; port.take(event) == Ok(Reply::Taken), "taken");
}

fn first_of(ids: &[AllocId]) -> Option<u16> {
    Some(ids.first()?.get())
}

// Returns the frame of the last map, and the first Alloc-ID of each class. `None` if a class has none.
fn last_ids(port: &Port) -> Option<(u64, u16, u16)> {
    let (made, na, be) = port.last()?;
    Some((made.frame.get(), first_of(na)?, first_of(be)?))
}

// Makes a map, and returns whether the non-assured class has all it wants, and the best-effort class one flag.
fn maps_both_classes(rt: &impl Abort, port: &mut Port) -> bool {
    let made = made_map(rt, port);
    matches!(made.cert.na.level, Level::All) && made.cert.be.saturated.as_slice().len() == 1
}

#[test]
fn tells_the_classes_of_the_last_map(rt: HostRuntime) {
    let mut port = open(&rt, rt.alloc(), 16, 7);
    share(&rt, &mut port, 1024, 256_000, 1_280_000, Class::NonAssured);
    share(&rt, &mut port, 1025, 0, 256, Class::BestEffort);
    let before = port.last().is_none();
    let made = maps_both_classes(&rt, &mut port);
    take(&rt, &mut port, Act::Remove(1024));
    assert!(rt; before && made && last_ids(&port) == Some((7, 1024, 1025)));
}
