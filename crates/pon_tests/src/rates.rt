// Rates of the reference model, from the descriptors and loads of worked cases.
use pon_descr::{Class, Descriptor};
use pon_guar::{cap, guaranteed};
use pon_units::Kbps;
use std::process::Abort;

fn kbps(rt: &impl Abort, rate: u32) -> Kbps {
    Kbps::new(rate).expect(rt, "a rate")
}

// Returns a best-effort descriptor with these rates and a maximum of 25,600 kbit/s.
fn best_effort(rt: &impl Abort, fixed: u64, assured: u64) -> Descriptor {
    Descriptor::new(fixed, assured, 25_600, Class::BestEffort).expect(rt, "a descriptor")
}

fn assert_guaranteed(rt: &impl Abort, descriptor: &Descriptor, load: u32, wanted: u32) {
    let rate = guaranteed(descriptor, kbps(rt, load)).get();
    assert!(rt; rate == wanted, "{load}: {rate}");
}

fn assert_cap(rt: &impl Abort, descriptor: &Descriptor, load: u32, wanted: u32) {
    let rate = cap(descriptor, kbps(rt, load)).get();
    assert!(rt; rate == wanted, "{load}: {rate}");
}

#[test]
fn guarantees_what_the_load_asks_for(rt: HostRuntime) {
    let descriptor = best_effort(&rt, 2560, 5120);
    for (load, wanted) in [
        (0, 2560),
        (2559, 2560),
        (2561, 2561),
        (7679, 7679),
        (7680, 7680),
        (7681, 7680),
        (4_294_967_040, 7680),
    ] {
        assert_guaranteed(&rt, &descriptor, load, wanted);
    }
}

#[test]
fn caps_the_surplus_by_load_and_maximum(rt: HostRuntime) {
    let descriptor = best_effort(&rt, 2560, 5120);
    for (load, wanted) in [
        (0, 0),
        (2560, 0),
        (7680, 0),
        (7681, 1),
        (25_599, 17_919),
        (25_600, 17_920),
        (4_294_967_040, 17_920),
    ] {
        assert_cap(&rt, &descriptor, load, wanted);
    }
}

#[test]
fn a_fixed_rate_needs_no_load(rt: HostRuntime) {
    let fixed = best_effort(&rt, 2560, 0);
    let assured = best_effort(&rt, 0, 2560);
    assert_guaranteed(&rt, &fixed, 0, 2560);
    assert_guaranteed(&rt, &assured, 0, 0);
    for load in [0, 256, 2560] {
        assert_cap(&rt, &fixed, load, 0);
        assert_cap(&rt, &assured, load, 0);
    }
    assert_cap(&rt, &fixed, 25_600, 23_040);
}
