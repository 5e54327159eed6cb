// Certificates worked by hand, wrong ones with their first fault, and numbers near 2^64.
ghost use Rattle.std.specs.Prelude.{◌<◌, true};

use pon_cert::{ClassCert, Item, Level, MapCert, Sat, is_problem};
use pon_check::{CertFault, MapCertFault, check_class, check_map};
use pon_units::Frac;
use std::alloc::Global;

const LINE: u64 = 2_488_320;

fn item(weight: u64, cap: u64) -> Item {
    Item { weight, cap }
}

fn at(num: u64, den: u64) -> Level
    requires { 0 < den }
{
    Level::At(Frac::new(num, den))
}

fn class(alloc: Global, level: Level, flags: &[bool]) -> Option<ClassCert> {
    let saturated = Sat::new(Vec::from_slice(alloc, flags).ok()?);
    Some(ClassCert { level, saturated })
}

// Judges a certificate; `None` if there is no problem, or memory is refused.
fn judged(
    alloc: Global,
    items: &[Item],
    surplus: u64,
    level: Level,
    flags: &[bool],
) -> Option<Result<(), CertFault>> {
    if !is_problem(items, surplus) {
        return None;
    }
    let cert = class(alloc, level, flags)?;
    Some(check_class(items, surplus, &cert))
}

#[test]
fn caps_that_are_met_exactly(rt: HostRuntime) {
    let items = [item(1, 10), item(1, 10), item(1, 20)];
    let both = [true, true, false];
    let unsaturated = |i| Err(CertFault::Unsaturated { i });
    let cases = [
        (at(10, 1), both, Ok(())),
        (at(20, 2), [true, false, false], unsaturated(1)),
        (at(30, 3), [false; 3], unsaturated(0)),
        (at(11, 1), both, Err(CertFault::Overspent)),
        (at(9, 1), both, Err(CertFault::Saturated { i: 0 })),
        (at(10, 2), both, Err(CertFault::Denominator)),
        (Level::All, both, unsaturated(2)),
        (Level::All, [true; 3], Err(CertFault::Overspent)),
    ];
    for (level, flags, wanted) in cases {
        let told = judged(rt.alloc(), &items, 30, level, &flags);
        assert!(rt; told == Some(wanted), "{level:?}, {flags:?}: {told:?}");
    }
}

// 300/7 and 400/7 are the rates. Rounded down to 42 and 57, they leave 1, and are not a level times the weights.
#[test]
fn no_whole_numbers(rt: HostRuntime) {
    let items = [item(3, 1000), item(4, 1000)];
    let cases = [
        (at(100, 7), Ok(())),
        (at(42, 3), Err(CertFault::Denominator)),
        (at(57, 4), Err(CertFault::Denominator)),
        (at(14, 1), Err(CertFault::Denominator)),
        (at(200, 14), Err(CertFault::Denominator)),
        (at(98, 7), Err(CertFault::NotExhausted)),
        (at(99, 7), Err(CertFault::NotExhausted)),
        (at(101, 7), Err(CertFault::Overspent)),
    ];
    for (level, wanted) in cases {
        let told = judged(rt.alloc(), &items, 100, level, &[false, false]);
        assert!(rt; told == Some(wanted), "{level:?}: {told:?}");
    }
}

#[test]
fn all_of_the_surplus(rt: HostRuntime) {
    let three = [item(1, 10), item(1, 100), item(2, 100)];
    let two = [item(1, 100), item(2, 100)];
    let small = [item(1, 0), item(1, 5)];
    let unsaturated = Err(CertFault::Unsaturated { i: 0 });
    for (items, surplus, level, flags, wanted) in [
        (
            three.as_slice(),
            100,
            at(90, 3),
            [true, false, false].as_slice(),
            Ok(()),
        ),
        (
            &two,
            100,
            at(90, 3),
            &[false, false],
            Err(CertFault::NotExhausted),
        ),
        (&small, 0, at(0, 1), &[true, false], Ok(())),
        (&small, 0, at(0, 2), &[false, false], unsaturated),
    ] {
        let told = judged(rt.alloc(), items, surplus, level, flags);
        assert!(rt; told == Some(wanted), "{level:?}, {flags:?}: {told:?}");
    }
}

#[test]
fn surplus_above_all_caps(rt: HostRuntime) {
    for surplus in [0, 1, LINE] {
        assert!(rt;
            judged(rt.alloc(), &[], surplus, Level::All, &[]) == Some(Ok(())),
            "{surplus}"
        );
    }
    let items = [item(1, 10), item(2, 20)];
    for (surplus, wanted) in [
        (30, Ok(())),
        (31, Ok(())),
        (LINE, Ok(())),
        (29, Err(CertFault::Overspent)),
    ] {
        let told = judged(rt.alloc(), &items, surplus, Level::All, &[true, true]);
        assert!(rt; told == Some(wanted), "{surplus}: {told:?}");
    }
}

#[test]
fn as_many_truth_values_as_items(rt: HostRuntime) {
    let items = [item(1, 10), item(2, 20)];
    let flags = [true, true, true];
    for count in [0, 1, 3] {
        let told = judged(rt.alloc(), &items, 30, Level::All, &flags[..count]);
        assert!(rt; told == Some(Err(CertFault::Length)), "{count}: {told:?}");
    }
}

#[test]
fn greatest_problem(rt: HostRuntime) {
    let items = [item(LINE, LINE); 512];
    let wanted = [
        (at(LINE, 512 * LINE), Ok(())),
        (at(LINE - 1, 512 * LINE), Err(CertFault::NotExhausted)),
        (at(LINE + 1, 512 * LINE), Err(CertFault::Overspent)),
    ];
    for (level, wanted) in wanted {
        let told = judged(rt.alloc(), &items, LINE, level, &[false; 512]);
        assert!(rt; told == Some(wanted), "{level:?}: {told:?}");
    }
}

#[test]
fn numbers_near_2_64(rt: HostRuntime) {
    let items = [item(1, 10), item(1, 10), item(1, 20)];
    let cases = [
        (at(u64::MAX, u64::MAX), Err(CertFault::Denominator)),
        (at(10, u64::MAX), Err(CertFault::Denominator)),
        (at(u64::MAX, 1), Err(CertFault::Unsaturated { i: 2 })),
    ];
    for (level, wanted) in cases {
        let told = judged(rt.alloc(), &items, 30, level, &[true, true, false]);
        assert!(rt; told == Some(wanted), "{level:?}: {told:?}");
    }
}

// Twice the numerator is 2^64 and 2^64 + 4: modulo 2^64 the sums are those of the surplus, 0 and 2.
#[test]
fn products_do_not_wrap(rt: HostRuntime) {
    let half = 9_223_372_036_854_775_808;
    let unsaturated = Err(CertFault::Unsaturated { i: 0 });
    for surplus in [0, 2] {
        for (num, wanted) in [(half + surplus, unsaturated), (surplus, Ok(()))] {
            let told = judged(rt.alloc(), &[item(2, 5)], surplus, at(num, 2), &[false]);
            assert!(rt; told == Some(wanted), "{num}: {told:?}");
        }
    }
}

// Judges a certificate of both classes, each a level and flags; the classes have these items and share 30 kbit/s. `None` if
// there is no problem, or memory is refused.
fn map_judged(
    alloc: Global,
    na: &[Item],
    be: &[Item],
    na_cert: (Level, &[bool]),
    be_cert: (Level, &[bool]),
) -> Option<Result<(), MapCertFault>> {
    if !is_problem(na, 30) {
        return None;
    }
    if !is_problem(be, 30) {
        return None;
    }
    let cert = MapCert {
        na: class(alloc, na_cert.0, na_cert.1)?,
        be: class(alloc, be_cert.0, be_cert.1)?,
    };
    Some(check_map(na, be, 30, &cert))
}

// A level that is a fraction leaves nothing to best effort.
#[test]
fn nothing_left_to_best_effort(rt: HostRuntime) {
    let na = [item(1, 10), item(1, 10), item(1, 20)];
    let be = [item(2, 50)];
    let overspent = CertFault::Overspent;
    let cases = [
        (at(10, 1), at(0, 2), Ok(())),
        (
            at(10, 1),
            at(30, 2),
            Err(MapCertFault::BestEffort(overspent)),
        ),
        (
            at(11, 1),
            at(30, 2),
            Err(MapCertFault::NonAssured(overspent)),
        ),
        (
            at(11, 1),
            at(0, 2),
            Err(MapCertFault::NonAssured(overspent)),
        ),
    ];
    for (na_level, be_level, wanted) in cases {
        let met = [true, true, false];
        let (na_cert, be_cert) = ((na_level, met.as_slice()), (be_level, [false].as_slice()));
        let told = map_judged(rt.alloc(), &na, &be, na_cert, be_cert);
        assert!(rt;
            told == Some(wanted),
            "{na_level:?}, {be_level:?}: {told:?}"
        );
    }
}

// If all non-assured items get their caps, best effort has the surplus less these caps.
#[test]
fn surplus_less_the_caps_to_best_effort(rt: HostRuntime) {
    let be = [item(2, 25)];
    let overspent = MapCertFault::BestEffort(CertFault::Overspent);
    let length = MapCertFault::BestEffort(CertFault::Length);
    let cases = [
        (at(20, 2), [false].as_slice(), Ok(())),
        (Level::All, [true].as_slice(), Err(overspent)),
        (Level::All, [].as_slice(), Err(length)),
    ];
    let na = [item(1, 10)];
    for (level, flags, wanted) in cases {
        let na_cert = (Level::All, [true].as_slice());
        let told = map_judged(rt.alloc(), &na, &be, na_cert, (level, flags));
        assert!(rt; told == Some(wanted), "{level:?}, {flags:?}: {told:?}");
    }
}

fn prints(alloc: Global, fault: &CertFault, wanted: &str) -> bool {
    match format!(in alloc; "{fault}") {
        Ok(text) => text.as_str() == wanted,
        Err(_) => false,
    }
}

#[test]
fn texts_of_faults(rt: HostRuntime) {
    let texts = [
        (CertFault::Length, "Length"),
        (CertFault::Denominator, "Denominator"),
        (CertFault::Saturated { i: 3 }, "Saturated 3"),
        (CertFault::Unsaturated { i: 511 }, "Unsaturated 511"),
        (CertFault::NotExhausted, "NotExhausted"),
        (CertFault::Overspent, "Overspent"),
    ];
    for (fault, wanted) in texts {
        assert!(rt; prints(rt.alloc(), &fault, wanted), "{wanted}");
    }
}
