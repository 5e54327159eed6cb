// Certificates as bytes and as texts.
ghost use Rattle.std.specs.Prelude.{◌<◌};

use pon_cert::{CertReadFault, ClassCert, Level, MAX_ITEMS, MapCert, Sat};
use pon_units::{AllocId, Frac};
use std::alloc::Global;

// A certificate at level 90/3, with the first of three items saturated, and of no best-effort item, followed by 2 bytes.
const FIRST_OF_THREE: [u8; 43] = [
    0x01, 0, 0, 0, 0, 0, 0, 0, 0x5a, 0, 0, 0, 0, 0, 0, 0, 0x03, 0, 0x03, 0x01, 0, 0, 0, 0, 0, 0, 0,
    0, 0, 0, 0, 0, 0, 0, 0, 0, 0, 0, 0, 0, 0, 0x02, 0xff,
];

// Size of the certificate without the bytes after it.
const SIZE: usize = 41;

fn at(num: u64, den: u64) -> Level
    requires { 0 < den }
{
    Level::At(Frac::new(num, den))
}

fn class(alloc: Global, level: Level, flags: &[bool]) -> Option<ClassCert> {
    let saturated = Sat::new(Vec::from_slice(alloc, flags).ok()?);
    Some(ClassCert { level, saturated })
}

// A class of a certificate: its level, and the truth value of each item.
#[derive(Clone, Copy)]
struct Part<'a> {
    level: Level,
    flags: &'a [bool],
}

fn class_at(level: Level, flags: &[bool]) -> Part<'_> {
    Part { level, flags }
}

// A class without items.
fn no_items() -> Part<'static> {
    class_at(Level::All, &[])
}

// Makes the certificate of two classes; `None` if memory is refused.
fn cert_of(alloc: Global, na: &Part<'_>, be: &Part<'_>) -> Option<MapCert> {
    let na = class(alloc, na.level, na.flags)?;
    let be = class(alloc, be.level, be.flags)?;
    Some(MapCert { na, be })
}

fn first_of_three(alloc: Global) -> Option<MapCert> {
    let na = class_at(at(90, 3), &[true, false, false]);
    cert_of(alloc, &na, &no_items())
}

// Returns whether the certificate is written as these bytes.
fn is_written(alloc: Global, cert: &MapCert, bytes: &[u8]) -> Option<bool> {
    if cert.na.saturated.as_slice().len() > MAX_ITEMS {
        return None;
    }
    if cert.be.saturated.as_slice().len() > MAX_ITEMS {
        return None;
    }
    let written = cert.to_bytes(alloc).ok()?;
    Some(written.as_slice() == bytes)
}

fn writes_none(alloc: Global) -> Option<bool> {
    let cert = cert_of(alloc, &no_items(), &no_items())?;
    is_written(alloc, &cert, &[0; 38])
}

fn writes_first_of_three(alloc: Global) -> Option<bool> {
    let cert = first_of_three(alloc)?;
    is_written(alloc, &cert, &FIRST_OF_THREE[..SIZE])
}

#[test]
fn certificates_as_bytes(rt: HostRuntime) {
    assert!(rt; writes_none(rt.alloc()) == Some(true));
    assert!(rt; writes_first_of_three(rt.alloc()) == Some(true));
}

fn is_same_class(class: &ClassCert, other: &ClassCert) -> bool {
    class.level == other.level && class.saturated.as_slice() == other.saturated.as_slice()
}

fn is_same(cert: &MapCert, other: &MapCert) -> bool {
    is_same_class(&cert.na, &other.na) && is_same_class(&cert.be, &other.be)
}

// Reads a certificate, and returns the number of bytes read if it and its copy are that of the first of three items.
fn used_of_first(alloc: Global, bytes: &[u8]) -> Option<usize> {
    let wanted = first_of_three(alloc)?;
    let (cert, used) = MapCert::from_bytes(alloc, bytes).ok()?;
    let copy = cert.try_copy(alloc).ok()?;
    if is_same(&cert, &wanted) && is_same(&copy, &wanted) {
        Some(used)
    } else {
        None
    }
}

#[test]
fn bytes_read_back(rt: HostRuntime) {
    assert!(rt; used_of_first(rt.alloc(), &FIRST_OF_THREE) == Some(SIZE));
}

fn fault(alloc: Global, bytes: &[u8]) -> Option<CertReadFault> {
    MapCert::from_bytes(alloc, bytes).err()
}

#[test]
fn each_beginning_is_short(rt: HostRuntime) {
    for size in 0..SIZE {
        let told = fault(rt.alloc(), &FIRST_OF_THREE[..size]);
        assert!(rt; told == Some(CertReadFault::Short), "{size}: {told:?}");
    }
    assert!(rt; fault(rt.alloc(), &FIRST_OF_THREE[..SIZE]).is_none());
}

// Returns the fault of the certificate of the first of three items with one byte changed.
fn fault_of_changed(alloc: Global, place: usize, byte: u8) -> Option<CertReadFault> {
    let mut bytes = FIRST_OF_THREE;
    if place < 43 {
        bytes[place] = byte;
    }
    let changed = bytes.as_slice().get(..SIZE)?;
    fault(alloc, changed)
}

#[test]
fn bytes_in_no_form(rt: HostRuntime) {
    let form = Some(CertReadFault::Form);
    for (name, place, byte, wanted) in [
        ("kind 2", 0, 2, form),
        ("numbers at all", 0, 0, form),
        ("no denominator", 16, 0, form),
        ("515 items", 17, 2, form),
        ("truth value 2", 20, 2, form),
        ("kind 2, best effort", 22, 2, form),
        ("two items", 18, 2, None),
    ] {
        let told = fault_of_changed(rt.alloc(), place, byte);
        assert!(rt; told == wanted, "{name}: {told:?}");
    }
}

#[test]
fn the_first_fault_is_told(rt: HostRuntime) {
    let mut level = [0; 17];
    level[0] = 1;
    let mut many = [0; 19];
    many[17] = 2;
    let mut most = many;
    most[18] = 1;
    let mut two = [0; 20];
    two[18] = 2;
    two[19] = 2;
    for (name, bytes, wanted) in [
        ("no end of the level", &level[..16], CertReadFault::Short),
        ("no denominator", &level, CertReadFault::Form),
        ("no end of the count", &many[..18], CertReadFault::Short),
        ("512 items", &many, CertReadFault::Short),
        ("513 items", &most, CertReadFault::Form),
        ("truth value 2", &two, CertReadFault::Form),
    ] {
        let told = fault(rt.alloc(), bytes);
        assert!(rt; told == Some(wanted), "{name}: {told:?}");
    }
}

// Returns whether a certificate with items of these names is printed as this text.
fn prints(
    alloc: Global,
    cert: &MapCert,
    na: &[AllocId],
    be: &[AllocId],
    text: &str,
) -> Option<bool> {
    if cert.na.saturated.as_slice().len() != na.len() {
        return None;
    }
    if cert.be.saturated.as_slice().len() != be.len() {
        return None;
    }
    if na.len() > MAX_ITEMS {
        return None;
    }
    if be.len() > MAX_ITEMS {
        return None;
    }
    let printed = cert.to_text(alloc, na, be).ok()?;
    Some(printed.as_str() == text)
}

fn three_names() -> Option<[AllocId; 3]> {
    Some([
        AllocId::new(1024)?,
        AllocId::new(1025)?,
        AllocId::new(16383)?,
    ])
}

// Makes a certificate whose items have the first of three names, and returns whether it is printed as this text.
fn is_printed(alloc: Global, na: &Part<'_>, be: &Part<'_>, text: &str) -> Option<bool> {
    let names = three_names()?;
    let cert = cert_of(alloc, na, be)?;
    let na_names = names.get(..na.flags.len())?;
    let be_names = names.get(..be.flags.len())?;
    prints(alloc, &cert, na_names, be_names, text)
}

#[test]
fn certificates_as_texts(rt: HostRuntime) {
    let all = class_at(Level::All, &[true]);
    let none = class_at(at(2_478_592, 3_732_480), &[false]);
    let three = class_at(at(90, 3), &[true, false, true]);
    let two = class_at(at(0, 256), &[false, true]);
    for (na, be, text) in [
        (&no_items(), &all, "na all - be all 1024"),
        (&no_items(), &none, "na all - be 2478592/3732480 -"),
        (&three, &two, "na 90/3 1024,16383 be 0/256 1025"),
    ] {
        assert!(rt;
            is_printed(rt.alloc(), na, be, text) == Some(true),
            "{text}"
        );
    }
}
