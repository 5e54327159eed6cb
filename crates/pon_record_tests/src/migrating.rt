//! Version one recordings that are migrated.

use crate::reading::{ALL_FIELDS, Verdict, told, twice, verdict_of};
use crate::recordings::{RECORDING, RECORDING_TWO, bytes, bytes_again};
use crate::versions::{Shape, recording_of};
use pon_record::{Version, migrate};
use std::alloc::Global;
use std::process::Abort;

// Returns the verdict on bytes that are migrated, with the number of bytes of the result.
fn migrated(alloc: Global, bytes: &[u8]) -> Verdict {
    match migrate(alloc, bytes) {
        Ok(new) => Verdict::Whole(new.len()),
        Err(fault) => verdict_of(fault),
    }
}

// Returns whether bytes are migrated to others.
fn becomes(alloc: Global, old: &[u8], wanted: &[u8]) -> bool {
    match migrate(alloc, old) {
        Ok(new) => new.as_slice() == wanted,
        Err(_) => false,
    }
}

#[test]
fn migrates_three_maps(rt: HostRuntime) {
    let old = bytes(&rt, rt.alloc(), RECORDING);
    let new = bytes(&rt, rt.alloc(), RECORDING_TWO);
    assert!(rt; new.len() == 293 && becomes(rt.alloc(), &old, &new));
}

fn insert(rt: &impl Abort, bytes: &mut Vec<u8>, at: usize, byte: u8) {
    assert!(rt; at <= bytes.len());
    bytes.insert(at, byte).expect(rt, "memory");
}

// Returns `ALL_FIELDS` in version two: its magic byte, the longer body, the rule, and a carry after each of its two rows.
fn all_fields_in_version_two(rt: &impl Abort, alloc: Global) -> Vec<u8> {
    let mut bytes = bytes(rt, alloc, ALL_FIELDS);
    assert!(rt; bytes.len() > 120);
    bytes[7] = 0x32;
    bytes[12] = 0x0e;
    insert(rt, &mut bytes, 120, 0);
    insert(rt, &mut bytes, 82, 0);
    insert(rt, &mut bytes, 13, 1);
    bytes
}

#[test]
fn migrates_each_field(rt: HostRuntime) {
    let old = bytes(&rt, rt.alloc(), ALL_FIELDS);
    let new = all_fields_in_version_two(&rt, rt.alloc());
    assert!(rt; becomes(rt.alloc(), &old, &new) && told(rt.alloc(), &new) == Verdict::Whole(1));
}

#[test]
fn migrates_256_rows(rt: HostRuntime) {
    let mut shape = Shape {
        version: Version::One,
        rule: 1,
        rows: 256,
        grants: 256,
    };
    let old = recording_of(&rt, rt.alloc(), shape);
    shape.version = Version::Two;
    let new = recording_of(&rt, rt.alloc(), shape);
    assert!(rt; becomes(rt.alloc(), &old, &new));
}

#[test]
fn tells_faults_by_their_places_before(rt: HostRuntime) {
    let alloc = rt.alloc();
    let mut bytes = twice(&rt, alloc);
    assert!(rt; bytes.len() == 576 && migrated(alloc, &bytes) == Verdict::Whole(578));
    bytes[292] = 0;
    let tag = migrated(alloc, &bytes);
    bytes[292] = 0x43;
    bytes.truncate(575);
    let cut = migrated(alloc, &bytes);
    assert!(rt; tag == Verdict::Bad(292) && cut == Verdict::Cut(292, 1));
}

#[test]
fn migrates_version_one_only(rt: HostRuntime) {
    let alloc = rt.alloc();
    let two = bytes(&rt, alloc, RECORDING_TWO);
    let one = bytes(&rt, alloc, RECORDING);
    assert!(rt; migrated(alloc, &two) == Verdict::Bad(0));
    for end in 0..one.len() {
        let wanted = match end {
            0..=7 => Verdict::Cut(0, 0),
            8 => Verdict::Whole(8),
            _ => Verdict::Cut(8, 0),
        };
        let (front, _) = one.as_slice().split_at(end);
        assert!(rt; migrated(alloc, front) == wanted, "{end}");
    }
}

// If one allocation fails (`rt try --test --fail-alloc N`), the fault is `Memory`, and the result is the same afterwards.
#[test]
fn migrates_again_what_memory_refused(rt: HostRuntime) {
    let old = bytes_again(&rt, rt.alloc(), ALL_FIELDS);
    let mut verdict = migrated(rt.alloc(), &old);
    if verdict == Verdict::OutOfMemory {
        verdict = migrated(rt.alloc(), &old);
    }
    assert!(rt; verdict == Verdict::Whole(old.len() + 3));
}
