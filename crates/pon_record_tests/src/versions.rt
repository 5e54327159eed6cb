//! Recordings of version two, and how many rows and grants each version and each rule admits.

use crate::reading::{Verdict, changed, chapter, recording, told};
use crate::recordings::{RECORDING_TWO, bytes};
use pon_admit::Rule;
use pon_record::{CHAPTER_TAG, Opening, Version};
use std::alloc::Global;
use std::process::Abort;

// Port 63 under rule two: two rows, with carries of 255 and 1 kbit/s, and a map in its window.
const RULE_TWO: &str = "
    504f4e5245433032 43 0000008c 02 3f 0000000000000005
    0100 03 00 0000000000000007 000000000000000b 0002
    0001 0400 00000a00 00000000 00001400 02 0000000000000005 01 0000000000000006 0000005a ff
    0002 0401 00000000 00000100 00000200 01 0000000000000007 00 0000000000000000 00000000 01
    01 0000000000000006 0002 0001 0400 000a 0002 0401 25f8 01 0001
    00000000";

fn has_carries(opening: &Opening, wanted: [u8; 2]) -> bool {
    match opening.rows.as_slice() {
        [first, second] => first.carry == wanted[0] && second.carry == wanted[1],
        _ => false,
    }
}

#[test]
fn reads_the_rule_and_the_carries(rt: HostRuntime) {
    let recording = recording(&rt, rt.alloc(), RULE_TWO);
    let chapter = chapter(&rt, &recording);
    assert!(rt; chapter.port.get() == 63 && chapter.opening.rule == Rule::CarryRemainders);
    assert!(rt; has_carries(&chapter.opening, [255, 1]));
}

#[test]
fn reads_rule_one_in_version_two(rt: HostRuntime) {
    let recording = recording(&rt, rt.alloc(), RECORDING_TWO);
    let chapter = chapter(&rt, &recording);
    assert!(rt; chapter.opening.rule == Rule::DropRemainders && chapter.entries.len() == 7);
}

// Place and new value of a byte of `RULE_TWO`, and the verdict.
static CHANGES: [(usize, u8, Verdict); 8] = [
    (7, 0x31, Verdict::Bad(8)),
    (7, 0x33, Verdict::Bad(0)),
    (12, 0x8d, Verdict::Cut(8, 0)),
    (13, 0, Verdict::Bad(8)),
    (13, 1, Verdict::Bad(8)),
    (13, 3, Verdict::Bad(8)),
    (83, 0, Verdict::Whole(1)),
    (122, 255, Verdict::Whole(1)),
];

#[test]
fn tells_each_rule_out_of_its_range(rt: HostRuntime) {
    let mut bytes = bytes(&rt, rt.alloc(), RULE_TWO);
    for (at, byte, wanted) in CHANGES.iter() {
        let verdict = changed(&rt, bytes.as_mut_slice(), rt.alloc(), *at, *byte);
        assert!(rt; verdict == *wanted, "{at} {byte}");
    }
}

#[test]
fn carries_nothing_under_rule_one(rt: HostRuntime) {
    let mut bytes = bytes(&rt, rt.alloc(), RULE_TWO);
    assert!(rt; bytes.len() > 122);
    bytes[13] = 1;
    bytes[83] = 0;
    let carried = told(rt.alloc(), &bytes);
    let nothing = changed(&rt, bytes.as_mut_slice(), rt.alloc(), 122, 0);
    assert!(rt; carried == Verdict::Bad(8) && nothing == Verdict::Whole(1));
}

/// A chapter in a version and under a rule, with equal rows, and a map in its window with equal grants.
#[derive(Clone, Copy)]
pub(crate) struct Shape {
    pub version: Version,
    pub rule: u8,
    pub rows: u16,
    pub grants: u16,
}

const HEAD: &str = "00 0000000000000000 0010 00 00 0000000000000000 0000000000000000";

const ROW: &str =
    "0001 0400 00000a00 00000000 00001400 02 0000000000000005 00 0000000000000000 00000000";

const WINDOW: &str = "01 0000000000000006";

const GRANT: &str = "0001 0400 000a";

fn extend(rt: &impl Abort, bytes: &mut Vec<u8>, more: &[u8]) {
    bytes.extend_from_slice(more).expect(rt, "memory");
}

fn extend_by(rt: &impl Abort, bytes: &mut Vec<u8>, times: u16, more: &[u8]) {
    extend(rt, bytes, times.to_be_bytes().as_slice());
    for _ in 0..times {
        extend(rt, bytes, more);
    }
}

fn row_of(rt: &impl Abort, alloc: Global, version: Version) -> Vec<u8> {
    let mut row = bytes(rt, alloc, ROW);
    if version == Version::Two {
        extend(rt, &mut row, &[0]);
    }
    row
}

fn body_of(rt: &impl Abort, alloc: Global, shape: Shape) -> Vec<u8> {
    let mut body = Vec::new(alloc);
    if shape.version == Version::Two {
        extend(rt, &mut body, &[shape.rule]);
    }
    extend(rt, &mut body, &bytes(rt, alloc, HEAD));
    extend_by(rt, &mut body, shape.rows, &row_of(rt, alloc, shape.version));
    extend(rt, &mut body, &bytes(rt, alloc, WINDOW));
    extend_by(rt, &mut body, shape.grants, &bytes(rt, alloc, GRANT));
    extend(rt, &mut body, &[0, 0, 0, 0, 0]);
    body
}

/// Returns the recording of such a chapter.
pub(crate) fn recording_of(rt: &impl Abort, alloc: Global, shape: Shape) -> Vec<u8> {
    let body = body_of(rt, alloc, shape);
    let size = u32::try_from(body.len()).ok().expect(rt, "a length");
    let mut bytes = Vec::new(alloc);
    extend(rt, &mut bytes, shape.version.magic().as_slice());
    extend(rt, &mut bytes, &[CHAPTER_TAG]);
    extend(rt, &mut bytes, size.to_be_bytes().as_slice());
    extend(rt, &mut bytes, &body);
    bytes
}

// Version, rule, number of rows and of grants, and the verdict.
static SHAPES: [(Version, u8, u16, u16, Verdict); 9] = [
    (Version::One, 1, 256, 256, Verdict::Whole(1)),
    (Version::One, 1, 257, 0, Verdict::Bad(8)),
    (Version::One, 1, 0, 257, Verdict::Bad(8)),
    (Version::Two, 1, 256, 256, Verdict::Whole(1)),
    (Version::Two, 1, 257, 0, Verdict::Bad(8)),
    (Version::Two, 1, 0, 257, Verdict::Bad(8)),
    (Version::Two, 2, 512, 512, Verdict::Whole(1)),
    (Version::Two, 2, 513, 0, Verdict::Bad(8)),
    (Version::Two, 2, 0, 513, Verdict::Bad(8)),
];

#[test]
fn counts_to_the_limit_of_the_rule(rt: HostRuntime) {
    for (version, rule, rows, grants, wanted) in SHAPES.iter() {
        let shape = Shape {
            version: *version,
            rule: *rule,
            rows: *rows,
            grants: *grants,
        };
        let bytes = recording_of(&rt, rt.alloc(), shape);
        assert!(rt;
            told(rt.alloc(), &bytes) == *wanted,
            "{rule} {rows} {grants}"
        );
    }
}
