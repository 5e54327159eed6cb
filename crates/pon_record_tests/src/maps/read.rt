use pon_bwmap::{Alloc, MapFault, decode_map, map_fault};
use std::alloc::Global;

const ONE: [u8; 13] = [
    0x00, 0x20, 0x13, 0xac, 0x10, 0x02, 0x00, 0x10, 0x00, 0x0b, 0x13, 0xcb, 0xff,
];

// Reads a map, and returns the numbers of corrected bits and of bytes read if it has these structures.
fn reads(alloc: Global, bytes: &[u8], rows: &[Alloc]) -> Option<(u32, usize)> {
    let (map, corrected, used) = decode_map(alloc, bytes).ok()?;
    if map.rows() == rows {
        Some((corrected, used))
    } else {
        None
    }
}

fn fault(alloc: Global, bytes: &[u8]) -> Option<MapFault> {
    decode_map(alloc, bytes).err()
}

// Returns the bytes of the map with two of them changed.
fn changed(first: (usize, u8), second: (usize, u8)) -> [u8; 13] {
    let mut bytes = ONE;
    for (at, byte) in [first, second] {
        if at < 13 {
            bytes[at] = byte;
        }
    }
    bytes
}

#[test]
fn one_structure(rt: HostRuntime) {
    let rows = [Alloc::polled(1024, Some(16), 11, 0)];
    let wrong = changed((3, 0xad), (11, 0xca));
    assert!(rt; reads(rt.alloc(), &ONE, &rows) == Some((0, 12)));
    assert!(rt; reads(rt.alloc(), &wrong, &rows) == Some((2, 12)));
}

#[test]
fn faults(rt: HostRuntime) {
    let head = changed((0, 0x80), (3, 0xaf));
    let structure = changed((11, 0xcc), (12, 0xff));
    for (name, bytes, wanted) in [
        ("no head", &ONE[..3], MapFault::Short),
        ("no structure", &ONE[..11], MapFault::Short),
        ("three bits of the head", &head, MapFault::HeadHec),
        (
            "three bits of the structure",
            &structure,
            MapFault::StructHec { k: 0 },
        ),
    ] {
        assert!(rt; fault(rt.alloc(), bytes) == Some(wanted), "{name}");
    }
}

#[test]
fn an_announced_message(rt: HostRuntime) {
    let mut bytes = [0; 52];
    bytes[2] = 0x2a;
    bytes[3] = 0x73;
    assert!(rt; reads(rt.alloc(), &bytes, &[]) == Some((0, 52)));
    assert!(rt; fault(rt.alloc(), &bytes[..51]) == Some(MapFault::Short));
}

#[test]
fn tells_the_same_faults_without_memory(rt: HostRuntime) {
    let wrong = changed((11, 0xcc), (12, 0xff));
    for size in 0..14 {
        for bytes in [&ONE[..size], &wrong[..size]] {
            assert!(rt; map_fault(bytes) == fault(rt.alloc(), bytes), "{bytes:?}");
        }
    }
}
