use pon_bwmap::{MapFault, decode_map, map_fault};
use std::alloc::Global;

// Heads that announce 1, 2, 17 and 513 structures, and no message.
const ONE: u32 = 0x0020_13ac;

const TWO: u32 = 0x0040_0d2b;

const SEVENTEEN: u32 = 0x0220_046b;

const TOO_MANY: u32 = 0x4020_18a9;

// Structures: one with start 16, one that continues, one with start 9,720, one with three bit errors.
const STARTS: u64 = 0x1002_0010_000b_13cb;

const CONTINUES: u64 = 0x1006_ffff_0002_176f;

const LATE: u64 = 0x1002_25f8_000b_0beb;

const LOST: u64 = 0x1002_0010_000b_13cc;

// Returns the fault of the bytes of this head and these structures, if it is the same with memory and without.
fn fault_of(alloc: Global, head: u32, structures: &[u64]) -> Option<MapFault> {
    let mut bytes = head.to_be_bytes().to_vec(alloc).ok()?;
    for word in structures {
        bytes.extend_from_slice(&word.to_be_bytes()).ok()?;
    }
    let fault = map_fault(&bytes)?;
    if decode_map(alloc, &bytes).err() == Some(fault) {
        Some(fault)
    } else {
        None
    }
}

#[test]
fn first_faults_of_bytes(rt: HostRuntime) {
    let mut series = [CONTINUES; 17];
    series[0] = STARTS;
    for (head, structures, fault) in [
        (TOO_MANY, [].as_slice(), MapFault::TooMany),
        (ONE, &[CONTINUES], MapFault::SeriesStart { k: 0 }),
        (TWO, &[CONTINUES, LOST], MapFault::SeriesStart { k: 0 }),
        (TWO, &[LATE, LOST], MapFault::StartRange { k: 0 }),
        (TWO, &[STARTS, LOST], MapFault::StructHec { k: 1 }),
        (TWO, &[STARTS, LATE], MapFault::StartRange { k: 1 }),
        (SEVENTEEN, &series, MapFault::SeriesLong { k: 16 }),
    ] {
        let told = fault_of(rt.alloc(), head, structures);
        assert!(rt; told == Some(fault), "{structures:?}: {told:?}");
    }
}
