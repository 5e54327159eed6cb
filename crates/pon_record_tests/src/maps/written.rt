ghost use Rattle.std.specs.Prelude.{◌≡◌, ℕ, List, IfOk, IfErr};
ghost use Rattle.pon_bwmap.specs.Alloc.{Alloc};
ghost use Rattle.pon_bwmap.specs.MapReading.{ReadsMap};
ghost use Rattle.pon_bwmap.specs.declared.fault.MapFault.{MapFault};

use pon_bwmap::{Alloc, Map, MapFault, decode_map, encode_map, write_map};
use std::alloc::Global;

fn first() -> Alloc {
    Alloc::polled(1024, Some(16), 11, 0)
}

fn map(alloc: Global, rows: &[Alloc]) -> Option<Map> {
    Map::from_rows(Vec::from_slice(alloc, rows).ok()?).ok()
}

// Returns whether the map of the structures is written as these bytes.
fn writes(alloc: Global, rows: &[Alloc], bytes: &[u8]) -> Option<bool> {
    let map = map(alloc, rows)?;
    let written = encode_map(alloc, &map).ok()?;
    Some(written.as_slice() == bytes)
}

const ONE: [u8; 12] = [
    0x00, 0x20, 0x13, 0xac, 0x10, 0x02, 0x00, 0x10, 0x00, 0x0b, 0x13, 0xcb,
];

const TWO: [u8; 20] = [
    0x00, 0x40, 0x0d, 0x2b, 0x10, 0x02, 0x00, 0x10, 0x00, 0x0b, 0x13, 0xcb, 0x10, 0x06, 0xff, 0xff,
    0x00, 0x02, 0x17, 0x6f,
];

#[test]
fn maps_as_bytes(rt: HostRuntime) {
    let rows = [first(), Alloc::polled(1025, None, 2, 0)];
    let alloc = rt.alloc();
    assert!(rt; writes(alloc, &[], &[0; 4]) == Some(true));
    assert!(rt; writes(alloc, &rows[..1], &ONE) == Some(true));
    assert!(rt; writes(alloc, &rows, &TWO) == Some(true));
}

// Writes a map of one structure into 14 bytes, and returns the number of bytes written if the later ones stay.
fn written_into_room(alloc: Global) -> Option<usize> {
    let map = map(alloc, &[first()])?;
    if map.rows().len() != 1 {
        return None;
    }
    let mut room = [0xff; 14];
    let count = write_map(&map, &mut room);
    if room.starts_with(&ONE) && room.ends_with(&[0xff; 2]) {
        Some(count)
    } else {
        None
    }
}

#[test]
fn writes_into_room(rt: HostRuntime) {
    assert!(rt; written_into_room(rt.alloc()) == Some(12));
}

// Decodes the bytes of a map.
fn read_whole(alloc: Global, bytes: &[u8]) -> Result<Map, MapFault>
    ensures ok { (rows : List Alloc) (corrected used : ℕ) → ReadsMap bytes.now rows corrected used
        → IfOk result (λ map. map ≡ rows) }
    ensures err { (rows : List Alloc) (corrected used : ℕ) → ReadsMap bytes.now rows corrected used
        → IfErr result (λ fault. fault ≡ MapFault.Memory) }
{
    match decode_map(alloc, bytes) {
        Ok((map, _, _)) => Ok(map),
        Err(fault) => Err(fault),
    }
}

// Writes a map and reads it again: the result is equal by the contracts, and only memory can be refused.
fn read_again(alloc: Global, map: &Map) -> Result<Map, MapFault>
    ensures ok { IfOk result (λ again. again ≡ map.now) }
    ensures err { IfErr result (λ fault. fault ≡ MapFault.Memory) }
{
    match encode_map(alloc, map) {
        Ok(bytes) => read_whole(alloc, bytes.as_slice()),
        Err(_) => Err(MapFault::Memory),
    }
}

// Returns whether a map is read as it was written.
fn reads_what_it_wrote(alloc: Global) -> Option<bool> {
    let map = map(alloc, &[first()])?;
    let again = read_again(alloc, &map).ok()?;
    Some(again == map)
}

#[test]
fn reads_a_written_map(rt: HostRuntime) {
    assert!(rt; reads_what_it_wrote(rt.alloc()) == Some(true));
}
