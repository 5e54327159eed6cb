// One failed allocation (`rt try --test --fail-alloc N`) changes no result: the call is made again.

use pon_bwmap::{Alloc, Map, MapFault, decode_map, encode_map};
use std::alloc::Global;

fn map(alloc: Global, count: usize) -> Option<Map> {
    let row = Alloc::polled(1024, Some(16), 11, 0);
    let rows = vec![in alloc; row; count]
        .or(vec![in alloc; row; count])
        .ok()?;
    Map::from_rows(rows).ok()
}

// Decodes the bytes, again if memory is refused.
fn decoded(alloc: Global, bytes: &[u8]) -> Option<(Map, u32, usize)> {
    match decode_map(alloc, bytes) {
        Ok(read) => Some(read),
        Err(MapFault::Memory) => decode_map(alloc, bytes).ok(),
        Err(_) => None,
    }
}

// Returns whether the bytes read whole as the map, without a corrected bit.
fn reads_as(alloc: Global, bytes: &[u8], map: &Map) -> bool {
    match decoded(alloc, bytes) {
        Some((read, 0, used)) => read == *map && used == bytes.len(),
        _ => false,
    }
}

// Returns whether a map of `count` structures is copied, and read as it is written.
fn is_kept(alloc: Global, count: usize) -> Option<bool> {
    let map = map(alloc, count)?;
    let bytes = encode_map(alloc, &map).or(encode_map(alloc, &map)).ok()?;
    let copy = map.try_copy(alloc).or(map.try_copy(alloc)).ok()?;
    Some(copy == map && reads_as(alloc, &bytes, &copy))
}

fn differ(alloc: Global) -> Option<bool> {
    let one = map(alloc, 1)?;
    let two = map(alloc, 2)?;
    Some(one != two)
}

#[test]
fn asks_again_for_what_memory_refused(rt: HostRuntime) {
    for count in [1, 2, 512] {
        assert!(rt; is_kept(rt.alloc(), count) == Some(true), "{count}");
    }
    assert!(rt; differ(rt.alloc()) == Some(true));
}
