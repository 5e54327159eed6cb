use pon_bwmap::{Alloc, Map, MapFault};
use std::alloc::Global;

fn starting(start: u16) -> Alloc {
    Alloc::polled(1024, Some(start), 1, 0)
}

fn continuing() -> Alloc {
    Alloc::polled(1025, None, 1, 0)
}

// Returns the fault of the structures, if they are no map and are returned unchanged.
fn fault_of(alloc: Global, rows: &[Alloc]) -> Option<MapFault> {
    let (after, fault) = Map::from_rows(Vec::from_slice(alloc, rows).ok()?).err()?;
    if after.as_slice() == rows {
        Some(fault)
    } else {
        None
    }
}

#[test]
fn first_faults(rt: HostRuntime) {
    let mut long = [continuing(); 17];
    long[0] = starting(16);
    for (rows, fault) in [
        ([continuing(); 513].as_slice(), MapFault::TooMany),
        (
            &[continuing(), starting(9720)],
            MapFault::SeriesStart { k: 0 },
        ),
        (
            &[starting(9719), starting(9720)],
            MapFault::StartRange { k: 1 },
        ),
        (&[starting(65535)], MapFault::StartRange { k: 0 }),
        (long.as_slice(), MapFault::SeriesLong { k: 16 }),
    ] {
        let told = fault_of(rt.alloc(), rows);
        assert!(rt; told == Some(fault), "{fault:?}: {told:?}");
    }
}

// Returns whether the structures are a map, and a copy of it has the same.
fn copies(alloc: Global, rows: &[Alloc]) -> Option<bool> {
    let map = Map::from_rows(Vec::from_slice(alloc, rows).ok()?).ok()?;
    let copy = map.try_copy(alloc).ok()?;
    Some(map.rows() == rows && copy.rows() == rows)
}

#[test]
fn maps_and_copies(rt: HostRuntime) {
    let mut series = [continuing(); 16];
    series[0] = starting(16);
    for rows in [[starting(9719); 512].as_slice(), series.as_slice()] {
        let copied = copies(rt.alloc(), rows);
        assert!(rt; copied == Some(true), "{} structures", rows.len());
    }
    assert!(rt; copies(rt.alloc(), &[]) == Some(true), "no structures");
}

#[test]
fn ends_of_the_fields(rt: HostRuntime) {
    let most = Alloc::new(16383, true, true, Some(9719), 65535, true, 3).expect(&rt, "in range");
    assert!(rt; (most.id(), most.dbru(), most.ploam()) == (16383, true, true));
    assert!(rt; (most.start(), most.grant()) == (Some(9719), 65535));
    assert!(rt; (most.fwi(), most.profile()) == (true, 3));
    assert!(rt; Alloc::new(16384, true, false, None, 1, false, 0).is_none());
    assert!(rt; Alloc::new(16383, true, false, None, 1, false, 4).is_none());
}
