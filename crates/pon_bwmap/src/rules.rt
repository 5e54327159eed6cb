ghost use Rattle.std.specs.Prelude.{◌≡◌, ◌+◌, ◌<◌, ◌↔◌, All, IsNone, IsSome, IfSome};
ghost use Rattle.pon_bwmap.specs.MapReading.{FitsStructure};
ghost use Rattle.pon_bwmap.specs.MapRules.{IsMap, IsRowsFault, start_fault};

use crate::alloc::Alloc;
use crate::fault::MapFault;
use pon_units::{FRAME_WORDS, MAX_SERIES, MAX_STRUCTURES};

// Finds the first fault of the structures.
pub(crate) fn rows_fault(rows: &[Alloc]) -> Option<MapFault>
    ensures none { IsNone result ↔ IsMap rows.now }
    ensures fault { IfSome result (IsRowsFault rows.now) }
{
    if rows.len() > MAX_STRUCTURES {
        return Some(MapFault::TooMany);
    }
    let mut place = 0;
    for (k, row) in rows.iter().enumerate() {
        let start = row.start();
        place = next_place(k, start, place);
        let fault = start_fault(k, start, place);
        if fault.is_some() {
            return fault;
        }
    }
    None
}

// Proves that each structure of a map fits its ranges, by reading its fields. It computes nothing.
pub(crate) fn prove_ranges(rows: &[Alloc])
    requires { IsMap rows.now }
    ensures { All FitsStructure rows.now }
{
    for row in rows {
        let _ranges = (row.id(), row.grant(), row.profile());
    }
}

// Computes the place in its series of structure k, which follows one at the place `before`.
pub(crate) fn next_place(k: usize, start: Option<u16>, before: usize) -> usize
    requires { before < MAX_SERIES }
    ensures first { k ≡ 0 → result ≡ 0 }
    ensures starts { IsSome start → result ≡ 0 }
    ensures continues { 0 < k → IsNone start → result ≡ before + 1 }
{
    if k > 0 && start.is_none() {
        before + 1
    } else {
        0
    }
}

// Returns the fault of structure k, if it has this start and this place in its series.
pub(crate) fn start_fault(k: usize, start: Option<u16>, place: usize) -> Option<MapFault>
    ensures { result ≡ start_fault k start place }
{
    match start {
        Some(start) if start >= FRAME_WORDS => Some(MapFault::StartRange { k }),
        Some(_) => None,
        None if k == 0 => Some(MapFault::SeriesStart { k }),
        None if place >= MAX_SERIES => Some(MapFault::SeriesLong { k }),
        None => None,
    }
}
