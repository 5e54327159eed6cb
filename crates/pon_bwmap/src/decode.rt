ghost use Rattle.std.specs.Prelude.{◌≡◌, ◌≢◌, ◌+◌, ◌*◌, ◌<◌, ◌≤◌, ◌^◌, ℕ, List, [], ◌∷◌, ◌++◌, length, drop, IfOk, IfErr, IfSome, IsNone};
ghost use Rattle.std.specs.Int.{w64, from_be_bytes};
ghost use Rattle.pon_hec.specs.HeaderCode.{Reads};
ghost use Rattle.pon_bwmap.specs.Alloc.{Alloc};
ghost use Rattle.pon_bwmap.specs.MapBytes.{structure_payload};
ghost use Rattle.pon_bwmap.specs.MapReading.{FitsStructure, ReadsStructure, ReadsMapRows, ReadsWholeHead, ReadsMap, BeginsWithMap, map_size};
ghost use Rattle.pon_bwmap.specs.MapFaults.{IsRowsFirstFault, IsFirstMapFault};
ghost use Rattle.pon_bwmap.specs.declared.fault.MapFault.{MapFault};

use crate::alloc::Alloc;
use crate::encode::NO_START;
use crate::fault::MapFault;
use crate::map::Map;
use crate::rules::{next_place, start_fault};
use pon_hec::open64;
use pon_units::MAX_STRUCTURES;
use pon_xgtc::{HLend, HeadFault};
use std::alloc::Global;

/// Decodes the map at the start of the bytes, and returns it with the number of corrected bits in its header words and
/// the number of bytes that it uses. A map uses 4 bytes, 8 for each structure, and 48 for each announced message.
/// Messages are skipped, and later bytes are not read.
///
/// # Errors
///
/// The first fault: `Short` for fewer than 4 bytes, `HeadHec`, `TooMany`, `Short` for fewer bytes than the map uses,
/// then for each structure in order `StructHec`, `SeriesStart`, `StartRange` and `SeriesLong`. `Memory` only if the
/// bytes begin with a valid map.
pub fn decode_map(alloc: Global, bytes: &[u8]) -> Result<(Map, u32, usize), MapFault>
    ensures ok { IfOk result (λ r. ReadsMap bytes.now r.0 r.1 r.2) }
    ensures fault { IfErr result (λ f. IsFirstMapFault bytes.now f) }
{
    let (head, in_head) = read_head(bytes)?;
    let count = usize::from(head.n());
    let (map, in_rows) = read_rows(room_for(alloc, count), &bytes[4..], count)?;
    Ok((map, u32::from(in_head) + in_rows, size(&head)))
}

/// Returns the first fault that [`decode_map`] finds, except `Memory`, since this allocates no memory. `None` exactly
/// when the bytes begin with a valid map.
pub fn map_fault(bytes: &[u8]) -> Option<MapFault>
    ensures none { IsNone result → BeginsWithMap bytes.now }
    ensures fault { IfSome result (λ f. IsFirstMapFault bytes.now f × (f ≢ MapFault.Memory)) }
{
    let head = match read_head(bytes) {
        Ok((head, _)) => head,
        Err(fault) => return Some(fault),
    };
    match read_rows(None, &bytes[4..], usize::from(head.n())) {
        Ok(_) => None,
        Err(MapFault::Memory) => None,
        Err(fault) => Some(fault),
    }
}

// Decodes the head, if the bytes contain all that it announces.
fn read_head(bytes: &[u8]) -> Result<(HLend, u8), MapFault>
    ensures ok { IfOk result (λ r. ReadsWholeHead bytes.now r.0 r.1) }
    ensures fault { IfErr result (λ f. IsFirstMapFault bytes.now f) }
    ensures early { IfErr result (λ f. f ≢ MapFault.Memory) }
{
    let (head, corrected) = match HLend::decode(bytes) {
        Ok(read) => read,
        Err(HeadFault::Short) => return Err(MapFault::Short),
        Err(HeadFault::Hec) => return Err(MapFault::HeadHec),
    };
    if usize::from(head.n()) > MAX_STRUCTURES {
        return Err(MapFault::TooMany);
    }
    if bytes.len() < size(&head) {
        return Err(MapFault::Short);
    }
    Ok((head, corrected))
}

fn size(head: &HLend) -> usize
    ensures { result ≡ map_size head.now }
{
    4 + 8 * usize::from(head.n()) + 48 * usize::from(head.p())
}

// Allocates room for `count` structures; `None` if memory is refused.
fn room_for(alloc: Global, count: usize) -> Option<Vec<Alloc>>
    ensures { IfSome result (λ v. v.items ≡ []) }
{
    Vec::with_capacity(alloc, count).ok()
}

// Decodes `count` structures into `room`, and returns their map with the number of corrected bits in them. It reads all
// of them even without room, since a fault of a structure is returned before `Memory`.
fn read_rows(room: Option<Vec<Alloc>>, bytes: &[u8], count: usize) -> Result<(Map, u32), MapFault>
    requires room { IfSome room (λ v. v.items ≡ []) }
    requires count { count ≤ MAX_STRUCTURES }
    requires whole { 8 * count ≤ length bytes.now }
    ensures ok { IfOk result (λ r. ReadsMapRows bytes.now count r.0 r.1) }
    ensures small { IfOk result (λ r. r.1 ≤ 1024) }
    ensures fault { IfErr result (λ f. IsRowsFirstFault bytes.now count f) }
{
    let mut rows = room;
    let mut corrected = 0;
    let mut place = 0;
    for k in 0..count {
        let (row, in_row) = read_structure(bytes, k)?;
        let start = row.start();
        place = next_place(k, start, place);
        if let Some(fault) = start_fault(k, start, place) {
            return Err(fault);
        }
        corrected += u32::from(in_row);
        rows = push_row(rows, row);
    }
    match rows {
        Some(rows) => Ok((Map::of_rows(rows), corrected)),
        None => Err(MapFault::Memory),
    }
}

// Appends a row; `None` if memory was refused, now or before.
fn push_row(rows: Option<Vec<Alloc>>, row: Alloc) -> Option<Vec<Alloc>>
    ensures { (before : List Alloc) → IfSome rows (λ v. v.items ≡ before) →
        IfSome result (λ v. v.items ≡ before ++ row ∷ []) }
{
    let mut rows = rows?;
    match rows.push(row) {
        Ok(()) => Some(rows),
        Err(_) => None,
    }
}

// Decodes structure k, and counts the corrected bits in it.
fn read_structure(bytes: &[u8], k: usize) -> Result<(Alloc, u8), MapFault>
    requires { 8 * k + 8 ≤ length bytes.now }
    ensures ok { IfOk result (λ r. ReadsStructure (drop (8 * k) bytes.now) r.0 r.1) }
    ensures fault { IfErr result (λ f. (f ≡ MapFault.StructHec k) ×
        ((payload places : ℕ)
        → Reads (2 ^ 64) (from_be_bytes w64 (drop (8 * k) bytes.now)) payload places → ⊥)) }
{
    let word = bytes[8 * k..].first_chunk::<8>().unwrap();
    match open64(u64::from_be_bytes(*word)) {
        Ok((payload, corrected)) => Ok((structure(payload), corrected)),
        Err(_) => Err(MapFault::StructHec { k }),
    }
}

// Converts a payload to its structure.
fn structure(payload: u64) -> Alloc
    requires { payload < 2 ^ 51 }
    ensures fits { FitsStructure result }
    ensures payload { structure_payload result ≡ payload }
{
    let start = ((payload >> 19) & 0xffff) as u16;
    Alloc::new(
        (payload >> 37) as u16,
        (payload >> 36) & 1 == 1,
        (payload >> 35) & 1 == 1,
        if start == NO_START { None } else { Some(start) },
        ((payload >> 3) & 0xffff) as u16,
        (payload >> 2) & 1 == 1,
        (payload & 3) as u8,
    )
    .unwrap()
}
