ghost use Rattle.std.specs.Prelude.{◌≡◌, ◌+◌, ◌*◌, ◌<◌, ◌≤◌, ◌^◌, ℕ, List, ◌++◌, length, take, drop, IfOk};
ghost use Rattle.pon_bwmap.specs.MapBytes.{map_bytes, structure_bytes, structure_payload};
ghost use Rattle.pon_bwmap.specs.MapReading.{ReadsMap};
ghost use Rattle.pon_hec.specs.HeaderCode.{sealed};

use crate::alloc::Alloc;
use crate::map::Map;
use pon_hec::seal64;
use pon_units::MAX_STRUCTURES;
use pon_xgtc::HLend;
use std::alloc::{AllocError, Global};

/// Encodes a map: its head with N structures and no messages, then 8 bytes for each structure. The bytes, followed by
/// any others, read as the map, with nothing corrected. It makes one allocation.
///
/// # Errors
///
/// `AllocError` if memory is refused.
pub fn encode_map(alloc: Global, map: &Map) -> Result<Vec<u8>, AllocError>
    ensures spelled { IfOk result (λ bytes. bytes.items ≡ map_bytes map.now) }
    ensures reads_back { IfOk result (λ bytes. (rest : List ℕ)
        → ReadsMap (bytes.items ++ rest) map.now 0 (4 + 8 * length map.now)) }
{
    let mut bytes = vec![in alloc; 0; 4 + 8 * map.rows().len()]?;
    write_map(map, bytes.as_mut_slice());
    Ok(bytes)
}

/// Writes the bytes of [`encode_map`] to the front of `room`, and returns their number: 4, and 8 for each structure.
/// `room` must hold them; later bytes are unchanged. It allocates no memory.
#[tactic(auto, unfolding(crate::specs::MapBytes::map_bytes))]
pub fn write_map(map: &Map, room: &mut [u8]) -> usize
    requires { 4 + 8 * length map.now ≤ length room.old }
    ensures count { result ≡ 4 + 8 * length map.now }
    ensures bytes { room.new ≡ map_bytes map.now ++ drop result room.old }
{
    let rows = map.rows();
    put(room, 0, &head(rows.len()).encode());
    for (k, row) in rows.iter().enumerate() {
        put(room, 4 + 8 * k, &structure(row));
    }
    4 + 8 * rows.len()
}

// Writes a piece at index `at`.
fn put(room: &mut [u8], at: usize, piece: &[u8])
    requires { at + length piece.now ≤ length room.old }
    ensures front { take (at + length piece.now) room.new ≡ take at room.old ++ piece.now }
    ensures back { drop (at + length piece.now) room.new ≡ drop (at + length piece.now) room.old }
{
    room[at..at + piece.len()].copy_from_slice(piece);
}

fn head(count: usize) -> HLend
    requires { count ≤ MAX_STRUCTURES }
    ensures { result ≡ record { n = count; p = 0 } }
{
    HLend::new(count as u16, 0).unwrap()
}

fn structure(row: &Alloc) -> [u8; 8]
    ensures { result ≡ structure_bytes row.now }
{
    structure_word(row).to_be_bytes()
}

// Returns the word of a structure, with its header code. It is not inlined: the compiler swaps the bytes of a result
// with one instruction, and those of a sum that it sees with 25.
#[inline(never)]
fn structure_word(row: &Alloc) -> u64
    ensures { result ≡ sealed (structure_payload row.now) }
{
    seal64(payload(row))
}

fn payload(row: &Alloc) -> u64
    ensures value { result ≡ structure_payload row.now }
    ensures fits { result < 2 ^ 51 }
{
    let start = row.start().unwrap_or(NO_START);
    (u64::from(row.id()) << 37)
        + (u64::from(row.dbru()) << 36)
        + (u64::from(row.ploam()) << 35)
        + (u64::from(start) << 19)
        + (u64::from(row.grant()) << 3)
        + (u64::from(row.fwi()) << 2)
        + u64::from(row.profile())
}

pub(crate) const NO_START: u16 = 0xffff;
