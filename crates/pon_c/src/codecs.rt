// The headers of bursts, the reports and the maps of the line, as values and as bytes.
ghost use Rattle.std.specs.Prelude.{◌≡◌, ◌≢◌, ◌<◌, ◌≤◌, ◌++◌, ℕ, drop, length, take};
ghost use Rattle.pon_units.specs.declared.limits.TheConstants.{MAX_OCCUPANCY};
ghost use Rattle.pon_dbru.specs.Report.{Reports};
ghost use Rattle.pon_xgtc.specs.BurstHead.{ReadsBurstHead, burst_head_payload};
ghost use Rattle.pon_xgtc.specs.HLend.{ReadsHLend, hlend_payload};
ghost use Rattle.pon_xgtc.specs.Header.{header_bytes};
ghost use Rattle.pon_c.specs.Codecs.{IsHeader, SealsReport, TellsFew, TellsHeaderFault, TellsMap, TellsMapFault, map_fault_number, map_fault_place, structure_of, structures_of};

use crate::numbers::{
    BAD_CODE, BAD_HEADER, BAD_OCCUPANCY, BAD_REPORT, NO_ROOM, NO_START, OUT_OF_MEMORY, SERIES_LONG,
    SERIES_START, SHORT, START_RANGE, TOO_MANY,
};
use pon_bwmap::{Alloc, MapFault, decode_map};
use pon_dbru::{decode, encode};
use pon_units::BufOcc;
use pon_xgtc::{BurstHead, HLend, HeadFault};
use std::alloc::Global;

/// The header of an upstream burst.
#[repr(C)]
#[derive(Drop)]
pub struct HeaderInfo {
    /// The ONU-ID, 0 to 1023.
    pub onu: u16,
    /// The indications, 0 to 511.
    pub indications: u16,
    /// The corrected bits, 0 to 2.
    pub corrected: u8,
}

/// The head of a map.
#[repr(C)]
#[derive(Drop)]
pub struct MapHeadInfo {
    /// The number of structures that follow it, 0 to 2047.
    pub structures: u16,
    /// The number of messages after them, 0 to 255.
    pub messages: u8,
    /// The corrected bits, 0 to 2.
    pub corrected: u8,
}

/// An allocation structure of a map.
#[repr(C)]
#[derive(Clone, Copy)]
pub struct StructureInfo {
    /// The Alloc-ID, 0 to 16383.
    pub alloc_id: u16,
    /// The first word of the burst, or `NO_START`.
    pub start: u16,
    /// The granted words, that of a report included.
    pub grant: u16,
    /// The burst profile, 0 to 3.
    pub profile: u8,
    /// Whether a report is asked for.
    pub dbru: bool,
    /// Whether a message is asked for.
    pub ploam: bool,
    /// Whether a forced wake-up is indicated.
    pub fwi: bool,
}

/// What was decoded of a map.
#[repr(C)]
#[derive(Drop)]
pub struct DecodedInfo {
    /// The number of structures; after a fault of a structure its place, from 0.
    pub count: usize,
    /// The bytes that the map uses.
    pub size: usize,
    /// The corrected bits.
    pub corrected: u32,
}

// Writes four bytes to the front of `room`. Returns 0, or `NO_ROOM`.
fn put_four(bytes: [u8; 4], room: &mut [u8]) -> u32
    ensures few { length room.old < 4 → (result ≡ NO_ROOM) × (room.new ≡ room.old) }
    ensures enough { 4 ≤ length room.old → (result ≡ 0) × (room.new ≡ bytes ++ drop 4 room.old) }
{
    if room.len() < 4 {
        return NO_ROOM;
    }
    room[..4].copy_from_slice(&bytes);
    0
}

/// Writes the header of a burst, with its code, to the front of `room`. Returns 0, or the first of: `BAD_HEADER` for an
/// ONU-ID above 1023 or indications above 511, and `NO_ROOM` for a room of fewer than 4 bytes.
#[unsafe(no_mangle)]
pub extern "C" fn sez_header_seal(onu: u16, indications: u16, room: &mut [u8]) -> u32
    ensures header { (IsHeader onu indications → ⊥) → (result ≡ BAD_HEADER) × (room.new ≡ room.old) }
    ensures few { IsHeader onu indications → length room.old < 4
        → (result ≡ NO_ROOM) × (room.new ≡ room.old) }
    ensures enough { IsHeader onu indications → 4 ≤ length room.old → (result ≡ 0)
        × (room.new ≡ header_bytes (burst_head_payload
        (record { onu_raw = onu; ind = indications })) ++ drop 4 room.old) }
{
    match BurstHead::new(onu, indications) {
        Some(header) => put_four(header.encode(), room),
        None => BAD_HEADER,
    }
}

/// Reads the header at the front of a burst, and corrects up to two bits. Returns 0, or `SHORT` for fewer than 4 bytes, or
/// `BAD_CODE` if they differ in more than two bits from every header.
#[unsafe(no_mangle)]
pub extern "C" fn sez_header_open(bytes: &[u8], header: &mut HeaderInfo) -> u32
    ensures ok { result ≡ 0 → ReadsBurstHead bytes.now
        (record { onu_raw = header.new.onu; ind = header.new.indications })
        header.new.corrected }
    ensures told { result ≢ 0 → TellsHeaderFault bytes.now result }
{
    match BurstHead::decode(bytes) {
        Ok((read, corrected)) => {
            *header = HeaderInfo {
                onu: read.onu_raw(),
                indications: read.ind(),
                corrected,
            };
            0
        }
        Err(HeadFault::Short) => SHORT,
        Err(HeadFault::Hec) => BAD_CODE,
    }
}

/// Writes the head of a map, with its code, to the front of `room`: the numbers of the structures and of the messages that
/// follow it. Returns 0, or the first of: `BAD_HEADER` for more than 2047 structures, and `NO_ROOM` for a room of fewer than 4
/// bytes.
#[unsafe(no_mangle)]
pub extern "C" fn sez_map_head_seal(structures: u16, messages: u8, room: &mut [u8]) -> u32
    ensures head { (structures ≤ 2047 → ⊥) → (result ≡ BAD_HEADER) × (room.new ≡ room.old) }
    ensures few { structures ≤ 2047 → length room.old < 4
        → (result ≡ NO_ROOM) × (room.new ≡ room.old) }
    ensures enough { structures ≤ 2047 → 4 ≤ length room.old → (result ≡ 0)
        × (room.new ≡ header_bytes (hlend_payload
        (record { n = structures; p = messages })) ++ drop 4 room.old) }
{
    match HLend::new(structures, messages) {
        Some(head) => put_four(head.encode(), room),
        None => BAD_HEADER,
    }
}

/// Reads the head at the front of a map, and corrects up to two bits. Returns 0, or `SHORT` for fewer than 4 bytes, or
/// `BAD_CODE` if they differ in more than two bits from every head.
#[unsafe(no_mangle)]
pub extern "C" fn sez_map_head_open(bytes: &[u8], head: &mut MapHeadInfo) -> u32
    ensures ok { result ≡ 0 → ReadsHLend bytes.now
        (record { n = head.new.structures; p = head.new.messages })
        head.new.corrected }
    ensures told { result ≢ 0 → TellsHeaderFault bytes.now result }
{
    match HLend::decode(bytes) {
        Ok((read, corrected)) => {
            *head = MapHeadInfo {
                structures: read.n(),
                messages: read.p(),
                corrected,
            };
            0
        }
        Err(HeadFault::Short) => SHORT,
        Err(HeadFault::Hec) => BAD_CODE,
    }
}

/// Writes the report of an occupancy, in words of 4 bytes, with its check byte, to the front of `room`. Returns 0, or the
/// first of: `BAD_OCCUPANCY` above 16,777,215, and `NO_ROOM` for a room of fewer than 4 bytes.
#[unsafe(no_mangle)]
pub extern "C" fn sez_report_seal(words: u32, room: &mut [u8]) -> u32
    ensures words { (words ≤ MAX_OCCUPANCY → ⊥) → (result ≡ BAD_OCCUPANCY) × (room.new ≡ room.old) }
    ensures few { words ≤ MAX_OCCUPANCY → length room.old < 4
        → (result ≡ NO_ROOM) × (room.new ≡ room.old) }
    ensures enough { words ≤ MAX_OCCUPANCY → 4 ≤ length room.old → (result ≡ 0)
        × SealsReport words room.old room.new }
{
    match BufOcc::new(words) {
        Some(occupancy) => put_four(encode(occupancy), room),
        None => BAD_OCCUPANCY,
    }
}

/// Reads the report at the front of the bytes. Returns 0, or `SHORT` for fewer than 4 bytes, or `BAD_REPORT` if the
/// check byte is wrong.
#[unsafe(no_mangle)]
pub extern "C" fn sez_report_open(bytes: &[u8], words: &mut u32) -> u32
    ensures short { length bytes.now < 4 → result ≡ SHORT }
    ensures ok { 4 ≤ length bytes.now → result ≡ 0 → Reports (take 4 bytes.now) words.new }
    ensures garbled { 4 ≤ length bytes.now → result ≢ 0 → (result ≡ BAD_REPORT)
        × ((n : ℕ) → Reports (take 4 bytes.now) n → ⊥) }
{
    let Some(report) = bytes.first_chunk::<4>() else {
        return SHORT;
    };
    match decode(*report) {
        Ok(occupancy) => {
            *words = occupancy.get();
            0
        }
        Err(_) => BAD_REPORT,
    }
}

fn structure_of(a: &Alloc) -> StructureInfo
    ensures { result ≡ structure_of a.now }
{
    StructureInfo {
        alloc_id: a.id(),
        start: a.start().unwrap_or(NO_START),
        grant: a.grant(),
        profile: a.profile(),
        dbru: a.dbru(),
        ploam: a.ploam(),
        fwi: a.fwi(),
    }
}

// Writes structures to the front of `rows`, which has room for them.
fn put_structures(structures: &[Alloc], rows: &mut [StructureInfo])
    requires { length structures.now ≤ length rows.old }
    ensures { rows.new ≡ structures_of structures.now ++ drop (length structures.now) rows.old }
{
    for place in 0..structures.len() {
        rows[place] = structure_of(&structures[place]);
    }
}

fn map_fault(fault: &MapFault) -> (u32, usize)
    ensures number { result.0 ≡ map_fault_number fault.now }
    ensures place { result.1 ≡ map_fault_place fault.now }
{
    match *fault {
        MapFault::Short => (SHORT, 0),
        MapFault::HeadHec => (BAD_CODE, 0),
        MapFault::TooMany => (TOO_MANY, 0),
        MapFault::StructHec { k } => (BAD_CODE, k),
        MapFault::SeriesStart { k } => (SERIES_START, k),
        MapFault::StartRange { k } => (START_RANGE, k),
        MapFault::SeriesLong { k } => (SERIES_LONG, k),
        MapFault::Memory => (OUT_OF_MEMORY, 0),
    }
}

/// Decodes the map at the front of the bytes, and corrects up to two bits of each of its words: its structures go to the
/// front of `rows`. Returns 0, or the first fault: `SHORT`, `BAD_CODE` of the head, `TOO_MANY` for more than 512
/// structures, `SHORT` for fewer bytes than the map uses, then for each structure `BAD_CODE`, `SERIES_START` for a first
/// one that has no start, `START_RANGE`, `SERIES_LONG` for the seventeenth of a burst; then `OUT_OF_MEMORY`, and `NO_ROOM` for
/// fewer rows than structures: `decoded.count` has their number.
#[unsafe(no_mangle)]
pub extern "C" fn sez_map_decode(
    alloc: Global,
    bytes: &[u8],
    rows: &mut [StructureInfo],
    decoded: &mut DecodedInfo,
) -> u32
    ensures ok { result ≡ 0 → TellsMap bytes.now decoded.new rows.old rows.new }
    ensures err { result ≢ 0 → rows.new ≡ rows.old }
    ensures few { result ≡ NO_ROOM → TellsFew bytes.now decoded.new (length rows.old) }
    ensures told { result ≢ 0 → result ≢ NO_ROOM
        → TellsMapFault bytes.now result decoded.new.count }
{
    match decode_map(alloc, bytes) {
        Ok((map, corrected, size)) => {
            let structures = map.rows();
            let count = structures.len();
            *decoded = DecodedInfo {
                count,
                size,
                corrected,
            };
            if count > rows.len() {
                return NO_ROOM;
            }
            put_structures(structures, rows);
            0
        }
        Err(fault) => {
            let (number, place) = map_fault(&fault);
            decoded.count = place;
            number
        }
    }
}
