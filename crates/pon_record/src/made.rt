//! Reads made maps.

ghost use Rattle.std.specs.Prelude.{◌≡◌, ◌<◌, ◌^◌};
ghost use Rattle.pon_record.specs.Format.{counted, passing};
ghost use Rattle.pon_record.specs.Reading.{ReadsValue, Reads};
ghost use Rattle.pon_record.specs.MadeMaps.{certificate, head, is_map, made_map, map, structure, structure_of};

use crate::cursor::Cursor;
use crate::fault::{Malformed, Stop};
use crate::layout::Layout;
use crate::lists::{Recorded, read_list};
use pon_bwmap::{Alloc, Map};
use pon_cert::{CertReadFault, MapCert};
use pon_hec::{seal32, seal64};
use pon_state::MadeMap;
use pon_units::MAX_STRUCTURES;
use std::alloc::Global;

/// The StartTime field of a structure without a start.
const NO_START: u16 = 0xffff;

// Reads the head of a map without messages, and returns its number of structures.
fn read_head(cursor: &mut Cursor<'_>) -> Result<u32, Malformed>
    ensures { Reads (λ x. (x, cursor.new)) result (head.read cursor.old) }
{
    let word = cursor.u32()?;
    let count = word >> 21;
    if seal32(count << 8) != word {
        return Err(Malformed);
    }
    Ok(count)
}

// Returns the structure with this payload of 51 bits.
fn structure_of(payload: u64) -> Alloc
    requires { payload < 2 ^ 51 }
    ensures { result ≡ structure_of payload }
{
    let start = ((payload >> 19) & 0xffff) as u16;
    Alloc::new(
        (payload >> 37) as u16,
        (payload >> 36) & 1 == 1,
        (payload >> 35) & 1 == 1,
        if start == NO_START { None } else { Some(start) },
        ((payload >> 3) & 0xffff) as u16,
        (payload >> 2) & 1 == 1,
        (payload & 3) as u8,
    )
    .unwrap()
}

fn read_structure(cursor: &mut Cursor<'_>) -> Result<Alloc, Malformed>
    ensures { Reads (λ x. (x, cursor.new)) result (structure.read cursor.old) }
{
    let word = cursor.u64()?;
    let payload = word >> 13;
    if seal64(payload) != word {
        return Err(Malformed);
    }
    Ok(structure_of(payload))
}

impl Recorded for Alloc {
    ghost form = { λ l. structure };

    fn read(_alloc: Global, cursor: &mut Cursor<'_>, _layout: Layout) -> Result<Self, Stop> {
        Ok(read_structure(cursor)?)
    }
}

// Reads the head of a map and its structures.
fn read_rows(alloc: Global, cursor: &mut Cursor<'_>, layout: Layout) -> Result<Vec<Alloc>, Stop>
    ensures { ReadsValue (λ x. (x.items, cursor.new)) result
        ((counted head MAX_STRUCTURES structure).read cursor.old) }
{
    let count = read_head(cursor)? as usize;
    if count > MAX_STRUCTURES {
        return Err(Stop::Malformed);
    }
    read_list(alloc, cursor, layout, count)
}

// Returns the map of these structures. `Malformed` if they break a rule of maps.
fn checked_map(rows: Vec<Alloc>) -> Result<Map, Malformed>
    ensures { Reads (λ m. m) result (passing is_map rows.items) }
{
    match Map::from_rows(rows) {
        Ok(map) => Ok(map),
        Err(_) => Err(Malformed),
    }
}

impl Recorded for Map {
    ghost form = { λ l. map };

    fn read(alloc: Global, cursor: &mut Cursor<'_>, layout: Layout) -> Result<Self, Stop> {
        let rows = read_rows(alloc, cursor, layout)?;
        Ok(checked_map(rows)?)
    }
}

impl Recorded for MapCert {
    ghost form = { λ l. certificate };

    fn read(alloc: Global, cursor: &mut Cursor<'_>, _layout: Layout) -> Result<Self, Stop> {
        match MapCert::from_bytes(alloc, cursor.rest()) {
            Ok((cert, used)) => {
                cursor.skip(used);
                Ok(cert)
            }
            Err(CertReadFault::Memory) => Err(Stop::Memory),
            Err(_) => Err(Stop::Malformed),
        }
    }
}

impl Recorded for MadeMap {
    ghost form = { λ l. made_map };

    fn read(alloc: Global, cursor: &mut Cursor<'_>, layout: Layout) -> Result<Self, Stop> {
        Ok(MadeMap {
            frame: cursor.frame()?,
            map: Map::read(alloc, cursor, layout)?,
            cert: MapCert::read(alloc, cursor, layout)?,
        })
    }
}
