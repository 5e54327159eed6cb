//! The parts of the upstream frame that a map assigns.

ghost use Rattle.std.specs.Prelude.{◌≡◌, IfOk};
ghost use Rattle.pon_draw.specs.Places.{first_words};

use pon_bwmap::{Alloc, Map};
use std::alloc::{AllocError, Global};

/// Words of a burst header, and of a trailer.
pub(crate) const HEADER_WORDS: u64 = 1;

/// Returns the first word of each grant of a map, counted from the beginning of the frame. A grant begins after the
/// header if its structure starts a burst, and otherwise after the grant before it.
///
/// # Errors
///
/// `AllocError` only if memory is refused.
pub fn grant_places(alloc: Global, map: &Map) -> Result<Vec<u64>, AllocError>
    ensures { IfOk result (λ places. places.items ≡ first_words 0 map.now) }
{
    let structures = map.rows();
    let mut places = Vec::with_capacity(alloc, structures.len())?;
    let mut next = 0;
    for structure in structures {
        let first = match structure.start() {
            Some(start) => u64::from(start) + HEADER_WORDS,
            None => next,
        };
        places.push(first)?;
        next = first + u64::from(structure.grant());
    }
    Ok(places)
}

/// The burst of an ONU: its first structure and the number after its last one, counted from 0 in the map, the word of
/// its header, and the word of its trailer.
#[derive(Clone, Copy)]
pub(crate) struct Burst {
    pub(crate) first: usize,
    pub(crate) end: usize,
    pub(crate) header: u64,
    pub(crate) trailer: u64,
}

/// Returns the bursts of a map, of which the grants have these places. `Err` only if memory is refused.
pub(crate) fn bursts_of(
    alloc: Global,
    structures: &[Alloc],
    places: &[u64],
) -> Result<Vec<Burst>, AllocError> {
    let mut bursts: Vec<Burst> = Vec::new(alloc);
    for (k, (structure, place)) in structures.iter().zip(places).enumerate() {
        let trailer = place.saturating_add(u64::from(structure.grant()));
        match (structure.start(), bursts.last_mut()) {
            (None, Some(burst)) => {
                burst.end = k + 1;
                burst.trailer = trailer;
            }
            (start, _) => bursts.push(Burst {
                first: k,
                end: k + 1,
                header: start.map_or(0, u64::from),
                trailer,
            })?,
        }
    }
    Ok(bursts)
}
