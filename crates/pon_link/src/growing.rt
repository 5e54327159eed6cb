//! Units that grow: an Alloc-ID of a map that no unit owns gets an empty queue at the unit of its ONU.

ghost use Rattle.std.specs.Prelude.{◌≡◌, ◌<◌, ◌==◌, ◌∷◌, [], IfSome, OnOk, length};
ghost use Rattle.std.specs.List.{list_any, position};
ghost use Rattle.pon_device.specs.Device.{IsAtEnd};
ghost use Rattle.pon_link.specs.Growing.{grown};
ghost use Rattle.pon_link.specs.Units.{owns};

use crate::down_reader::DownReader;
use crate::fault::DownFault;
use crate::owner::owner;
use crate::pull::{PullFault, Pulled};
use crate::unit::Unit;
use crate::units_fault::UnitsFault;
use crate::writing::answer_map;
use arrayvec::ArrayVec;
use pon_bwmap::Map;
use pon_device::{DevRead, DevWrite};
use pon_units::{AllocId, MAX_SERIES, OnuId};
use std::alloc::{AllocError, Global};

/// Knows for which ONU an Alloc-ID is admitted.
pub trait Admitted {
    /// Returns the ONU of an Alloc-ID. `None` if it is not admitted.
    fn onu_of(&self, alloc_id: AllocId) -> Option<OnuId>;
}

// Makes the queues of a unit with one empty queue.
fn one_queue(alloc_id: AllocId) -> ArrayVec<(AllocId, u32), MAX_SERIES>
    ensures { result.items ≡ (alloc_id, 0) ∷ [] }
{
    let mut queues = ArrayVec::new();
    queues.push((alloc_id, 0));
    queues
}

// Returns the index of the first unit of the ONU.
fn unit_of(units: &[Unit], onu: OnuId) -> Option<usize>
    ensures place { result ≡ position (λ unit. unit.onu == onu) units.now }
    ensures within { IfSome result (λ place. place < length units.now) }
{
    units.iter().position(|unit| unit.onu() == onu)
}

// Adds an empty queue to the first unit of the ONU, or a unit with it.
fn add_queue(units: &mut Vec<Unit>, onu: OnuId, alloc_id: AllocId) -> Result<(), AllocError>
    ensures { OnOk result (units.new.items ≡ grown units.old.items onu alloc_id) }
{
    match unit_of(units.as_slice(), onu) {
        Some(place) => {
            units[place].add_queue(alloc_id);
            Ok(())
        }
        None => {
            units.push(Unit::open(onu, one_queue(alloc_id)))?;
            Ok(())
        }
    }
}

// Returns whether a unit owns the Alloc-ID, and keeps where the last owner was found: a map names the units in order.
fn is_owned(units: &[Unit], last: &mut usize, alloc_id: u16) -> bool
    ensures { result ≡ list_any (λ unit. owns unit.queues alloc_id) units.now }
{
    if *last < units.len() && units[*last].owns(alloc_id) {
        return true;
    }
    match owner(units, last.saturating_add(1), alloc_id) {
        Some(place) => {
            *last = place;
            true
        }
        None => false,
    }
}

// Adds an empty queue for each Alloc-ID of a map that no unit owns and that is admitted.
fn grow<A: Admitted>(units: &mut Vec<Unit>, admitted: &A, map: &Map) -> Result<(), AllocError> {
    let mut last = 0;
    for row in map.rows() {
        if is_owned(units.as_slice(), &mut last, row.id()) {
            continue;
        }
        let Some(alloc_id) = AllocId::new(row.id()) else {
            continue;
        };
        if let Some(onu) = admitted.onu_of(alloc_id) {
            add_queue(units, onu, alloc_id)?;
        }
    }
    Ok(())
}

// Answers the map that the reader holds, if it is whole, by units that have grown for it.
fn answer_grown<A: Admitted, W: DevWrite>(
    down: &mut DownReader,
    units: &mut Vec<Unit>,
    admitted: &A,
    next: &mut usize,
    writer: &mut W,
) -> Result<(), UnitsFault> {
    match down.next() {
        Ok(None) => Ok(()),
        Ok(Some(received)) => {
            grow(units, admitted, &received.map).map_err(|_| UnitsFault::Memory)?;
            answer_map(units.as_mut_slice(), next, &received, writer).map_err(
                |_| UnitsFault::Device,
            )
        }
        Err(DownFault::Link(fault)) => Err(UnitsFault::Link(fault)),
        Err(DownFault::Memory) => Err(UnitsFault::Memory),
    }
}

/// Reads maps until the end of the input, and answers them as [`serve_units`](crate::serve_units) does, by units that grow:
/// before a map is answered, each of its Alloc-IDs that no unit owns and that is admitted gets an empty queue at the unit of
/// its ONU, or at a new unit. A unit with 16 queues gets no more.
///
/// # Errors
///
/// As [`serve_units`](crate::serve_units); `Memory` also if memory is refused for a unit.
pub fn serve_growing_units<A: Admitted, R: DevRead, W: DevWrite>(
    alloc: Global,
    units: &mut Vec<Unit>,
    admitted: &A,
    reader: &mut R,
    writer: &mut W,
) -> Result<(), UnitsFault>
    ensures { OnOk result (IsAtEnd (R.remaining reader.new)) }
{
    let mut down = DownReader::new(alloc);
    let mut next = 0;
    for _turn in 0..u64::MAX {
        match down.pull(reader) {
            Ok(Pulled::Bytes(_)) => {}
            Ok(Pulled::End) => return Ok(()),
            Err(PullFault::Device) => return Err(UnitsFault::Device),
            Err(PullFault::Link(fault)) => return Err(UnitsFault::Link(fault)),
        }
        answer_grown(&mut down, units, admitted, &mut next, writer)?;
    }
    Err(UnitsFault::Device)
}
