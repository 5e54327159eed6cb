//! Reads maps until the end of the input, and answers them.

ghost use Rattle.std.specs.Prelude.{◌≡◌};
ghost use Rattle.pon_lists.specs.Bytes.{AreBytes};
ghost use Rattle.pon_link.specs.Progress.{AnswersHeld, CountsAnswer};
ghost use Rattle.pon_link.specs.Serving.{CountsServing, ServesUntil};

use crate::direction::Direction;
use crate::down_reader::DownReader;
use crate::fault::DownFault;
use crate::pull::{PullFault, Pulled};
use crate::unit::Unit;
use crate::units_fault::UnitsFault;
use crate::writing::answer_map;
use pon_device::{DevRead, DevWrite};
use std::alloc::Global;

// Answers the map that the reader holds, if it is whole.
fn answer_held<W: DevWrite>(
    down: &mut DownReader,
    units: &mut [Unit],
    next: &mut usize,
    writer: &mut W,
) -> Result<(), UnitsFault>
    ensures answers { AnswersHeld down.old down.new units.old units.new
        (W.contents writer.old) (W.contents writer.new) result }
    ensures failures { CountsAnswer (W.failures writer.old) (W.failures writer.new) result }
    ensures bytes { AreBytes down.old.held }
    ensures down { down.old.direction ≡ Direction.Down }
{
    match down.next() {
        Ok(None) => Ok(()),
        Ok(Some(received)) => match answer_map(units, next, &received, writer) {
            Ok(()) => Ok(()),
            Err(_) => Err(UnitsFault::Device),
        },
        Err(DownFault::Link(fault)) => Err(UnitsFault::Link(fault)),
        Err(DownFault::Memory) => Err(UnitsFault::Memory),
    }
}

/// Reads maps until the end of the input, and answers each series of a map with one record, in order. A series is a
/// structure with a start and those after it without one. A unit that owns the Alloc-ID of the first structure answers
/// for that series only, as [`Unit::answer_rows`] does. A series that no unit owns, or whose unit has no report, is
/// answered with ONU-ID 1023, no indications and an occupancy of 0 for each structure. The answers to a map are written
/// before the next map is read, and then the writer is flushed once.
///
/// If several units own an Alloc-ID, the one after the last owner in the slice answers if it is one of them, otherwise
/// the first of them.
///
/// # Errors
///
/// `Device` if a read, a write or a flush failed, or 2^64 - 1 reads were made; then a prefix of the answers to the maps
/// that were read is written. `Link` if the bytes that were read are not a map, or the input ended inside one. `Memory`
/// if memory was refused for a map. After `Link` or `Memory` the answers to all earlier maps are written.
pub fn serve_units<R: DevRead, W: DevWrite>(
    alloc: Global,
    units: &mut [Unit],
    reader: &mut R,
    writer: &mut W,
) -> Result<(), UnitsFault>
    ensures answers { ServesUntil (R.remaining reader.old) (R.remaining reader.new)
        (W.contents writer.old) (W.contents writer.new) units.old units.new result }
    ensures failures { CountsServing record {
      reads = R.calls reader.old;
      failed_reads = R.failures reader.old;
      failed_writes = W.failures writer.old;
    } record {
      reads = R.calls reader.new;
      failed_reads = R.failures reader.new;
      failed_writes = W.failures writer.new;
    } result }
{
    let mut down = DownReader::new(alloc);
    let mut next = 0;
    for _turn in 0..u64::MAX {
        match down.pull(reader) {
            Ok(Pulled::Bytes(_)) => {}
            Ok(Pulled::End) => return Ok(()),
            Err(PullFault::Device) => return Err(UnitsFault::Device),
            Err(PullFault::Link(fault)) => return Err(UnitsFault::Link(fault)),
        }
        match answer_held(&mut down, units, &mut next, writer) {
            Ok(()) => {}
            Err(fault) => return Err(fault),
        }
    }
    Err(UnitsFault::Device)
}
