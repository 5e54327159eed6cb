//! Lines at a plant whose chapters are recorded also before they are full: before a map, when its time has come.

ghost use Rattle.std.specs.Prelude.{◌≡◌, ◌<◌, ◌⊎◌, IfSome, length};
ghost use Rattle.pon_history.specs.Chapters.{Chapter};
ghost use Rattle.pon_line.specs.Reading.{AsksWithin};
ghost use Rattle.pon_plant.specs.Turning.{TurnsPort};
ghost use Rattle.pon_manage.specs.Flushed.{CutsBefore, GivesAndCuts, RecordsInTime, flushed_gives_first, in_time_path};
ghost use Rattle.pon_manage.specs.Recorded.{RecordsTurned};

use crate::answer::port_no;
use crate::at_plant::AtPlant;
use crate::notes::Notes;
use crate::recorded::{RecordedPlant, answer_in_room};
use pon_device::DevWrite;
use pon_line::{Reading, read_line};
use pon_plant::Plant;
use pon_port::Event;
use pon_text::Answers;
use pon_units::PortNo;
use std::alloc::AllocError;

/// Says when the chapter of a port is cut and recorded, though it is not full.
pub trait CutTimes {
    /// Returns whether the chapter of this port is cut now, before its next map.
    fn is_due(&mut self, port: PortNo) -> bool;
}

/// A plant whose ports are recorded, and whose chapters are cut before a map when that is due.
#[derive(Drop)]
pub(crate) struct FlushedPlant<D> {
    pub(crate) recorded: RecordedPlant<D>,
}

// Returns whether a port has entries that are not recorded yet.
fn has_entries(plant: &Plant, port: PortNo) -> bool {
    match plant.port(port) {
        Some(port) => !port.history().is_empty(),
        None => false,
    }
}

// Turns a port, and records its chapter. If memory for the next chapter is refused, nothing happens.
fn cut<D: DevWrite + Drop>(at: &mut RecordedPlant<D>, port: PortNo)
    requires { port < length at.old.plant }
    ensures turned { (at.new.plant ≡ at.old.plant)
        ⊎ ((chapter : Chapter) × TurnsPort at.old.plant port chapter at.new.plant) }
    ensures path { RecordsTurned D.contents at.old at.new }
{
    match at.plant.turn(port) {
        Ok(chapter) => {
            let _taken = at.recorder.append(port, &chapter);
        }
        Err(_) => {}
    }
}

// Returns whether the chapter of a port has entries, and its time has come.
fn is_due<C: CutTimes>(plant: &Plant, port: PortNo, times: &mut C) -> bool {
    has_entries(plant, port) && times.is_due(port)
}

// Returns the port that a reading asks for a map.
fn map_port(reading: &Reading) -> Option<usize>
    ensures { IfSome result (λ port. reading.now ≡ Reading.Asks port Event.MakeMap) }
{
    match reading {
        Reading::Asks {
            port,
            event: Event::MakeMap,
        } => Some(*port),
        _ => None,
    }
}

// Before a map cuts the chapter of its port, if that is due and the chapter has entries.
fn cut_before<C: CutTimes, D: DevWrite + Drop>(
    at: &mut RecordedPlant<D>,
    reading: &Reading,
    times: &mut C,
)
    requires { AsksWithin (length at.old.plant) reading.now }
    ensures cuts { CutsBefore at.old.plant reading.now at.new.plant }
    ensures path { RecordsTurned D.contents at.old at.new }
{
    let Some(place) = map_port(reading) else {
        return;
    };
    let port = port_no(&at.plant, place);
    if !is_due(&at.plant, port, times) {
        return;
    }
    cut(at, port);
}

impl<'a, N: Notes + CutTimes, D: DevWrite + Drop> Answers<FlushedPlant<D>> for AtPlant<'a, N> {
    ghost gives = { GivesAndCuts };

    ghost path = { RecordsInTime D.contents };

    fn answer_line(
        &mut self,
        at: &mut FlushedPlant<D>,
        line: &[u8],
        replies: &mut Vec<u8>,
    ) -> Result<(), AllocError> {
        let reading = read_line(at.recorded.plant.count(), line);
        cut_before(&mut at.recorded, &reading, self.notes);
        let refusal = answer_in_room(&mut at.recorded, reading, &mut self.room, replies)?;
        self.note(&at.recorded.plant, line, refusal);
        Ok(())
    }

    ghost reads_first = { flushed_gives_first };

    ghost is_path = { in_time_path D.contents };
}
