//! Management lines at a plant whose chapters are recorded in time, to the end of their input.

ghost use Rattle.std.specs.Prelude.{◌≡◌, length, OnOk};
ghost use Rattle.pon_device.specs.Device.{IsAtEnd};
ghost use Rattle.pon_device.specs.Streams.{TellsRead, TellsWrite};
ghost use Rattle.pon_plant.specs.Plants.{IsPlantSize};
ghost use Rattle.pon_recorder.specs.Whole.{IsSound};
ghost use Rattle.pon_manage.specs.Flushed.{PlannedFlushed};

use crate::at_plant::AtPlant;
use crate::flushed::{CutTimes, FlushedPlant};
use crate::notes::Notes;
use crate::opening::Opening;
use crate::planning::{RecordedPlan, not_begun};
use crate::recorded::RecordedPlant;
use crate::start::start;
use pon_device::{DevRead, DevWrite};
use pon_recorder::Recorder;
use pon_text::answer_input;
use pon_units::MAX_PORTS;
use std::alloc::Global;

/// Answers management lines and records the ports as [`plan_recorded`](crate::plan_recorded) does. Before a map it also cuts
/// and records the chapter of its port, if that is due: the map then is the first entry of the next one. So `cert` and `why`
/// find the last map as before, and only the indices of replies begin at 0 again.
///
/// The faults are those of [`plan_recorded`](crate::plan_recorded). If memory is refused for a cut, the chapter goes on.
pub fn plan_flushed<N: Notes + CutTimes, D: DevWrite + Drop, R: DevRead, W: DevWrite>(
    alloc: Global,
    opening: Opening,
    notes: &mut N,
    recorder: Recorder<D>,
    reader: &mut R,
    writer: &mut W,
) -> RecordedPlan<D>
    requires ports { IsPlantSize (length opening.ports.items) }
    ensures text { PlannedFlushed opening.ports.items opening.steps.items (R.remaining reader.old)
        (R.remaining reader.new) (W.contents writer.old) (W.contents writer.new) result.lines
        (D.contents recorder.file.device) recorder.file.left (D.contents result.recording.device)
        result.recording.result }
    ensures sound { OnOk result.recording.result (IsSound recorder) }
    ensures end { OnOk result.lines (IsAtEnd (R.remaining reader.new)) }
    ensures read { TellsRead (R.calls reader.old) (R.calls reader.new) (R.failures reader.old)
        (R.failures reader.new) result.lines }
    ensures write { TellsWrite (W.failures writer.old) (W.failures writer.new) result.lines }
{
    let Opening { ports, steps } = opening;
    match start(alloc, ports.as_slice(), steps.as_slice()) {
        Ok(plant) => {
            let recorded = RecordedPlant { plant, recorder };
            let mut at = FlushedPlant { recorded };
            let mut answers = AtPlant::new(alloc, notes);
            let lines = answer_input(alloc, &mut answers, &mut at, reader, writer);
            let FlushedPlant { recorded } = at;
            let RecordedPlant { plant, recorder } = recorded;
            prove!(plant.count() <= MAX_PORTS);
            let recording = recorder.end_with(plant.into_ports());
            RecordedPlan { lines, recording }
        }
        Err(_) => not_begun(recorder),
    }
}
