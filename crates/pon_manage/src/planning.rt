//! Management lines at a plant, to the end of their input.

ghost use Rattle.std.specs.Prelude.{◌≡◌, length, Err, OnOk};
ghost use Rattle.pon_device.specs.Device.{IsAtEnd};
ghost use Rattle.pon_device.specs.Streams.{TellsRead, TellsWrite};
ghost use Rattle.pon_device.specs.declared.fault.DeviceFault.TheVariants.{Memory};
ghost use Rattle.pon_plant.specs.Plants.{IsPlantSize};
ghost use Rattle.pon_recorder.specs.Whole.{IsSound};
ghost use Rattle.pon_manage.specs.Planning.{PlannedAfter};
ghost use Rattle.pon_manage.specs.Recorded.{PlannedRecorded};

use crate::at_plant::AtPlant;
use crate::notes::Notes;
use crate::opening::Opening;
use crate::recorded::RecordedPlant;
use crate::start::start;
use pon_device::{DevRead, DevWrite, DeviceFault};
use pon_plant::Step;
use pon_port::PortCfg;
use pon_recorder::{Ended, Recorder};
use pon_text::{PlanEnd, answer_input};
use pon_units::{FrameNo, MAX_PORTS};
use std::alloc::Global;

/// Opens the ports, and takes the steps of their settings, which have no text. Then reads management lines to the end
/// of the input, writes the reply or the refusal of each, and notes each refusal.
///
/// There must be 1 to 64 ports, each with its configuration and first frame, numbered from 0. What is written is the
/// output text of what was read, at the ports as the steps leave them; a step that its port refuses changes nothing.
/// The replies to one read are written before the next read. The writer is flushed once, at the end of the input.
///
/// # Errors
///
/// `Read` if the reader failed or 2^64 - 1 reads were made; then the text of all whole lines read is written. `Write`
/// if the writer failed; then a prefix of the text is written. `Memory` if memory was refused; then the text of some
/// first lines is written, and nothing of the next one. A line without its line feed at a fault is not answered.
/// `Memory` before the first read leaves reader and writer unchanged.
pub fn plan<N: Notes, R: DevRead, W: DevWrite>(
    alloc: Global,
    ports: &[(PortCfg, FrameNo)],
    steps: Vec<Step>,
    notes: &mut N,
    reader: &mut R,
    writer: &mut W,
) -> Result<PlanEnd, DeviceFault>
    requires ports { IsPlantSize (length ports.now) }
    ensures text { PlannedAfter ports.now steps.items (R.remaining reader.old)
        (R.remaining reader.new) (W.contents writer.old) (W.contents writer.new) result }
    ensures end { OnOk result (IsAtEnd (R.remaining reader.new)) }
    ensures read { TellsRead (R.calls reader.old) (R.calls reader.new) (R.failures reader.old)
        (R.failures reader.new) result }
    ensures write { TellsWrite (W.failures writer.old) (W.failures writer.new) result }
{
    let mut plant = start(alloc, ports, steps.as_slice())?;
    let mut answers = AtPlant::new(alloc, notes);
    answer_input(alloc, &mut answers, &mut plant, reader, writer)
}

/// How management lines and the recording of their ports ended.
#[derive(Drop)]
pub struct RecordedPlan<D> {
    /// How the lines ended.
    pub lines: Result<PlanEnd, DeviceFault>,
    /// How the recording ended, and its device.
    pub recording: Ended<D>,
}

// Ends a recording without a chapter: memory was refused before the first read.
pub(crate) fn not_begun<D: DevWrite + Drop>(recorder: Recorder<D>) -> RecordedPlan<D>
    ensures lines { result.lines ≡ Err Memory }
    ensures recording { result.recording.result ≡ Err Memory }
{
    let Ended {
        device,
        held,
        result: _,
    } = recorder.end();
    RecordedPlan {
        lines: Err(DeviceFault::Memory),
        recording: Ended {
            device,
            held,
            result: Err(DeviceFault::Memory),
        },
    }
}

/// Answers management lines as [`plan`] does, and records the ports. Where an event would be refused only because the
/// chapter of its port is full, the port is turned: its chapter is recorded, and the next one takes the event.
///
/// However the lines end, the chapter that each port keeps is recorded after all others, and the recording is ended. If
/// it ends well, it has every chapter of the ports, each port's in order. A recorder that takes no further chapter
/// stops no line.
///
/// The faults of the lines are those of [`plan`]; `Memory` also if memory is refused for the next chapter of a port.
/// The recording ends with `Write` if its device failed three times in a row, and with `Memory` if memory was refused
/// for a chapter, or before the first read.
pub fn plan_recorded<N: Notes, D: DevWrite + Drop, R: DevRead, W: DevWrite>(
    alloc: Global,
    opening: Opening,
    notes: &mut N,
    recorder: Recorder<D>,
    reader: &mut R,
    writer: &mut W,
) -> RecordedPlan<D>
    requires ports { IsPlantSize (length opening.ports.items) }
    ensures text { PlannedRecorded opening.ports.items opening.steps.items (R.remaining reader.old)
        (R.remaining reader.new) (W.contents writer.old) (W.contents writer.new) result.lines
        (D.contents recorder.file.device) recorder.file.left (D.contents result.recording.device)
        result.recording.result }
    ensures sound { OnOk result.recording.result (IsSound recorder) }
    ensures end { OnOk result.lines (IsAtEnd (R.remaining reader.new)) }
    ensures read { TellsRead (R.calls reader.old) (R.calls reader.new) (R.failures reader.old)
        (R.failures reader.new) result.lines }
    ensures write { TellsWrite (W.failures writer.old) (W.failures writer.new) result.lines }
{
    let Opening { ports, steps } = opening;
    match start(alloc, ports.as_slice(), steps.as_slice()) {
        Ok(plant) => {
            let mut at = RecordedPlant { plant, recorder };
            let mut answers = AtPlant::new(alloc, notes);
            let lines = answer_input(alloc, &mut answers, &mut at, reader, writer);
            let RecordedPlant { plant, recorder } = at;
            prove!(plant.count() <= MAX_PORTS);
            let recording = recorder.end_with(plant.into_ports());
            RecordedPlan { lines, recording }
        }
        Err(_) => not_begun(recorder),
    }
}
