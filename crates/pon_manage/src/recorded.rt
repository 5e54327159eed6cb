//! Lines at a plant whose full chapters are recorded.

ghost use Rattle.std.specs.Prelude.{◌≡◌, ◌<◌, ◌++◌, ℕ, List, IfOk, OnErr, OnOk, length};
ghost use Rattle.pon_line.specs.Reading.{AsksWithin};
ghost use Rattle.pon_manage.specs.Paths.{records_path, recorded_gives_first};
ghost use Rattle.pon_manage.specs.Refusals.{IsRefusalInRoom};
ghost use Rattle.pon_manage.specs.Recorded.{AnswersInRoom, GivesRecorded, MakesRoom, MakesRoomFor, RecordsTurned};

use crate::answer::{answer, port_no};
use crate::at_plant::AtPlant;
use crate::notes::Notes;
use pon_device::DevWrite;
use pon_line::{LineRefusal, Reading, read_line};
use pon_plant::Plant;
use pon_port::Event;
use pon_recorder::Recorder;
use pon_text::Answers;
use std::alloc::AllocError;

/// A plant, and the recorder that takes the chapters of its ports.
#[derive(Drop)]
pub(crate) struct RecordedPlant<D> {
    pub(crate) plant: Plant,
    pub(crate) recorder: Recorder<D>,
}

// Turns a port if its chapter is full for an event, and records the chapter. `Err` only if memory for the next chapter is
// refused; then nothing has changed.
fn make_room<D: DevWrite + Drop>(
    at: &mut RecordedPlant<D>,
    port: usize,
    event: &Event,
) -> Result<(), AllocError>
    requires { port < length at.old.plant }
    ensures ok { OnOk result (MakesRoom at.old.plant port event.now at.new.plant) }
    ensures path { RecordsTurned D.contents at.old at.new }
{
    let port = port_no(&at.plant, port);
    if !at.plant.is_full(port, event) {
        return Ok(());
    }
    match at.plant.turn(port) {
        Ok(chapter) => {
            let _taken = at.recorder.append(port, &chapter);
            Ok(())
        }
        Err(_) => Err(AllocError),
    }
}

// Turns the port of a reading if its chapter is full for the event, as `make_room` does.
fn make_room_for<D: DevWrite + Drop>(
    at: &mut RecordedPlant<D>,
    reading: &Reading,
) -> Result<(), AllocError>
    requires { AsksWithin (length at.old.plant) reading.now }
    ensures ok { OnOk result (MakesRoomFor at.old.plant reading.now at.new.plant) }
    ensures path { RecordsTurned D.contents at.old at.new }
{
    match reading {
        Reading::Asks { port, event } => make_room(at, *port, event),
        _ => Ok(()),
    }
}

/// Appends the text of a reading, at a port that has room for its event, and returns the refusal if it is one. `Err` only if
/// memory is refused; then the replies are unchanged.
pub(crate) fn answer_in_room<D: DevWrite + Drop>(
    at: &mut RecordedPlant<D>,
    reading: Reading,
    room: &mut Vec<u8>,
    replies: &mut Vec<u8>,
) -> Result<Option<LineRefusal>, AllocError>
    requires { AsksWithin (length at.old.plant) reading }
    ensures ok { OnOk result ((text : List ℕ) × AnswersInRoom at.old.plant reading text at.new.plant
        × (replies.new.items ≡ replies.old.items ++ text)) }
    ensures err { OnErr result (replies.new.items ≡ replies.old.items) }
    ensures refusal { IfOk result (IsRefusalInRoom at.old.plant reading) }
    ensures path { RecordsTurned D.contents at.old at.new }
{
    make_room_for(at, &reading)?;
    answer(&mut at.plant, reading, room, replies)
}

impl<'a, N: Notes, D: DevWrite + Drop> Answers<RecordedPlant<D>> for AtPlant<'a, N> {
    ghost gives = { GivesRecorded };

    ghost path = { RecordsTurned D.contents };

    fn answer_line(
        &mut self,
        at: &mut RecordedPlant<D>,
        line: &[u8],
        replies: &mut Vec<u8>,
    ) -> Result<(), AllocError> {
        let reading = read_line(at.plant.count(), line);
        let refusal = answer_in_room(at, reading, &mut self.room, replies)?;
        self.note(&at.plant, line, refusal);
        Ok(())
    }

    ghost reads_first = { recorded_gives_first };

    ghost is_path = { records_path D.contents };
}
