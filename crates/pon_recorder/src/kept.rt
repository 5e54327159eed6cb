//! The chapters that ports keep, at the end of a recording.

ghost use Rattle.std.specs.Prelude.{◌<◌, ◌≤◌, ◌∷◌, []};
ghost use Rattle.std.specs.Vec.{vec_len};
ghost use Rattle.pon_record.specs.Bodies.{chapter_body};
ghost use Rattle.pon_recorder.specs.Whole.{RecordsAll, all_kept};

use crate::recorder::{Ended, Recorder};
use pon_device::DevWrite;
use pon_port::Port;
use pon_units::{MAX_PORTS, PortNo};

// Records the chapter that a port keeps, as that of the port at this place.
fn append_port<W: DevWrite + Drop>(recorder: &mut Recorder<W>, place: usize, port: Port)
    requires { place < MAX_PORTS }
    ensures { RecordsAll recorder.old recorder.new (W.contents recorder.old.file.device)
        (W.contents recorder.new.file.device) (chapter_body place port ∷ []) }
{
    let chapter = port.into_chapter();
    let _taken = recorder.append(PortNo::at(place), &chapter);
}

// Records the chapter that each port keeps, in order, the first as that of port 0.
fn append_kept<W: DevWrite + Drop>(recorder: &mut Recorder<W>, ports: Vec<Port>)
    requires { vec_len ports ≤ MAX_PORTS }
    ensures { RecordsAll recorder.old recorder.new (W.contents recorder.old.file.device)
        (W.contents recorder.new.file.device) (all_kept ports.items) }
{
    let mut place = 0;
    for port in ports {
        append_port(recorder, place, port);
        place += 1;
    }
}

impl<W: DevWrite + Drop> Recorder<W> {
    ghost use Rattle.std.specs.Prelude.{[], OnOk};
    ghost use Rattle.pon_recorder.specs.Recordings.{HasRecorded};
    ghost use Rattle.pon_recorder.specs.Whole.{IsSound};

    /// Records the chapter that each port keeps, in order, the first as that of port 0, and ends the recording as
    /// [`Recorder::end`] does. There are at most 64 ports.
    pub fn end_with(mut self, ports: Vec<Port>) -> Ended<W>
        requires { vec_len ports ≤ MAX_PORTS }
        ensures sound { OnOk result.result (IsSound self) }
        ensures written { OnOk result.result (HasRecorded (W.contents self.file.device) self.file.left
            (W.contents result.device) [] (all_kept ports.items)) }
    {
        append_kept(&mut self, ports);
        self.end()
    }
}
