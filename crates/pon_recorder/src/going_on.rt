//! A recording that goes on in the next device.

ghost use Rattle.std.specs.Prelude.{◌≡◌, [], IfSome};
ghost use Rattle.pon_record.specs.Recorders.{Records};
ghost use Rattle.pon_recorder.specs.Held.{nothing_held};
ghost use Rattle.pon_recorder.specs.Whole.{IsSound};

use crate::held::Held;
use crate::next_device::NextDevice;
use crate::recorder::{Ended, Recorder};
use pon_device::{DevWrite, DeviceFault};
use pon_record::RecordFile;
use std::alloc::Global;
use std::mem;

// Begins a recording on the next device. `None` if memory is refused, or the device does not take the magic bytes; then it
// is ended.
fn begin_next<R, W: NextDevice<R> + Drop>(rt: &R, alloc: Global, device: W) -> Option<Recorder<W>>
    ensures begun { IfSome result (λ r. Records (W.DevWrite.contents device) (W.DevWrite.contents r.file.device) [] []) }
    ensures left { IfSome result (λ r. r.file.left ≡ []) }
    ensures held { IfSome result (λ r. r.held ≡ nothing_held) }
{
    let file = RecordFile::open(alloc, device).ok()?;
    if file.left().is_empty() {
        return Some(Recorder::new(file));
    }
    let _failed = file
        .into_writer()
        .close(rt, alloc, Held::nothing(), Err(DeviceFault::Write));
    None
}

impl<W: DevWrite + Drop> Recorder<W> {
    ghost use Rattle.pon_recorder.specs.Going.{GoesOn};
    ghost use Rattle.pon_recorder.specs.Whole.{StaysSound};

    /// Goes on in the next device, if one can be begun: an empty recording begins there, and that in the present device
    /// ends. What kept chapters out of it stays noted for [`Recorder::end`]. Otherwise nothing changes.
    pub(crate) fn go_on<R>(&mut self, rt: &R, alloc: Global)
    where
        W: NextDevice<R>,
        ensures sound { StaysSound self.old self.new }
        ensures next { GoesOn W.DevWrite.contents self.old self.new }
    {
        let Some(device) = self.file.writer().open_next(rt, alloc, self.held) else {
            return;
        };
        let Some(next) = begin_next(rt, alloc, device) else {
            return;
        };
        let before = mem::replace(self, next);
        self.devices = before.devices.saturating_add(1);
        let Ended {
            device,
            held,
            result,
        } = before.end();
        self.earlier = device.close(rt, alloc, held, result);
    }

    /// Tries to go on in the next device, if the present one takes no further chapter.
    pub(crate) fn try_again<R>(&mut self, rt: &R, alloc: Global)
    where
        W: NextDevice<R>,
        ensures sound { StaysSound self.old self.new }
        ensures next { GoesOn W.DevWrite.contents self.old self.new }
    {
        if self.failed {
            self.go_on(rt, alloc);
        }
    }
}
