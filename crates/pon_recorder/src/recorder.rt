//! The recorder of a run: it takes the chapters of all ports out of their rings, and appends them to the file.

ghost use Rattle.std.specs.Prelude.{◌≡◌, [], ◌∷◌, OnOk, is_ok, true, false};
ghost use Rattle.pon_record.specs.Bodies.{chapter_body};
ghost use Rattle.pon_record.specs.Recorders.{Stays};
ghost use Rattle.pon_recorder.specs.Recordings.{HasRecorded, IsDropped, TakesChapters};

use crate::held::Held;
use pon_device::{DevWrite, DeviceFault};
use pon_port::Chapter;
use pon_record::RecordFile;
use pon_units::PortNo;

/// Maximum number of attempts in a row to write a chapter to a file that fails.
const MAX_TRIES: u32 = 3;

/// How a recording ended, and its device.
#[derive(Drop)]
pub struct Ended<W> {
    /// The device that the recording was written to.
    pub device: W,
    /// The whole chapters that the device has.
    pub held: Held,
    /// `Write` if the device or one before it failed, or a sink was lost; `Memory` if memory was refused for a chapter.
    pub result: Result<(), DeviceFault>,
}

/// The file of a recording, and what kept chapters out of it: the file failed, or memory was refused. Between two chapters
/// it may go on in another file, as another recording.
#[derive(Drop)]
pub struct Recorder<W> {
    pub(crate) file: RecordFile<W>,
    // Whether the file failed three times in a row: it takes no further chapter.
    pub(crate) failed: bool,
    // Whether memory was refused for a chapter.
    lacked_memory: bool,
    // How the recordings in the devices before this one ended.
    pub(crate) earlier: Result<(), DeviceFault>,
    // The whole chapters in this device.
    pub(crate) held: Held,
    // Number of the devices before this one, at most 2^64 - 1.
    pub(crate) devices: u64,
    ghost whole: { failed ≡ false → file.left ≡ [] },
}

// Writes what is left of a chapter, in at most two further attempts. Returns whether nothing is left.
fn write_rest<W: DevWrite + Drop>(file: &mut RecordFile<W>) -> bool
    ensures same { Stays (W.contents file.old.device) file.old.left (W.contents file.new.device)
        file.new.left }
    ensures whole { result ≡ true → file.new.left ≡ [] }
{
    for _try in 1..MAX_TRIES {
        if file.flush().is_ok() {
            return true;
        }
    }
    false
}

// Flushes the file of a recorder that ends, if it has not failed. `earlier` is how the recordings before it ended.
fn flush_end<W: DevWrite + Drop>(
    file: &mut RecordFile<W>,
    failed: bool,
    lacked_memory: bool,
    earlier: Result<(), DeviceFault>,
) -> Result<(), DeviceFault>
    ensures file { OnOk result (failed ≡ false) }
    ensures memory { OnOk result (lacked_memory ≡ false) }
    ensures earlier { OnOk result (is_ok earlier ≡ true) }
    ensures same { OnOk result (Stays (W.contents file.old.device) file.old.left (W.contents file.new.device)
        []) }
{
    if failed || file.flush().is_err() {
        return Err(DeviceFault::Write);
    }
    if lacked_memory {
        return Err(DeviceFault::Memory);
    }
    earlier
}

impl<W: DevWrite + Drop> Recorder<W> {
    ghost use Rattle.pon_recorder.specs.Held.{held_after, nothing_held};
    ghost use Rattle.pon_recorder.specs.Whole.{IsSound, RecordsAll};

    /// Makes a recorder of a recording with nothing left to write.
    pub(crate) fn new(file: RecordFile<W>) -> Self
        requires { file.left ≡ [] }
        ensures file { result.file ≡ file }
        ensures held { result.held ≡ nothing_held }
        ensures sound { IsSound result }
    {
        Recorder {
            file,
            failed: false,
            lacked_memory: false,
            earlier: Ok(()),
            held: Held::nothing(),
            devices: 0,
        }
    }

    /// Appends a chapter of a port. Returns `false` if it is dropped: memory is refused for it, or the file failed three
    /// times in a row, now or earlier. Both are noted for [`Recorder::end`].
    pub fn append(&mut self, port: PortNo, chapter: &Chapter) -> bool
        ensures sound { IsSound self.new → IsSound self.old × (result ≡ true) }
        ensures recorded { result ≡ true → HasRecorded (W.contents self.old.file.device)
            self.old.file.left (W.contents self.new.file.device) self.new.file.left
            (chapter_body port chapter.now ∷ []) }
        ensures dropped { result ≡ false → IsDropped (W.contents self.old.file.device)
            self.old.file.left (W.contents self.new.file.device) self.new.file.left self.new.failed
            (chapter_body port chapter.now) }
        ensures held { self.new.held ≡ held_after self.old.held result (chapter_body port chapter.now) }
    {
        if self.failed {
            return false;
        }
        let Ok(bytes) = self.file.chapter_bytes(port, chapter) else {
            self.lacked_memory = true;
            return false;
        };
        let size = bytes.len();
        if self.file.write_next(bytes).is_ok() {
            self.held.add(size);
            return true;
        }
        if !write_rest(&mut self.file) {
            self.failed = true;
            return false;
        }
        self.held.add(size);
        true
    }

    /// Records a chapter of a port, or counts it as dropped. Returns whether it is recorded.
    pub(crate) fn record(&mut self, port: PortNo, chapter: &Chapter, dropped: &mut u64) -> bool
        ensures held { self.new.held ≡ held_after self.old.held result (chapter_body port chapter.now) }
        ensures all { RecordsAll self.old self.new (W.contents self.old.file.device)
            (W.contents self.new.file.device) (chapter_body port chapter.now ∷ []) }
        ensures taken { TakesChapters (W.contents self.old.file.device) self.old.file.left
            (W.contents self.new.file.device) self.new.file.left dropped.old dropped.new
            (chapter_body port chapter.now ∷ []) }
    {
        if !self.append(port, chapter) {
            *dropped = dropped.saturating_add(1);
            return false;
        }
        true
    }

    /// Flushes the file, and returns it with how the recording ended: `Write` if the file failed three times in a row, or
    /// fails now, `Memory` if memory was refused for a chapter, and the fault of a recording in an earlier device.
    pub fn end(self) -> Ended<W>
        ensures held { result.held ≡ self.held }
        ensures sound { OnOk result.result (IsSound self) }
        ensures written { OnOk result.result (Stays (W.contents self.file.device) self.file.left
            (W.contents result.device) []) }
    {
        let Recorder {
            mut file,
            failed,
            lacked_memory,
            earlier,
            held,
            devices: _,
        } = self;
        let result = flush_end(&mut file, failed, lacked_memory, earlier);
        Ended {
            device: file.into_writer(),
            held,
            result,
        }
    }
}
