//! The beginning of a recording.

ghost use Rattle.std.specs.Prelude.{◌≡◌, [], false, IfOk};
ghost use Rattle.pon_record.specs.Recorders.{Records};

use crate::recorder::Recorder;
use crate::tape::{Tape, TapeFile};
use pon_device::{DevWrite, DeviceFault};
use pon_record::RecordFile;
use std::alloc::Global;
use std::io::Write;

impl<W: DevWrite + Drop> Recorder<W> {
    ghost use Rattle.pon_recorder.specs.Whole.{IsSound};

    /// Begins a recording on a device: writes its magic bytes.
    ///
    /// # Errors
    ///
    /// `Write` if the device does not take the magic bytes, and `Memory` if memory is refused.
    pub fn begin(alloc: Global, device: W) -> Result<Self, DeviceFault>
        ensures begun { IfOk result (λ r. Records (W.contents device) (W.contents r.file.device) [] []) }
        ensures left { IfOk result (λ r. r.file.left ≡ []) }
        ensures sound { IfOk result IsSound }
    {
        let file = RecordFile::open(alloc, device)?;
        if file.left().is_empty() {
            Ok(Recorder::new(file))
        } else {
            Err(DeviceFault::Write)
        }
    }
}

/// Begins a recording in this file.
///
/// # Errors
///
/// As for [`Recorder::begin`].
pub fn record_to<F: Write + Drop>(
    alloc: Global,
    file: F,
) -> Result<Recorder<Tape<F>>, DeviceFault> {
    Recorder::begin(alloc, Tape::File(TapeFile::new(file)))
}

/// Begins a recording in this file; without a file, in none, if the chapters are kept to settle their ports. `None` if
/// no chapters are wanted.
///
/// # Errors
///
/// As for [`Recorder::begin`].
pub fn open_recorder<F: Write + Drop>(
    alloc: Global,
    file: Option<F>,
    settle: bool,
) -> Result<Option<Recorder<Tape<F>>>, DeviceFault> {
    match file {
        Some(file) => Ok(Some(record_to(alloc, file)?)),
        None if settle => Ok(Some(Recorder::begin(alloc, Tape::Nothing)?)),
        None => Ok(None),
    }
}
