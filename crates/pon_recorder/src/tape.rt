ghost use Rattle.std.specs.Prelude.{◌≡◌, ℕ, None, OnOk, Option, is_ok, true};
ghost use Rattle.pon_device.specs.Device.{CountsCall};
ghost use Rattle.pon_recorder.specs.Tapes.{tape_failures, tape_most};

use crate::held::Held;
use crate::next_device::NextDevice;
use pon_device::{DevWrite, DeviceFault, Failed};
use std::alloc::Global;
use std::io::{self, ErrorKind, Write};

/// A file of a recording that may go on in another file between two chapters, as another recording.
pub trait FollowedFile<R>: Write {
    /// The number of maps of one port after which the recording goes on in the next file, if there is one.
    ghost most: { Self → Option ℕ };

    /// The number of maps of one port after which the recording goes on in the next file. `None` if it never does.
    fn most_maps(&self) -> Option<u64>
        ensures { result ≡ most self.now };

    /// Makes the next file, which is empty, while this one has these whole chapters. `None` if there is to be none, or none
    /// can be made now.
    fn open_next(&self, rt: &R, alloc: Global, held: Held) -> Option<Self>;

    /// Ends this file, in which the recording ended so, with these whole chapters. What follows them may be cut off.
    ///
    /// # Errors
    ///
    /// The fault of the recording, and `Write` if the file cannot be ended well.
    fn close(
        self,
        rt: &R,
        alloc: Global,
        held: Held,
        recorded: Result<(), DeviceFault>,
    ) -> Result<(), DeviceFault>
        ensures { OnOk result (is_ok recorded ≡ true) };
}

/// A file of a recording as a device, which keeps its last failure. It does not state its bytes.
#[derive(Drop)]
pub struct TapeFile<F> {
    file: F,
    failed: u64,
    error: Option<io::Error>,
}

impl<F> TapeFile<F> {
    /// Makes a device of a file, without a failure.
    pub fn new(file: F) -> Self {
        TapeFile {
            file,
            failed: 0,
            error: None,
        }
    }

    /// Returns the file, and its last failure, if it had one.
    pub fn into_parts(self) -> (F, Option<io::Error>) {
        (self.file, self.error)
    }

    // Makes the device of the next file. It keeps the kind of the last failure.
    fn open_next<R>(&self, rt: &R, alloc: Global, held: Held) -> Option<Self>
    where
        F: FollowedFile<R>,
    {
        let file = self.file.open_next(rt, alloc, held)?;
        let error = match &self.error {
            Some(error) => Some(io::Error::from(error.kind())),
            None => None,
        };
        Some(TapeFile {
            file,
            failed: 0,
            error,
        })
    }

    // Counts a failure, modulo 2^64, and keeps it.
    fn fail(&mut self, error: io::Error) -> Failed
        ensures { CountsCall self.old.failed self.new.failed }
    {
        self.failed = self.failed.wrapping_add(1);
        self.error = Some(error);
        Failed
    }
}

impl<F: Write> DevWrite for TapeFile<F> {
    ghost failures = { λ tape. tape.failed };

    ghost contents = { λ tape. None };

    fn write(&mut self, buf: &[u8]) -> Result<usize, Failed> {
        match self.file.write(buf) {
            Ok(n) if n > 0 || buf.is_empty() => Ok(n),
            Ok(_) => Err(self.fail(io::Error::from(ErrorKind::WriteZero))),
            Err(error) => Err(self.fail(error)),
        }
    }

    fn flush(&mut self) -> Result<(), Failed> {
        match self.file.flush() {
            Ok(()) => Ok(()),
            Err(error) => Err(self.fail(error)),
        }
    }
}

/// The device of a recording: a file, or none if the chapters are only kept until their ports are settled. It does not
/// state its bytes.
#[derive(Drop)]
pub enum Tape<F> {
    /// The chapters are written to this file.
    File(TapeFile<F>),
    /// The chapters are written nowhere.
    Nothing,
}

impl<F: Write> DevWrite for Tape<F> {
    ghost failures = { λ tape. tape_failures tape };

    ghost contents = { λ tape. None };

    fn write(&mut self, buf: &[u8]) -> Result<usize, Failed> {
        match self {
            Tape::File(file) => file.write(buf),
            Tape::Nothing => Ok(buf.len()),
        }
    }

    fn flush(&mut self) -> Result<(), Failed> {
        match self {
            Tape::File(file) => file.flush(),
            Tape::Nothing => Ok(()),
        }
    }
}

impl<R, F: FollowedFile<R> + Drop> NextDevice<R> for Tape<F> {
    ghost most = { λ tape. tape_most F.FollowedFile.most tape };

    fn most_maps(&self) -> Option<u64> {
        match self {
            Tape::File(tape) => tape.file.most_maps(),
            Tape::Nothing => None,
        }
    }

    fn open_next(&self, rt: &R, alloc: Global, held: Held) -> Option<Self> {
        match self {
            Tape::File(tape) => Some(Tape::File(tape.open_next(rt, alloc, held)?)),
            Tape::Nothing => None,
        }
    }

    fn close(
        self,
        rt: &R,
        alloc: Global,
        held: Held,
        recorded: Result<(), DeviceFault>,
    ) -> Result<(), DeviceFault> {
        match self {
            Tape::File(tape) => tape.file.close(rt, alloc, held, recorded),
            Tape::Nothing => recorded,
        }
    }
}
