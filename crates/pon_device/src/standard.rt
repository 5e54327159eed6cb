// Readers and writers of std as devices: if std specifies which bytes they contain, so does the device.
ghost use Rattle.std.specs.Prelude.{◌≡◌};

use crate::traits::{DevRead, DevWrite, Failed, fail};
use std::io;
use std::marker::Model;

/// A reader of std as a device: each error that it returns is a failure, including an interrupted read.
#[derive(Drop)]
pub struct StdRead<R> {
    inner: R,
    made: u64,
    failed: u64,
}

impl<R> Model for StdRead<R> {
    ghost use Rattle.pon_device.specs.Counts.{CountedRead};

    ghost Value = { CountedRead R };

    ghost view = { λ s. record { inner = s.inner; calls = s.made; failures = s.failed } };
}

impl<R> StdRead<R> {
    /// Makes a device of a reader, with no reads counted.
    pub fn new(inner: R) -> Self
        ensures { result ≡ record { inner = inner; calls = 0; failures = 0 } }
    {
        StdRead {
            inner,
            made: 0,
            failed: 0,
        }
    }
}

impl<R: io::Read> DevRead for StdRead<R> {
    ghost calls = { λ s. s.calls };

    ghost failures = { λ s. s.failures };

    ghost remaining = { λ s. R.remaining s.inner };

    fn read(&mut self, buf: &mut [u8]) -> Result<usize, Failed> {
        self.made = self.made.wrapping_add(1);
        match self.inner.read(buf) {
            Ok(n) => Ok(n),
            Err(_) => Err(fail(&mut self.failed)),
        }
    }
}

/// A writer of std as a device: each error that it returns is a failure, including an interrupted write, and so is a
/// write that takes no byte of a piece that is not empty.
#[derive(Drop)]
pub struct StdWrite<W> {
    inner: W,
    failed: u64,
}

impl<W> Model for StdWrite<W> {
    ghost use Rattle.pon_device.specs.Counts.{CountedWrite};

    ghost Value = { CountedWrite W };

    ghost view = { λ s. record { inner = s.inner; failures = s.failed } };
}

impl<W> StdWrite<W> {
    /// Makes a device of a writer, with no failures counted.
    pub fn new(inner: W) -> Self
        ensures { result ≡ record { inner = inner; failures = 0 } }
    {
        StdWrite { inner, failed: 0 }
    }
}

impl<W: io::Write> DevWrite for StdWrite<W> {
    ghost failures = { λ s. s.failures };

    ghost contents = { λ s. W.contents s.inner };

    fn write(&mut self, buf: &[u8]) -> Result<usize, Failed> {
        match self.inner.write(buf) {
            Ok(n) if n > 0 || buf.is_empty() => Ok(n),
            _ => Err(fail(&mut self.failed)),
        }
    }

    fn flush(&mut self) -> Result<(), Failed> {
        if self.inner.flush().is_err() {
            return Err(fail(&mut self.failed));
        }
        Ok(())
    }
}
