//! An output whose reader may go away.

use std::io::{self, ErrorKind, Write};

/// An output that notes whether its reader went away.
#[derive(Drop)]
pub(crate) struct Piped<W> {
    inner: W,
    closed: bool,
}

impl<W> Piped<W> {
    /// Makes the output.
    pub(crate) fn new(inner: W) -> Self {
        Piped {
            inner,
            closed: false,
        }
    }

    /// Returns whether a write found that the reader went away.
    pub(crate) fn is_closed(&self) -> bool {
        self.closed
    }

    // Notes whether an error says that the reader went away.
    fn note(&mut self, error: &io::Error) {
        self.closed = self.closed || error.kind() == ErrorKind::BrokenPipe;
    }
}

impl<W: Write> Write for Piped<W> {
    fn write(&mut self, buf: &[u8]) -> io::Result<usize> {
        match self.inner.write(buf) {
            Ok(count) => Ok(count),
            Err(error) => {
                self.note(&error);
                Err(error)
            }
        }
    }

    fn flush(&mut self) -> io::Result<()> {
        match self.inner.flush() {
            Ok(()) => Ok(()),
            Err(error) => {
                self.note(&error);
                Err(error)
            }
        }
    }
}
