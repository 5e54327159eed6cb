//! A connection of an operator: over a Unix socket or TCP.

use std::io::{self, Read, Write};
use std::net::{Shutdown, TcpStream};
use std::os::fd::{AsRawFd, OwnedFd, RawFd};
use std::os::unix::net::UnixStream;
use std::time::Duration;

/// An end of a connection between an operator and a run, over a Unix socket or TCP. What is done with it is the same for both,
/// so that it is kept as a Unix socket.
#[derive(Drop)]
pub struct OperatorStream(UnixStream);

impl From<UnixStream> for OperatorStream {
    fn from(stream: UnixStream) -> Self {
        OperatorStream(stream)
    }
}

impl From<TcpStream> for OperatorStream {
    fn from(stream: TcpStream) -> Self {
        OperatorStream(UnixStream::from(OwnedFd::from(stream)))
    }
}

impl OperatorStream {
    /// Sets how long a write may wait for the other end; one that waits longer fails with `WouldBlock`.
    ///
    /// # Errors
    ///
    /// That of the system, if it does not set it, and `InvalidInput` for no time.
    pub fn set_write_timeout(&self, wait: Duration) -> io::Result<()> {
        self.0.set_write_timeout(Some(wait))
    }

    /// Has each read and write that would wait fail with `WouldBlock`.
    ///
    /// # Errors
    ///
    /// That of the system, if it does not do so.
    pub fn set_nonblocking(&self) -> io::Result<()> {
        self.0.set_nonblocking(true)
    }

    /// Says to the other end that nothing more is written.
    pub(crate) fn end_writing(&self) -> io::Result<()> {
        self.0.shutdown(Shutdown::Write)
    }
}

impl AsRawFd for OperatorStream {
    fn as_raw_fd(&self) -> RawFd {
        self.0.as_raw_fd()
    }
}

impl Read for &OperatorStream {
    fn read(&mut self, buf: &mut [u8]) -> io::Result<usize> {
        let mut stream = &self.0;
        stream.read(buf)
    }
}

impl Write for &OperatorStream {
    fn write(&mut self, buf: &[u8]) -> io::Result<usize> {
        let mut stream = &self.0;
        stream.write(buf)
    }

    fn flush(&mut self) -> io::Result<()> {
        Ok(())
    }
}
