//! The end of a run at a connection of an operator, as a writer.

use crate::watch::RunWatch;
use pon_sockets::OperatorStream;
use std::io::{self, ErrorKind, Write};
use std::time::Duration;

/// How long a write waits before it looks whether the workers have ended, in milliseconds.
const LOOK_MILLISECONDS: u64 = 50;

/// For how long an operator may read nothing, in milliseconds. Then its connection is closed.
const PATIENCE_MILLISECONDS: u64 = 10_000;

/// How often a write looks before it fails.
const LOOKS: u64 = PATIENCE_MILLISECONDS / LOOK_MILLISECONDS;

/// Writes replies to an operator, which may be slow to read them. A write fails if the operator reads nothing for 10 seconds,
/// or does not read it before the workers have ended.
#[derive(Drop)]
pub(crate) struct ReplyWriter<'a> {
    stream: &'a OperatorStream,
    watch: &'a RunWatch,
}

impl<'a> ReplyWriter<'a> {
    pub(crate) fn open(stream: &'a OperatorStream, watch: &'a RunWatch) -> io::Result<Self> {
        stream.set_write_timeout(Duration::from_millis(LOOK_MILLISECONDS))?;
        Ok(ReplyWriter { stream, watch })
    }
}

impl Write for ReplyWriter<'_> {
    fn write(&mut self, buf: &[u8]) -> io::Result<usize> {
        let mut stream = self.stream;
        for _look in 0..LOOKS {
            match stream.write(buf) {
                Err(error) if error.kind() == ErrorKind::WouldBlock => {}
                written => return written,
            }
            if self.watch.is_over() {
                break;
            }
        }
        Err(io::Error::from(ErrorKind::TimedOut))
    }

    fn flush(&mut self) -> io::Result<()> {
        Ok(())
    }
}
