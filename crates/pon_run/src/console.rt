//! Standard input, a pipe or a device as the lines of an operator, which end at the latest when the workers of a run have
//! ended.

use crate::watch::RunWatch;
use mio::unix::SourceFd;
use mio::{Events, Interest, Poll, Token};
use std::alloc::{AllocError, Global};
use std::io::{self, ErrorKind, Read};
use std::net::Net;
use std::time::Duration;

/// The descriptor of standard input.
pub(crate) const STANDARD_INPUT: i32 = 0;

/// The token of the input.
const INPUT: Token = Token(0);

/// How long a read waits for input before it looks whether the workers have ended, in milliseconds.
const LOOK_MILLISECONDS: u64 = 50;

/// An input that ends when all workers of a run have ended.
#[derive(Drop)]
pub(crate) struct Console<'a, F> {
    input: F,
    descriptor: i32,
    poll: Poll,
    events: Events,
    // Whether the system tells when there is input. It does not for a file, which can always be read.
    tells: bool,
    watch: &'a RunWatch,
}

// Has the system tell when there is input. Returns `false` if it cannot, since the input is a file.
fn register(poll: &Poll, descriptor: i32) -> io::Result<bool> {
    let mut source = SourceFd(&descriptor);
    match poll
        .registry()
        .register(&mut source, INPUT, Interest::READABLE)
    {
        Ok(()) => Ok(true),
        Err(error) if error.kind() == ErrorKind::PermissionDenied => Ok(false),
        Err(error) => Err(error),
    }
}

impl<'a, F: Read + Drop> Console<'a, F> {
    /// Opens the console over an input with this descriptor.
    pub(crate) fn open<R: Net>(
        rt: &R,
        alloc: Global,
        input: F,
        descriptor: i32,
        watch: &'a RunWatch,
    ) -> io::Result<Self> {
        let poll = Poll::new(rt)?;
        let events = Events::with_capacity(alloc, 1)?;
        let tells = register(&poll, descriptor)?;
        Ok(Console {
            input,
            descriptor,
            poll,
            events,
            tells,
            watch,
        })
    }

    // Returns whether there is input, after a short wait for it.
    fn is_ready(&mut self) -> io::Result<bool> {
        let mut source = SourceFd(&self.descriptor);
        let wait = Duration::from_millis(LOOK_MILLISECONDS);
        self.poll
            .registry()
            .reregister(&mut source, INPUT, Interest::READABLE)?;
        self.poll.poll(&mut self.events, Some(wait))?;
        Ok(!self.events.is_empty())
    }
}

impl<'a, F: Read + Drop> Read for Console<'a, F> {
    fn read(&mut self, buf: &mut [u8]) -> io::Result<usize> {
        for _look in 0..u64::MAX {
            if self.watch.is_over() {
                break;
            }
            if !self.tells || self.is_ready()? {
                return self.input.read(buf);
            }
        }
        Ok(0)
    }
}
