//! A conversation of an operator with a run: lines from standard input, and replies to standard output.

use crate::client::{connect, failed};
use crate::operator::OperatorStream;
use crate::refusals::Refusals;
use mio::unix::SourceFd;
use mio::{Events, Interest, Poll, Token};
use pon_device::DeviceFault;
use pon_job::{ControlAt, Failure};
use std::alloc::Global;
use std::io::{self, ErrorKind, Read, Write};
use std::net::{Net, TcpStream};
use std::os::fd::AsRawFd;
use std::time::Duration;

/// The descriptor of standard input.
const STANDARD_INPUT: i32 = 0;

/// The token of the connection, and that of standard input.
const RUN: Token = Token(0);

const INPUT: Token = Token(1);

/// How many events one look may give: one of each source.
const SOURCES: usize = 2;

/// How many bytes are read at once.
const PIECE: usize = 4_096;

/// Which side of a conversation failed.
enum Broken {
    Run(io::Error),
    Input,
    Output,
}

impl From<io::Error> for Broken {
    fn from(error: io::Error) -> Self {
        Broken::Run(error)
    }
}

/// A piece of the input, and how many of its bytes are sent.
#[derive(Clone, Copy)]
struct Piece {
    bytes: [u8; PIECE],
    count: usize,
    sent: usize,
}

impl Piece {
    fn none() -> Self {
        Piece {
            bytes: [0; PIECE],
            count: 0,
            sent: 0,
        }
    }

    // Returns what is not sent.
    fn left(&self) -> &[u8] {
        let bytes = self.bytes.get(..self.count).unwrap_or(&[]);
        bytes.get(self.sent..).unwrap_or(&[])
    }
}

/// A conversation with a run.
#[derive(Drop)]
struct Conversation<'a, I> {
    stream: &'a OperatorStream,
    input: I,
    poll: Poll,
    events: Events,
    // Whether the system says when there is input. It does not for a file, which can always be read.
    tells: bool,
    ended: bool,
    piece: Piece,
    // Why the run takes no more lines. It may have replied before.
    lost: Option<io::Error>,
}

// Returns the count of a read or a write. `None` if it would have waited.
fn unless_waiting(made: io::Result<usize>) -> io::Result<Option<usize>> {
    match made {
        Ok(count) => Ok(Some(count)),
        Err(error) if error.kind() == ErrorKind::WouldBlock => Ok(None),
        Err(error) => Err(error),
    }
}

// Has the system say when a descriptor is ready. Returns `false` if it cannot, since the descriptor is of a file.
fn register(poll: &Poll, descriptor: i32, token: Token) -> io::Result<bool> {
    let mut source = SourceFd(&descriptor);
    let registry = poll.registry();
    match registry.register(&mut source, token, Interest::READABLE) {
        Ok(()) => Ok(true),
        Err(error) if error.kind() == ErrorKind::PermissionDenied => Ok(false),
        Err(error) => Err(error),
    }
}

impl<'a, I: Read + Drop> Conversation<'a, I> {
    fn open<R: Net>(
        rt: &R,
        alloc: Global,
        stream: &'a OperatorStream,
        input: I,
    ) -> io::Result<Self> {
        stream.set_nonblocking()?;
        let poll = Poll::new(rt)?;
        let events = Events::with_capacity(alloc, SOURCES)?;
        register(&poll, stream.as_raw_fd(), RUN)?;
        let tells = register(&poll, STANDARD_INPUT, INPUT)?;
        Ok(Conversation {
            stream,
            input,
            poll,
            events,
            tells,
            ended: false,
            piece: Piece::none(),
            lost: None,
        })
    }

    // Waits until the run has replies, takes more of the piece, or there is input that can be sent. Returns whether there may
    // be such input.
    fn wait(&mut self) -> io::Result<bool> {
        let is_sent = self.piece.left().is_empty();
        let wants_input = is_sent && !self.ended;
        let of_run = if is_sent {
            Interest::READABLE
        } else {
            Interest::READABLE | Interest::WRITABLE
        };
        let run = self.stream.as_raw_fd();
        let registry = self.poll.registry();
        registry.reregister(&mut SourceFd(&run), RUN, of_run)?;
        if wants_input && self.tells {
            registry.reregister(&mut SourceFd(&STANDARD_INPUT), INPUT, Interest::READABLE)?;
        }
        let is_file = wants_input && !self.tells;
        let wait = if is_file { Some(Duration::ZERO) } else { None };
        self.poll.poll(&mut self.events, wait)?;
        let has_input = self.events.iter().any(|event| event.token() == INPUT);
        Ok(is_file || (wants_input && has_input))
    }

    // Reads the next piece of the input. At its end this side of the connection is closed for writing.
    fn read_input(&mut self) -> Result<(), Broken> {
        let Ok(count) = self.input.read(&mut self.piece.bytes) else {
            return Err(Broken::Input);
        };
        self.piece.count = count;
        self.piece.sent = 0;
        if count == 0 {
            self.ended = true;
            self.stream.end_writing()?;
        }
        Ok(())
    }

    // Sends as much of the piece as the run takes. If it takes no more at all, its replies are still read.
    fn send(&mut self) {
        let mut stream = self.stream;
        for _write in 0..u64::MAX {
            let left = self.piece.left();
            if left.is_empty() {
                break;
            }
            match unless_waiting(stream.write(left)) {
                Ok(Some(count)) => self.piece.sent = self.piece.sent.saturating_add(count),
                Ok(None) => break,
                Err(error) => {
                    self.lost = Some(error);
                    self.ended = true;
                    self.piece = Piece::none();
                }
            }
        }
    }
}

// Writes the replies that have come, and looks for refusals in them. Returns `false` once the run has closed the connection.
fn pass_replies<W: Write>(
    mut stream: &OperatorStream,
    refusals: &mut Refusals,
    writer: &mut W,
) -> Result<bool, Broken> {
    let mut room = [0; PIECE];
    for _read in 0..u64::MAX {
        let Some(count) = unless_waiting(stream.read(&mut room))? else {
            break;
        };
        let replies = room.get(..count).unwrap_or(&[]);
        if replies.is_empty() {
            return Ok(false);
        }
        refusals.see(replies);
        writer.write_all(replies).map_err(|_| Broken::Output)?;
    }
    writer.flush().map_err(|_| Broken::Output)?;
    Ok(true)
}

// Passes lines and replies until the run closes the connection. Returns whether no line was refused.
fn converse<R: Net + Input + Print>(
    rt: &R,
    alloc: Global,
    stream: &OperatorStream,
) -> Result<bool, Broken> {
    let mut conversation = Conversation::open(rt, alloc, stream, rt.reader())?;
    let mut writer = io::writer(rt);
    let mut refusals = Refusals::none();
    for _look in 0..u64::MAX {
        let has_input = conversation.wait()?;
        if !pass_replies(stream, &mut refusals, &mut writer)? {
            break;
        }
        if has_input {
            conversation.read_input()?;
        }
        conversation.send();
    }
    match conversation.lost {
        Some(error) if !refusals.found() => Err(Broken::Run(error)),
        _ => Ok(!refusals.found()),
    }
}

/// Passes management lines from standard input to a run, and its replies to standard output, until the input ends and all
/// replies have come, or the run ends. Returns whether no line was refused.
///
/// # Errors
///
/// `Read` if no run listens there, or the connection or standard input fails; `Write` if standard output fails; `Memory` if
/// memory is refused.
pub fn operate_run<R>(rt: &R, alloc: Global, at: ControlAt<'_>) -> Result<bool, Failure>
where
    R: Net<Stream = TcpStream> + Input + Print,
{
    let stream = connect(rt, alloc, at)?;
    match converse(rt, alloc, &stream) {
        Ok(accepted) => Ok(accepted),
        Err(Broken::Run(error)) => Err(failed(alloc, at, &error)),
        Err(Broken::Input) => Err(Failure::from(DeviceFault::Read)),
        Err(Broken::Output) => Err(Failure::from(DeviceFault::Write)),
    }
}
