//! The other end of an operator's connection: a program that stops a run, or passes lines to it.

use crate::control::control_address;
use crate::operator::OperatorStream;
use pon_device::DeviceFault;
use pon_job::{ControlAt, Failure, Named};
use std::alloc::Global;
use std::io::{self, ErrorKind, Read, Write};
use std::net::{Net, TcpStream};
use std::os::unix::net::UnixStream;

/// The line that stops a run. Each run has a port 0.
const STOP_LINE: &[u8] = b"0 stop\n";

/// The reply to it.
const STOP_REPLY: &[u8] = b"ok stop\n";

/// How many bytes of a reply are kept and shown.
const MAX_SHOWN: usize = 128;

// The name of a control socket.
fn named(at: ControlAt<'_>) -> Named<'_> {
    match at {
        ControlAt::Path(name) | ControlAt::Tcp(name) => Named::Control(name),
    }
}

// Connects with a run.
fn connect_at<R>(rt: &R, alloc: Global, at: ControlAt<'_>) -> io::Result<OperatorStream>
where
    R: Net<Stream = TcpStream>,
{
    match at {
        ControlAt::Path(path) => Ok(OperatorStream::from(UnixStream::connect(rt, path)?)),
        ControlAt::Tcp(address) => {
            let address = control_address(alloc, address)?;
            let stream = TcpStream::connect(rt, address.as_str())?;
            stream.set_nodelay(true)?;
            Ok(OperatorStream::from(stream))
        }
    }
}

/// Connects with a run as an operator.
///
/// # Errors
///
/// `Read` if nobody listens there, and `Memory` if memory is refused.
pub(crate) fn connect<R>(
    rt: &R,
    alloc: Global,
    at: ControlAt<'_>,
) -> Result<OperatorStream, Failure>
where
    R: Net<Stream = TcpStream>,
{
    match connect_at(rt, alloc, at) {
        Ok(stream) => Ok(stream),
        Err(error) => Err(failed(alloc, at, &error)),
    }
}

/// Makes the failure of the connection with a run.
pub(crate) fn failed(alloc: Global, at: ControlAt<'_>, error: &io::Error) -> Failure {
    match error.kind() {
        ErrorKind::ConnectionRefused => Failure {
            fault: DeviceFault::Read,
            text: format!(in alloc; "{}: no run listens there", named(at)).ok(),
        },
        _ => Failure::of(alloc, DeviceFault::Read, named(at), error),
    }
}

// Reads until the other end closes the connection. Returns the first bytes.
fn read_to_end(alloc: Global, mut stream: &OperatorStream) -> io::Result<Vec<u8>> {
    let mut first = Vec::with_capacity(alloc, MAX_SHOWN)?;
    let mut piece = [0; MAX_SHOWN];
    for _read in 0..u64::MAX {
        let count = stream.read(&mut piece)?;
        if count == 0 {
            break;
        }
        for byte in piece.iter().take(count) {
            if first.len() < MAX_SHOWN {
                first.push(*byte)?;
            }
        }
    }
    Ok(first)
}

// Sends the line that stops a run, and returns the reply once the run has ended. A run without a free seat may have replied
// and closed the connection before.
fn ask_to_stop(alloc: Global, mut stream: &OperatorStream) -> io::Result<Vec<u8>> {
    let sent = stream.write_all(STOP_LINE);
    let reply = read_to_end(alloc, stream)?;
    if reply.is_empty() {
        sent?;
    }
    Ok(reply)
}

// Says why a run was not stopped.
fn print_refusal(rt: &impl Eprint, reply: &[u8]) {
    let line = reply.split(|byte| *byte == b'\n').next().unwrap_or(reply);
    let _ = match str::from_utf8(line) {
        Ok(line) => eprintln!(rt; "olt: the run did not stop: {line}"),
        Err(_) => eprintln!(rt; "olt: the run did not stop"),
    };
}

/// Stops a run through a socket at which its operators connect, and waits until it has ended: each worker has finished its
/// turn, and the recording is whole. Returns whether the run took the line; if it did not, its reply is on standard error.
///
/// # Errors
///
/// `Read` if no run listens there or the connection fails, and `Memory` if memory is refused.
pub fn stop_run<R>(rt: &R, alloc: Global, at: ControlAt<'_>) -> Result<bool, Failure>
where
    R: Net<Stream = TcpStream> + Eprint,
{
    let stream = connect(rt, alloc, at)?;
    match ask_to_stop(alloc, &stream) {
        Ok(reply) if reply.as_slice() == STOP_REPLY => Ok(true),
        Ok(reply) => {
            print_refusal(rt, reply.as_slice());
            Ok(false)
        }
        Err(error) => Err(failed(alloc, at, &error)),
    }
}
