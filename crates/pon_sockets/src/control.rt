//! Where the operators of a run connect: at a Unix socket, a TCP socket, or both.

use crate::link::next_connection;
use crate::operator::OperatorStream;
use pon_device::DeviceFault;
use pon_job::{Control, Failure, Named};
use std::alloc::Global;
use std::fs::{self, Permissions};
use std::io::{self, ErrorKind};
use std::net::{Net, TcpListener, TcpStream};
use std::os::unix::fs::{FileTypeExt, PermissionsExt};
use std::os::unix::net::{UnixListener, UnixStream};
use std::rt::Files;

/// The mode of a Unix socket: only its owner may connect.
const SOCKET_MODE: u32 = 0o600;

/// The address at which a TCP port listens that is given without one: that of this machine alone.
const LOOPBACK: &str = "127.0.0.1";

/// Maximum number of connections that are closed since they were made before the mode of the socket was set.
const MAX_EARLY: u32 = 4_096;

/// A Unix socket that listens, and its path.
#[derive(Drop)]
struct UnixDoor {
    listener: UnixListener,
    path: String,
}

/// The sockets at which operators connect to a run.
#[derive(Drop)]
pub struct ControlListener {
    unix: Option<UnixDoor>,
    tcp: Option<TcpListener>,
}

// Returns the next connection of a Unix socket that does not wait for one. `None` if there is none.
fn next_at(listener: &UnixListener) -> io::Result<Option<UnixStream>> {
    match listener.accept() {
        Ok((stream, _)) => Ok(Some(stream)),
        Err(error) if error.kind() == ErrorKind::WouldBlock => Ok(None),
        Err(error) => Err(error),
    }
}

// Removes the socket that an ended run left at a path. What is no socket is not touched, nor one at which a run listens.
fn remove_stale<R: Net + Files>(rt: &R, path: &str) -> io::Result<()> {
    match fs::symlink_metadata(rt, path) {
        Ok(found) if !found.file_type().is_socket() => {
            Err(io::Error::other("exists and is no socket"))
        }
        Ok(_) => match UnixStream::connect(rt, path) {
            Ok(_) => Err(io::Error::from(ErrorKind::AddrInUse)),
            Err(error) if error.kind() == ErrorKind::ConnectionRefused => {
                fs::remove_file(rt, path)
            }
            Err(error) => Err(error),
        },
        Err(error) if error.kind() == ErrorKind::NotFound => Ok(()),
        Err(error) => Err(error),
    }
}

// Lets only the owner of a socket connect, and closes the connections that were made before.
fn close_to_others<R: Files>(rt: &R, listener: &UnixListener, path: &str) -> io::Result<()> {
    fs::set_permissions(rt, path, Permissions::from_mode(SOCKET_MODE))?;
    for _early in 0..MAX_EARLY {
        if next_at(listener)?.is_none() {
            break;
        }
    }
    Ok(())
}

// Listens at a path.
fn listen_at<R: Net + Files>(rt: &R, alloc: Global, path: &str) -> io::Result<UnixDoor> {
    let kept = String::from_str(alloc, path)?;
    remove_stale(rt, path)?;
    let listener = UnixListener::bind(rt, path)?;
    let set_up = listener.set_nonblocking(true);
    if let Err(error) = set_up.and_then(|()| close_to_others(rt, &listener, path)) {
        let _ = fs::remove_file(rt, path);
        return Err(error);
    }
    Ok(UnixDoor {
        listener,
        path: kept,
    })
}

/// Returns the address of a TCP socket for operators: one that is a port alone is of this machine alone. `Err` only if memory
/// is refused.
pub(crate) fn control_address(alloc: Global, address: &str) -> io::Result<String> {
    let port = address.strip_prefix(":").unwrap_or(address);
    if port.parse::<u16>().is_ok() {
        return Ok(format!(in alloc; "{LOOPBACK}:{port}")?);
    }
    Ok(String::from_str(alloc, address)?)
}

/// Listens at a TCP address, without waiting for connections.
pub(crate) fn listen_on<R: Net<Listener = TcpListener, Stream = TcpStream>>(
    rt: &R,
    alloc: Global,
    address: &str,
) -> io::Result<TcpListener> {
    let address = control_address(alloc, address)?;
    let listener = TcpListener::bind(rt, address.as_str())?;
    listener.set_nonblocking(true)?;
    Ok(listener)
}

impl ControlListener {
    /// Listens for operators, and says on standard error where. A socket that an ended run left at the path is replaced. Only
    /// the owner of the new one may connect to it; a TCP port without an address is of this machine alone.
    ///
    /// # Errors
    ///
    /// `Read` if one of the sockets cannot be made: at the path is a file or the socket of a run, or the address cannot be
    /// read or bound. `Memory` if memory is refused. Then nothing is left at the path that was not there before.
    pub fn open<R>(rt: &R, alloc: Global, control: &Control<'_>) -> Result<Self, Failure>
    where
        R: Net<Listener = TcpListener, Stream = TcpStream> + Files + Eprint,
    {
        let tcp = match control.tcp {
            Some(address) => Some(listen_on(rt, alloc, address).map_err(|error| {
                Failure::of(alloc, DeviceFault::Read, Named::Control(address), &error)
            })?),
            None => None,
        };
        let unix = match control.path {
            Some(path) => Some(listen_at(rt, alloc, path).map_err(|error| {
                Failure::of(alloc, DeviceFault::Read, Named::Control(path), &error)
            })?),
            None => None,
        };
        let listener = ControlListener { unix, tcp };
        listener.print_places(rt);
        Ok(listener)
    }

    // Says where operators connect.
    fn print_places(&self, rt: &impl Eprint) {
        if let Some(door) = &self.unix {
            let _ = eprintln!(rt; "olt: operators connect at {}", door.path);
        }
        if let Some(Ok(at)) = self.tcp.as_ref().map(|listener| listener.local_addr()) {
            let _ = eprintln!(rt; "olt: operators connect at {at}");
        }
    }

    /// Accepts the next connection of an operator. `None` if there is none; one that fails at once is taken for none.
    pub fn accept_next(&self) -> Option<OperatorStream> {
        if let Some(door) = &self.unix {
            if let Ok(Some(stream)) = next_at(&door.listener) {
                return Some(OperatorStream::from(stream));
            }
        }
        let (stream, _) = next_connection(self.tcp.as_ref()?).ok()??;
        Some(OperatorStream::from(stream))
    }

    /// Stops listening, and removes the Unix socket.
    pub fn close<R: Files>(self, rt: &R) {
        let ControlListener { unix, tcp: _ } = self;
        if let Some(door) = unix {
            let _ = fs::remove_file(rt, door.path.as_str());
        }
    }
}
