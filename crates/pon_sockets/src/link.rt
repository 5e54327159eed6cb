//! The sockets of a run: one connection for each port, by default with both ends in this process.

ghost use Rattle.std.specs.Prelude.{◌≡◌, IfOk};
ghost use Rattle.std.specs.Vec.{vec_len};

use crate::address::failed_address;
use crate::external::Visitors;
use pon_job::Failure;
use std::alloc::Global;
use std::io::{self, ErrorKind};
use std::net::{Net, SocketAddr, TcpListener, TcpStream};
use std::thread;
use std::time::{Clock, Duration, Instant};

/// How long a run tries to open its connections while others connect to its address, in seconds.
const MAX_SECONDS: u64 = 10;

/// How long one attempt to connect waits, in milliseconds. A listener whose queue is full answers none.
const ATTEMPT_MILLISECONDS: u64 = 100;

/// How long a run sleeps after it found no connection to accept, in milliseconds.
const PAUSE_MILLISECONDS: u64 = 1;

/// Maximum number of connections that are dropped before each attempt to connect: more than the queue of a listener has.
const MAX_DROPPED: u32 = 256;

/// What is at the other end of the connection of a port.
#[derive(Drop)]
pub enum FarEnd {
    /// Units in this process, with this end.
    Here(TcpStream),
    /// Units elsewhere.
    Elsewhere(Visitors),
}

/// A connection.
#[derive(Drop)]
pub struct Link {
    /// The end of the port.
    pub port: TcpStream,
    /// The end of its units.
    pub units: FarEnd,
}

fn too_many_others() -> io::Error {
    io::Error::other("others connect to it")
}

// Returns an error once a run has tried for too long.
fn check_time<R: Clock>(rt: &R, begun: Instant) -> io::Result<()> {
    if begun.elapsed(rt)? < Duration::from_secs(MAX_SECONDS) {
        Ok(())
    } else {
        Err(too_many_others())
    }
}

/// Accepts the next connection of a listener that does not wait for one. `None` if there is none.
pub(crate) fn next_connection(
    listener: &TcpListener,
) -> io::Result<Option<(TcpStream, SocketAddr)>> {
    match listener.accept() {
        Ok(found) => Ok(Some(found)),
        Err(error) if error.kind() == ErrorKind::WouldBlock => Ok(None),
        Err(error) => Err(error),
    }
}

// Drops the connections in the queue of the listener, which are all of others.
fn drop_others(listener: &TcpListener) -> io::Result<()> {
    for _other in 0..MAX_DROPPED {
        if next_connection(listener)?.is_none() {
            return Ok(());
        }
    }
    Ok(())
}

// Connects to the listener's address. Attempts that are not answered are repeated.
fn connect<R: Net<Listener = TcpListener, Stream = TcpStream> + Clock>(
    rt: &R,
    listener: &TcpListener,
    begun: Instant,
) -> io::Result<TcpStream> {
    let address = listener.local_addr()?;
    let patience = Duration::from_millis(ATTEMPT_MILLISECONDS);
    for _attempt in 0..u64::MAX {
        drop_others(listener)?;
        match TcpStream::connect_timeout(rt, &address, patience) {
            Ok(stream) => return Ok(stream),
            Err(error) if error.kind() == ErrorKind::TimedOut => check_time(rt, begun)?,
            Err(error) => return Err(error),
        }
    }
    Err(too_many_others())
}

// Accepts the connection from this address, and drops others.
fn accept_from<R: Clock>(
    rt: &R,
    listener: &TcpListener,
    address: SocketAddr,
    begun: Instant,
) -> io::Result<TcpStream> {
    for _look in 0..u64::MAX {
        match next_connection(listener)? {
            Some((stream, peer)) => {
                if peer == address {
                    return Ok(stream);
                }
            }
            None => thread::sleep(rt, Duration::from_millis(PAUSE_MILLISECONDS)),
        }
        check_time(rt, begun)?;
    }
    Err(too_many_others())
}

// Connects to the listener's address, and accepts the connection.
fn open_link<R: Net<Listener = TcpListener, Stream = TcpStream> + Clock>(
    rt: &R,
    listener: &TcpListener,
    begun: Instant,
) -> io::Result<Link> {
    let units = connect(rt, listener, begun)?;
    let port = accept_from(rt, listener, units.local_addr()?, begun)?;
    port.set_nodelay(true)?;
    units.set_nodelay(true)?;
    Ok(Link {
        port,
        units: FarEnd::Here(units),
    })
}

fn listen_on<R: Net<Listener = TcpListener, Stream = TcpStream> + Clock>(
    rt: &R,
    alloc: Global,
    address: &str,
    ports: usize,
) -> io::Result<Vec<Link>>
    ensures { IfOk result (λ links. vec_len links ≡ ports) }
{
    let mut links = Vec::with_capacity(alloc, ports)?;
    let listener = TcpListener::bind(rt, address)?;
    listener.set_nonblocking(true)?;
    let begun = Instant::now(rt)?;
    for _port in 0..ports {
        links.push(open_link(rt, &listener, begun)?)?;
    }
    Ok(links)
}

/// Listens on the address, opens a connection for each port, in order, and stops listening. Both ends of each are in this
/// process. Connections of others are dropped.
///
/// # Errors
///
/// `Memory` if memory is refused, and `Read` if the address cannot be read, bound, connected to or accepted on, also if
/// connections of others keep the run from its own for 10 seconds.
pub fn open_links<R: Net<Listener = TcpListener, Stream = TcpStream> + Clock>(
    rt: &R,
    alloc: Global,
    address: &str,
    ports: usize,
) -> Result<Vec<Link>, Failure>
    ensures { IfOk result (λ links. vec_len links ≡ ports) }
{
    match listen_on(rt, alloc, address, ports) {
        Ok(links) => Ok(links),
        Err(error) => Err(failed_address(alloc, address, &error)),
    }
}
