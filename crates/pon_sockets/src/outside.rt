//! The first connections of units outside this process: a listener for each port, and one connection of each.

ghost use Rattle.std.specs.Prelude.{◌≡◌, IfOk};
ghost use Rattle.std.specs.Vec.{vec_len};

use crate::address::{address_of, begin, failed_address, failed_at};
use crate::external::{Accepted, ExternalUnits, Listening, Visitors};
use crate::link::{FarEnd, Link};
use pon_job::Failure;
use std::alloc::Global;
use std::net::{Net, SocketAddr, TcpListener, TcpStream};
use std::time::{Clock, Duration, Instant};
use std::{io, thread};

/// How long a port sleeps after it found no connection to accept, in milliseconds.
const PAUSE_MILLISECONDS: u64 = 5;

// Listens on an address, and says where.
fn listen_on<R: Net<Listener = TcpListener, Stream = TcpStream> + Eprint>(
    rt: &R,
    at: SocketAddr,
    port: usize,
) -> io::Result<Listening> {
    let listener = TcpListener::bind(rt, at)?;
    listener.set_nonblocking(true)?;
    let at = listener.local_addr()?;
    let _ = eprintln!(rt; "olt: port {port} waits for its units at {at}");
    Ok(Listening { listener, at, port })
}

// Listens for the units of this number of ports, from the address of port 0 on.
fn listen_for_all<R: Net<Listener = TcpListener, Stream = TcpStream> + Eprint>(
    rt: &R,
    alloc: Global,
    first: SocketAddr,
    ports: usize,
) -> Result<Vec<Listening>, Failure>
    ensures { IfOk result (λ all. vec_len all ≡ ports) }
{
    let mut all = Vec::with_capacity(alloc, ports)?;
    for port in 0..ports {
        let at = match address_of(first, port) {
            Ok(at) => at,
            Err(error) => return Err(failed_at(alloc, first, &error)),
        };
        match listen_on(rt, at, port) {
            Ok(listening) => all.push(listening)?,
            Err(error) => return Err(failed_at(alloc, at, &error)),
        }
    }
    Ok(all)
}

// Accepts one connection, at the latest when this time has passed.
fn accept_one<R: Clock + Eprint>(
    rt: &R,
    listening: &Listening,
    begun: Instant,
    wait: Duration,
) -> io::Result<Accepted> {
    for _look in 0..u64::MAX {
        if let Some(accepted) = listening.accept(rt, wait)? {
            return Ok(accepted);
        }
        if begun.elapsed(rt)? >= wait {
            break;
        }
        thread::sleep(rt, Duration::from_millis(PAUSE_MILLISECONDS));
    }
    Err(io::Error::other("no units connect to it"))
}

// Accepts the connection of a port, and stops listening if it takes one only.
fn accept_link<R: Clock + Eprint>(
    rt: &R,
    alloc: Global,
    listening: Listening,
    begun: Instant,
    external: ExternalUnits,
) -> Result<Link, Failure> {
    let ExternalUnits { wait, once } = external;
    match accept_one(rt, &listening, begun, wait) {
        Ok(Accepted { stream, peer }) => Ok(Link {
            port: stream,
            units: FarEnd::Elsewhere(Visitors {
                peer,
                wait,
                listening: if once { None } else { Some(listening) },
            }),
        }),
        Err(error) => Err(failed_at(alloc, listening.at, &error)),
    }
}

// Accepts the connection of each port.
fn accept_all<R: Clock + Eprint>(
    rt: &R,
    alloc: Global,
    all: Vec<Listening>,
    begun: Instant,
    external: ExternalUnits,
) -> Result<Vec<Link>, Failure>
    ensures { IfOk result (λ links. vec_len links ≡ vec_len all) }
{
    let mut links = Vec::with_capacity(alloc, all.len())?;
    for listening in all {
        let link = accept_link(rt, alloc, listening, begun, external)?;
        links.push(link)?;
    }
    Ok(links)
}

/// Listens for the units of each port, in order, says on standard error where, and accepts one connection for each. Port 0
/// has the address, each further port the next TCP port, or each a free one if that of the address is 0. Each read and
/// write of a connection fails if it lasts longer than the units may wait. The listener of a port stays for the units that
/// come after the first; if it takes one connection only, it is closed, so that others are refused.
///
/// # Errors
///
/// `Memory` if memory is refused, and `Read` if the address cannot be read, or that of a port not be bound or accepted on,
/// also if a port has no connection when the time to wait has passed.
pub fn accept_links<R>(
    rt: &R,
    alloc: Global,
    address: &str,
    ports: usize,
    external: ExternalUnits,
) -> Result<Vec<Link>, Failure>
where
    R: Net<Listener = TcpListener, Stream = TcpStream> + Clock + Eprint,
    ensures { IfOk result (λ links. vec_len links ≡ ports) }
{
    match begin(rt, address) {
        Ok((first, begun)) => {
            let all = listen_for_all(rt, alloc, first, ports)?;
            accept_all(rt, alloc, all, begun, external)
        }
        Err(error) => Err(failed_address(alloc, address, &error)),
    }
}
