//! The addresses of the ports: the TCP port of each, from the address of port 0.

ghost use Rattle.std.specs.Prelude.{◌≡◌, ◌⊎◌, ◌↔◌, ◌+◌, ◌≤◌, IfOk, true};
ghost use Rattle.std.specs.Net.Socket.{socket_ip, socket_port};
ghost use Rattle.pon_sockets.specs.Addresses.{port_at};

use pon_device::DeviceFault;
use pon_job::{Failure, Named};
use std::alloc::Global;
use std::io;
use std::net::{Net, SocketAddr, ToSocketAddrs};
use std::time::{Clock, Instant};

/// The TCP port with which a listener selects a free one.
const ANY_PORT: u16 = 0;

/// The greatest TCP port.
const MAX_TCP_PORT: u64 = 65_535;

/// Returns the address of a port, if that of port 0 is `first`: the TCP port is greater by the number of the port. TCP port
/// 0, which selects a free one, is that of each port.
///
/// Returns an error if the TCP port is above 65,535.
pub(crate) fn address_of(first: SocketAddr, port: usize) -> io::Result<SocketAddr>
    ensures ip { IfOk result (λ at. socket_ip at ≡ socket_ip first) }
    ensures port { IfOk result (λ at. socket_port at ≡ port_at (socket_port first) port) }
{
    if first.port() == ANY_PORT {
        return Ok(first);
    }
    let Ok(number) = u16::try_from(usize::from(first.port()).saturating_add(port)) else {
        return Err(io::Error::other("the TCP port of its last port is above 65535"));
    };
    let mut at = first;
    at.set_port(number);
    Ok(at)
}

// Returns the address of port 0: the first of the addresses that the text names.
fn first_address<R: Net>(rt: &R, text: &str) -> io::Result<SocketAddr> {
    match text.to_socket_addrs(rt)?.next() {
        Some(first) => Ok(first),
        None => Err(io::Error::other("the name has no address")),
    }
}

/// Returns the address of port 0 that the text names, and the time now.
pub(crate) fn begin<R: Net + Clock>(rt: &R, text: &str) -> io::Result<(SocketAddr, Instant)> {
    Ok((first_address(rt, text)?, Instant::now(rt)?))
}

// Returns the number after the last colon of an address, which may be no TCP port. `None` if there is none.
fn number_in(text: &str) -> Option<u64> {
    let (_, number) = text.rsplit_once(':')?;
    number.parse::<u64>().ok()
}

// Returns whether this number of TCP ports follows from the first on; all may be the same if a free one is selected.
fn fit(first: u64, ports: usize) -> bool
    requires { first ≤ MAX_TCP_PORT }
    ensures { (result ≡ true) ↔ ((first ≡ 0) ⊎ (first + ports ≤ MAX_TCP_PORT + 1)) }
{
    first == 0 || ports as u64 <= MAX_TCP_PORT + 1 - first
}

/// Returns whether the address of port 0 leaves a TCP port for each of this number of ports. One that is no address does.
pub fn has_room(text: &str, ports: usize) -> bool {
    match number_in(text) {
        Some(first) if first <= MAX_TCP_PORT => fit(first, ports),
        _ => true,
    }
}

/// Makes the failure of the address of port 0 that the text names.
pub(crate) fn failed_address(alloc: Global, text: &str, error: &io::Error) -> Failure {
    let named = Named::Address(text);
    match number_in(text) {
        Some(number) if number > MAX_TCP_PORT => Failure {
            fault: DeviceFault::Read,
            text: format!(in alloc;
                "{named}: {number} is no TCP port, at most {MAX_TCP_PORT}"
            ).ok(),
        },
        _ => Failure::of(alloc, DeviceFault::Read, named, error),
    }
}

/// Makes the failure of the address of one port.
pub(crate) fn failed_at(alloc: Global, at: SocketAddr, error: &io::Error) -> Failure {
    match format!(in alloc; "{at}") {
        Ok(name) => Failure::of(
            alloc,
            DeviceFault::Read,
            Named::Address(name.as_str()),
            error,
        ),
        Err(refused) => Failure::from(refused),
    }
}
