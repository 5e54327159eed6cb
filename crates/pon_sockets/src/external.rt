//! The units of a port that come from elsewhere: over one connection at a time, for which the port listens.

use crate::link::next_connection;
use std::io;
use std::net::{SocketAddr, TcpListener, TcpStream};
use std::time::Duration;

/// How ports meet units that are elsewhere.
#[derive(Clone, Copy, Debug, PartialEq, Eq)]
pub struct ExternalUnits {
    /// How long a port waits for a connection of its units, and for each read and write of it.
    pub wait: Duration,
    /// Whether a port takes one connection only, and closes its listener then.
    pub once: bool,
}

/// A port that listens for its units.
#[derive(Drop)]
pub(crate) struct Listening {
    pub(crate) listener: TcpListener,
    pub(crate) at: SocketAddr,
    pub(crate) port: usize,
}

/// A connection of units with a port, and its address at their end.
#[derive(Drop)]
pub(crate) struct Accepted {
    pub(crate) stream: TcpStream,
    pub(crate) peer: SocketAddr,
}

// Sets up the connection of a port: each read and write of it fails after this time.
fn set_up(stream: &TcpStream, wait: Duration) -> io::Result<()> {
    stream.set_nodelay(true)?;
    stream.set_read_timeout(Some(wait))?;
    stream.set_write_timeout(Some(wait))
}

impl Listening {
    /// Accepts the next connection, if there is one, sets it up, and says so on standard error.
    pub(crate) fn accept<R: Eprint>(&self, rt: &R, wait: Duration) -> io::Result<Option<Accepted>> {
        let Some((stream, peer)) = next_connection(&self.listener)? else {
            return Ok(None);
        };
        set_up(&stream, wait)?;
        let port = self.port;
        let _ = eprintln!(rt; "olt: port {port} is connected with units at {peer}");
        Ok(Some(Accepted { stream, peer }))
    }
}

/// The units of a port at the other end of a connection, and the listener for those that come after them, if there is one.
#[derive(Drop)]
pub struct Visitors {
    /// The address at their end of the connection.
    pub peer: SocketAddr,
    /// How long the port waits for the next connection.
    pub wait: Duration,
    pub(crate) listening: Option<Listening>,
}

impl Visitors {
    /// Returns where the port listens for the next units. `None` if it takes no further connection.
    pub fn place(&self) -> Option<SocketAddr> {
        self.listening.as_ref().map(|listening| listening.at)
    }

    /// Accepts the connection of the next units, if there is one, and says so on standard error. One that fails at once is
    /// taken for none.
    pub fn accept_next<R: Eprint>(&mut self, rt: &R) -> Option<TcpStream> {
        let listening = self.listening.as_ref()?;
        let Accepted { stream, peer } = listening.accept(rt, self.wait).ok()??;
        self.peer = peer;
        Some(stream)
    }
}
