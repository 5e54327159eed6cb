//! Where a run answers with its metrics: a TCP socket, and the clients that are connected to it.

use crate::control::listen_on;
use crate::link::next_connection;
use http_server::{Config, Connection, Service};
use pon_device::DeviceFault;
use pon_job::{Failure, Named};
use std::alloc::Global;
use std::hash::RandomState;
use std::io::{self, ErrorKind};
use std::net::{Net, TcpListener, TcpStream};
use std::random::RandomSource;
use std::time::{Clock, Duration, Instant};

/// Maximum number of clients that are connected at once. Further ones wait until one has gone.
const MAX_CLIENTS: usize = 128;

/// How long a client may be connected, in milliseconds.
const CLIENT_MILLISECONDS: u64 = 2_000;

/// Maximum size of the head of a request, in bytes.
const MAX_HEAD: usize = 8_192;

/// How many bytes are read of a client at once.
const PIECE: usize = 1_024;

/// Maximum number of writes to a client in a row.
const MAX_WRITES: usize = 16;

/// A socket that listens for clients of the metrics.
#[derive(Drop)]
pub struct MetricsListener {
    listener: TcpListener,
    // The keys with which the headers of the clients are hashed.
    keys: RandomState,
}

/// A client: its connection, since when it is connected, and whether its stream failed.
#[derive(Drop)]
struct Client {
    stream: TcpStream,
    connection: Connection,
    since: Instant,
    failed: bool,
}

/// The clients of the metrics that are connected.
#[derive(Drop)]
pub struct MetricsClients<'a> {
    listener: &'a MetricsListener,
    alloc: Global,
    clients: Vec<Client>,
}

// Returns the limits of a client.
fn config_of_client() -> Config {
    let mut config = Config::default();
    config.limits.max_head_len = MAX_HEAD;
    config.max_body_len = 0;
    config.read_size = PIECE;
    config
}

// Returns whether a read or a write failed for good.
fn is_lost(error: &io::Error) -> bool {
    error.kind() != ErrorKind::WouldBlock
}

impl Client {
    // Reads what the client has sent. Returns whether something came, or its end.
    fn hear(&mut self) -> bool {
        if self.failed || !self.connection.wants_read() {
            return false;
        }
        let mut reader = &self.stream;
        match self.connection.read_from(&mut reader) {
            Ok(_) => true,
            Err(error) => {
                self.failed = is_lost(&error);
                false
            }
        }
    }

    // Writes what the client takes of its answer.
    fn send(&mut self) {
        let mut writer = &self.stream;
        for _write in 0..MAX_WRITES {
            if self.failed || !self.connection.wants_write() {
                break;
            }
            match self.connection.write_to(&mut writer) {
                Ok(0) => self.failed = true,
                Ok(_) => {}
                Err(error) => {
                    self.failed = is_lost(&error);
                    break;
                }
            }
        }
    }

    // Returns whether the client still waits for its answer, and may.
    fn stays<R: Clock>(&self, rt: &R) -> bool {
        let limit = Duration::from_millis(CLIENT_MILLISECONDS);
        let is_in_time = matches!(self.since.elapsed(rt), Ok(passed) if passed < limit);
        is_in_time && !self.failed && !self.connection.is_done()
    }
}

impl MetricsListener {
    /// Listens for clients of the metrics, and says on standard error where. A TCP port without an address is of this machine
    /// alone.
    ///
    /// # Errors
    ///
    /// `Read` if the address cannot be read or bound. `Memory` if memory is refused.
    pub fn open<R>(rt: &R, alloc: Global, address: &str) -> Result<Self, Failure>
    where
        R: Net<Listener = TcpListener, Stream = TcpStream> + RandomSource + Eprint,
    {
        match MetricsListener::listen(rt, alloc, address) {
            Ok(listener) => {
                listener.print_place(rt);
                Ok(listener)
            }
            Err(error) => {
                let named = Named::Metrics(address);
                Err(Failure::of(alloc, DeviceFault::Read, named, &error))
            }
        }
    }

    fn listen<R>(rt: &R, alloc: Global, address: &str) -> io::Result<Self>
    where
        R: Net<Listener = TcpListener, Stream = TcpStream> + RandomSource,
    {
        let keys = RandomState::new(rt)?;
        let listener = listen_on(rt, alloc, address)?;
        Ok(MetricsListener { listener, keys })
    }

    // Says where the metrics are.
    fn print_place(&self, rt: &impl Eprint) {
        if let Ok(at) = self.listener.local_addr() {
            let _ = eprintln!(rt; "olt: metrics at http://{at}/metrics");
        }
    }

    // Accepts the next client. `None` if there is none; one that fails at once is taken for none.
    fn accept_next<R: Clock>(&self, rt: &R, alloc: Global) -> Option<Client> {
        let since = Instant::now(rt).ok()?;
        let (stream, _) = next_connection(&self.listener).ok()??;
        stream.set_nonblocking(true).ok()?;
        Some(Client {
            stream,
            connection: Connection::new(alloc, self.keys, config_of_client()),
            since,
            failed: false,
        })
    }
}

impl<'a> MetricsClients<'a> {
    /// Begins without a client.
    pub fn none(alloc: Global, listener: &'a MetricsListener) -> Self {
        MetricsClients {
            listener,
            alloc,
            clients: Vec::new(alloc),
        }
    }

    /// Accepts the clients that have connected, at most 128 at once, and reads what clients have sent, without waiting.
    /// Returns whether there may be a request.
    pub fn hear<R: Clock>(&mut self, rt: &R) -> bool {
        for _client in self.clients.len()..MAX_CLIENTS {
            let Some(client) = self.listener.accept_next(rt, self.alloc) else {
                break;
            };
            if self.clients.push(client).is_err() {
                break;
            }
        }
        let mut heard = false;
        for client in &mut self.clients {
            heard |= client.hear();
        }
        heard
    }

    /// Answers the requests that have come whole.
    pub fn answer<S: Service>(&mut self, service: &mut S) {
        for client in &mut self.clients {
            client.connection.advance(service);
        }
    }

    /// Writes what clients take of their answers, without waiting, and closes the connection of each client that has its
    /// answer, has failed, or has been connected for 2 seconds.
    pub fn send<R: Clock>(&mut self, rt: &R) {
        for client in &mut self.clients {
            client.send();
        }
        self.clients.retain(|client| client.stays(rt));
    }
}
