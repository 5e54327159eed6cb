//! The simulated units of a terminal elsewhere: they connect to its ports, and answer their maps.

ghost use Rattle.std.specs.Prelude.{◌≡◌, ◌<◌, ◌⊎◌, ◌↔◌, IfSome, OnOk, length, true};

use crate::address::{address_of, begin, failed_address, failed_at};
use crate::answering::{UnitsPart, answer};
use crate::units::units_of;
use pon_device::DeviceFault;
use pon_job::{Failure, Outcome, exit_status};
use pon_link::UnitsFault;
use pon_settings::{Settings, SettingsRow};
use pon_units::PortNo;
use std::alloc::{AllocError, Global};
use std::io::{self, ErrorKind};
use std::net::{Net, SocketAddr, TcpListener, TcpStream};
use std::sync::Wait;
use std::thread::{self, JoinHandle, Scope, Threads};
use std::time::{Clock, Duration, Instant};

/// How long units sleep before they try again to connect to a port that does not listen yet, in milliseconds.
const PAUSE_MILLISECONDS: u64 = 20;

/// For how many waits units are without a map before they end: as often as a port tries to read.
const READ_WAITS: u32 = 3;

/// The arguments of units elsewhere, besides their settings.
#[derive(Clone, Copy, Debug, PartialEq, Eq)]
pub struct UnitsArgs<'a> {
    /// The address of port 0 of the terminal: an IP address or a host name, a colon and a TCP port. Each further port has the
    /// next TCP port.
    pub connect: &'a str,
    /// The port whose units are simulated. `None` for those of all ports of the settings.
    pub port: Option<PortNo>,
    /// How long the units of a port try to connect. They end if three times as long no map comes.
    pub wait: Duration,
}

/// The connected units of a port.
#[derive(Drop)]
struct Connected {
    port: usize,
    part: UnitsPart,
}

/// The running units of a port.
#[derive(Drop)]
struct Answering {
    port: usize,
    thread: JoinHandle<Result<(), UnitsFault>>,
}

/// The terminal that units connect to.
#[derive(Clone, Copy)]
struct Terminal {
    // The address of its port 0.
    first: SocketAddr,
    // When the first attempt began, and how long units try.
    begun: Instant,
    wait: Duration,
}

impl Terminal {
    // Connects to an address, also if nobody listens there yet.
    fn connect<R>(&self, rt: &R, at: SocketAddr) -> io::Result<TcpStream>
    where
        R: Net<Listener = TcpListener, Stream = TcpStream> + Clock,
    {
        for _attempt in 0..u64::MAX {
            match TcpStream::connect_timeout(rt, &at, self.wait) {
                Ok(stream) => return Ok(stream),
                Err(error) => {
                    let refused = error.kind() == ErrorKind::ConnectionRefused;
                    if !refused || self.begun.elapsed(rt)? >= self.wait {
                        return Err(error);
                    }
                }
            }
            thread::sleep(rt, Duration::from_millis(PAUSE_MILLISECONDS));
        }
        Err(io::Error::from(ErrorKind::TimedOut))
    }

    // Opens the connection of the units of a port.
    fn open_stream<R>(&self, rt: &R, at: SocketAddr) -> io::Result<TcpStream>
    where
        R: Net<Listener = TcpListener, Stream = TcpStream> + Clock,
    {
        let stream = self.connect(rt, at)?;
        stream.set_nodelay(true)?;
        stream.set_read_timeout(Some(self.wait.saturating_mul(READ_WAITS)))?;
        stream.set_write_timeout(Some(self.wait))?;
        Ok(stream)
    }

    // Connects the units of a port, whose rows these are.
    fn connect_port<R>(
        &self,
        rt: &R,
        alloc: Global,
        port: usize,
        rows: &[SettingsRow],
    ) -> Result<Connected, Failure>
    where
        R: Net<Listener = TcpListener, Stream = TcpStream> + Clock,
    {
        let at = match address_of(self.first, port) {
            Ok(at) => at,
            Err(error) => return Err(failed_at(alloc, self.first, &error)),
        };
        let units = units_of(alloc, rows)?;
        match self.open_stream(rt, at) {
            Ok(stream) => Ok(Connected {
                port,
                part: UnitsPart { units, stream },
            }),
            Err(error) => Err(failed_at(alloc, at, &error)),
        }
    }
}

// Returns whether a port is the one that is asked for, as each is if none is.
fn is_asked(args: &UnitsArgs<'_>, port: usize) -> bool
    ensures { (result ≡ true) ↔ IfSome args.now.port (λ one. one ≡ port) }
{
    match args.port {
        Some(one) => usize::from(one.get()) == port,
        None => true,
    }
}

// Connects the units of the ports that are asked for.
fn connect_all<R>(
    rt: &R,
    alloc: Global,
    settings: &Settings,
    args: &UnitsArgs<'_>,
    terminal: &Terminal,
) -> Result<Vec<Connected>, Failure>
where
    R: Net<Listener = TcpListener, Stream = TcpStream> + Clock,
{
    let mut all = Vec::new(alloc);
    for (port, of_port) in settings.ports().iter().enumerate() {
        if is_asked(args, port) {
            let connected = terminal.connect_port(rt, alloc, port, of_port.rows())?;
            all.push(connected)?;
        }
    }
    Ok(all)
}

// Starts a thread for the units of each port. Returns `Memory` if one cannot be created.
fn start_all<'s, E>(
    scope: &Scope<'s, E>,
    alloc: Global,
    all: Vec<Connected>,
) -> Result<Vec<Answering>, AllocError> {
    let mut answering = Vec::with_capacity(alloc, all.len())?;
    for Connected { port, part } in all {
        let thread = scope.spawn(move || answer(alloc, part))?;
        answering.push(Answering { port, thread })?;
    }
    Ok(answering)
}

// Returns why the units of a port ended before their terminal did, in words for a person.
fn reason_of(fault: UnitsFault) -> &'static str {
    match fault {
        UnitsFault::Device => "its connection failed, or no map came",
        UnitsFault::Link(_) => "what its terminal sent is no map",
        UnitsFault::Memory => "memory was refused",
    }
}

// Waits for the units of all ports to end, and prints why those ended that did so early. Returns whether none did.
fn join_all<R: Threads + Eprint>(rt: &R, all: Vec<Answering>) -> bool {
    let mut ended = true;
    for Answering { port, thread } in all {
        if let Err(fault) = thread.join(rt) {
            let _ = eprintln!(rt; "  units of port {port} ended early: {}", reason_of(fault));
            ended = false;
        }
    }
    ended
}

// Answers the maps of all ports. Returns whether no units ended early. `Err` if memory is refused or a thread cannot be
// created.
fn answer_all<R: Threads + Wait + Eprint>(
    rt: &R,
    alloc: Global,
    all: Vec<Connected>,
) -> Result<bool, AllocError> {
    thread::scope(
        thread::scope_env(),
        rt,
        move |scope| -> Result<bool, AllocError> {
            let answering = start_all(scope, alloc, all)?;
            Ok(join_all(rt, answering))
        },
    )
}

// Refuses a port that the settings have not.
fn check_port(alloc: Global, settings: &Settings, asked: Option<PortNo>) -> Result<(), Failure>
    ensures { OnOk result (IfSome asked (λ port. port < length settings.now)) }
{
    let ports = settings.ports().len();
    match asked {
        Some(port) if usize::from(port.get()) >= ports => {
            let last = ports.saturating_sub(1);
            let port = port.get();
            let text = format!(in alloc; "port {port} is not in the settings (ports 0 to {last})");
            Err(Failure {
                fault: DeviceFault::Read,
                text: text.ok(),
            })
        }
        _ => Ok(()),
    }
}

// Connects the units of the ports, and answers their maps. Returns whether no units ended early.
fn serve<R>(
    rt: &R,
    alloc: Global,
    settings: &Settings,
    args: &UnitsArgs<'_>,
) -> Result<bool, Failure>
where
    R: Net<Listener = TcpListener, Stream = TcpStream> + Threads + Wait + Clock + Eprint,
{
    check_port(alloc, settings, args.port)?;
    let (first, begun) = match begin(rt, args.connect) {
        Ok(begun) => begun,
        Err(error) => return Err(failed_address(alloc, args.connect, &error)),
    };
    let terminal = Terminal {
        first,
        begun,
        wait: args.wait,
    };
    let all = connect_all(rt, alloc, settings, args, &terminal)?;
    Ok(answer_all(rt, alloc, all)?)
}

/// Simulates the units of the settings for a terminal elsewhere: connects to each of its ports, in order, and answers its
/// maps, as the simulated units of a run do, until the terminal closes the connection.
///
/// Returns the exit status: 0 if the terminal closed each connection after a whole map; otherwise 3. Standard error then has
/// a text: `olt: read failed` if the address cannot be read, or that of a port not be connected to, or the settings have no such
/// port, and `olt: out of memory`,
/// also if a thread cannot be created; and an indented line for each port whose units ended early, with the reason.
pub fn run_units<R>(rt: &R, alloc: Global, settings: &Settings, args: &UnitsArgs<'_>) -> u8
where
    R: Net<Listener = TcpListener, Stream = TcpStream> + Threads + Wait + Clock + Eprint,
    ensures { (result ≡ 0) ⊎ (result ≡ 3) }
{
    match serve(rt, alloc, settings, args) {
        Ok(true) => exit_status(Outcome::Done),
        Ok(false) => exit_status(Outcome::Unfinished),
        Err(failure) => {
            failure.print(rt);
            exit_status(Outcome::Failed(failure.fault))
        }
    }
}
