//! A run whose units are elsewhere: another thread, which connects to the address of the port.

use crate::running::{args, ended_with, ran, read, text};
use pon_device::MemWrite;
use pon_files::LockFile;
use pon_run::{RunArgs, UnitsPlace};
use pon_sockets::{ExternalUnits, UnitsArgs, run_units};
use pon_units::PortNo;
use pon_worker::OpenGate;
use std::alloc::Global;
use std::net::{Net, TcpListener, TcpStream};
use std::os::fd::AsRawFd;
use std::process::Abort;
use std::random::RandomSource;
use std::rt::Files;
use std::sync::Wait;
use std::thread::Threads;
use std::time::{Clock, Duration};
use std::{io, thread};

/// How long each side waits for the other, in seconds.
const WAIT_SECONDS: u64 = 10;

/// How often a stray connection is tried, and how long it waits between, in milliseconds.
const ATTEMPTS: usize = 1000;

const PAUSE_MILLISECONDS: u64 = 10;

// Returns an address with a TCP port that is free.
fn free_address<R>(rt: &R, alloc: Global) -> io::Result<String>
where
    R: Net<Listener = TcpListener, Stream = TcpStream>,
{
    let listener = TcpListener::bind(rt, "127.0.0.1:0")?;
    let at = listener.local_addr()?;
    Ok(format!(in alloc; "{at}")?)
}

// Simulates the units of a port, or of all. Returns the exit status.
fn connected<R>(rt: &R, alloc: Global, address: &str, port: Option<PortNo>) -> u8
where
    R: Net<Listener = TcpListener, Stream = TcpStream> + Threads + Wait + Clock + Eprint + Abort,
{
    let settings = read(rt, alloc, text(rt, alloc, 1).as_str());
    let wait = Duration::from_secs(WAIT_SECONDS);
    let args = UnitsArgs {
        connect: address,
        port,
        wait,
    };
    run_units(rt, alloc, &settings, &args)
}

// Connects to a port, once it listens, and closes the connection.
fn strayed<R>(rt: &R, address: &str)
where
    R: Net<Listener = TcpListener, Stream = TcpStream> + Wait + Clock,
{
    for _attempt in 0..ATTEMPTS {
        if let Ok(stream) = TcpStream::connect(rt, address) {
            drop(stream);
            return;
        }
        thread::sleep(rt, Duration::from_millis(PAUSE_MILLISECONDS));
    }
}

// Runs a port for three maps of units elsewhere. Returns the exit status and the text that was written.
fn served<R>(rt: &R, alloc: Global, address: &str, once: bool) -> (u8, MemWrite)
where
    R: Net<Listener = TcpListener, Stream = TcpStream>
        + Files
        + Input
        + Threads
        + Wait
        + Clock
        + Eprint
        + RandomSource
        + Sync
        + Abort,
    R::File: AsRawFd + LockFile + Send,
    R::Dir: Send,
{
    let wait = Duration::from_secs(WAIT_SECONDS);
    let args = RunArgs {
        listen: address,
        units: UnitsPlace::Elsewhere(ExternalUnits { wait, once }),
        ..args(3)
    };
    ran(rt, alloc, 1, args, &OpenGate)
}

// Runs a port, and its units in another thread. Returns the exit status of the units, and what the run gave.
fn connected_and_served<R>(rt: &R, alloc: Global, address: &str) -> (u8, (u8, MemWrite))
where
    R: Net<Listener = TcpListener, Stream = TcpStream>
        + Files
        + Input
        + Threads
        + Wait
        + Clock
        + Eprint
        + RandomSource
        + Sync
        + Abort,
    R::File: AsRawFd + LockFile + Send,
    R::Dir: Send,
{
    thread::join(
        rt,
        move || connected(rt, alloc, address, PortNo::new(0)),
        move || served(rt, alloc, address, false),
    )
}

// Runs a port, and in another thread a stray connection, after which its units come. Returns what the run gave.
fn strayed_and_served<R>(rt: &R, alloc: Global, address: &str, once: bool) -> (u8, MemWrite)
where
    R: Net<Listener = TcpListener, Stream = TcpStream>
        + Files
        + Input
        + Threads
        + Wait
        + Clock
        + Eprint
        + RandomSource
        + Sync
        + Abort,
    R::File: AsRawFd + LockFile + Send,
    R::Dir: Send,
{
    let units = move || {
        strayed(rt, address);
        if once {
            return 0;
        }
        connected(rt, alloc, address, PortNo::new(0))
    };
    let (_units, run) = thread::join(rt, units, move || served(rt, alloc, address, once));
    run
}

#[test]
fn serves_units_elsewhere(rt: HostRuntime) {
    let address = free_address(&rt, rt.alloc())
        .ok()
        .expect(&rt, "a free address");
    let (units, run) = connected_and_served(&rt, rt.alloc(), address.as_str());
    assert!(rt; units == 0);
    assert!(rt; ended_with(run, 0, "port 0 maps 3 entries 7 reports 3 dropped 0\n"));
}

// The map of the stray connection has no report, and the port is failed and restored once.
#[test]
fn serves_the_units_after_a_stray_connection(rt: HostRuntime) {
    let address = free_address(&rt, rt.alloc())
        .ok()
        .expect(&rt, "a free address");
    let run = strayed_and_served(&rt, rt.alloc(), address.as_str(), false);
    assert!(rt; ended_with(run, 0, "port 0 maps 3 entries 8 reports 2 dropped 0\n"));
}

#[test]
fn ends_with_its_only_connection(rt: HostRuntime) {
    let address = free_address(&rt, rt.alloc())
        .ok()
        .expect(&rt, "a free address");
    let run = strayed_and_served(&rt, rt.alloc(), address.as_str(), true);
    assert!(rt; ended_with(run, 3, "port 0 maps 1 entries 3 reports 0 dropped 0\n"));
}

#[test]
fn refuses_units_of_a_port_that_is_not_there(rt: HostRuntime) {
    assert!(rt; connected(&rt, rt.alloc(), "127.0.0.1:1", PortNo::new(1)) == 3);
}
