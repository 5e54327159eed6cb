//! A run without an end, which an operator stops who connects to it.

use crate::running::{args, ended_with, ran};
use pon_device::MemWrite;
use pon_files::LockFile;
use pon_job::{Control, ControlAt};
use pon_run::RunArgs;
use pon_sockets::stop_run;
use pon_worker::OpenGate;
use std::alloc::Global;
use std::fs;
use std::net::{Net, TcpListener, TcpStream};
use std::os::fd::AsRawFd;
use std::process::Abort;
use std::random::RandomSource;
use std::rt::Files;
use std::sync::Wait;
use std::thread::{self, Threads};
use std::time::{Clock, Duration};

/// How often a run is asked to stop until it listens, and how long the operator waits between, in milliseconds.
const ATTEMPTS: usize = 1000;

const PAUSE_MILLISECONDS: u64 = 10;

// Stops a run, once it listens. Returns whether it took the line.
fn stopped<R>(rt: &R, alloc: Global, at: ControlAt<'_>) -> bool
where
    R: Net<Listener = TcpListener, Stream = TcpStream> + Clock + Eprint,
{
    for _attempt in 0..ATTEMPTS {
        if let Ok(stopped) = stop_run(rt, alloc, at) {
            return stopped;
        }
        thread::sleep(rt, Duration::from_millis(PAUSE_MILLISECONDS));
    }
    false
}

// Runs two ports that operators control at a socket, and stops them. Returns whether the run took the line, and what it gave.
fn ran_and_stopped<R>(rt: &R, alloc: Global, path: &str, operators: u64) -> (bool, (u8, MemWrite))
where
    R: Net<Listener = TcpListener, Stream = TcpStream>
        + Files
        + Input
        + Threads
        + Wait
        + Clock
        + Eprint
        + RandomSource
        + Sync
        + Abort,
    R::File: AsRawFd + LockFile + Send,
    R::Dir: Send,
{
    let controlled = RunArgs {
        maps: None,
        settle: true,
        control: Control {
            path: Some(path),
            tcp: None,
            operators: Some(operators),
        },
        ..args(1)
    };
    thread::join(
        rt,
        move || stopped(rt, alloc, ControlAt::Path(path)),
        move || ran(rt, alloc, 2, controlled, &OpenGate),
    )
}

// Returns the number of lines of a run that ended with status 0.
fn lines_of(run: (u8, MemWrite)) -> Option<usize> {
    let (status, writer) = run;
    let lines = writer.bytes().iter().filter(|byte| **byte == b'\n').count();
    (status == 0).then_some(lines)
}

// Each port has a line, and one that it is settled; the socket is gone.
#[test]
fn stops_a_run_through_its_socket(rt: HostRuntime) {
    for operators in [1, 32] {
        let (stopped, run) = ran_and_stopped(&rt, rt.alloc(), "stop.sock", operators);
        assert!(rt; stopped, "{operators} operators");
        assert!(rt; lines_of(run) == Some(4), "{operators} operators");
        assert!(rt; fs::symlink_metadata(&rt, "stop.sock").is_err());
    }
}

#[test]
fn refuses_a_file_as_its_socket(rt: HostRuntime) {
    let alloc = rt.alloc();
    assert!(rt; fs::write(&rt, "no.sock", "kept").is_ok());
    let controlled = RunArgs {
        control: Control {
            path: Some("no.sock"),
            tcp: None,
            operators: None,
        },
        ..args(1)
    };
    assert!(rt; ended_with(ran(&rt, alloc, 1, controlled, &OpenGate), 3, ""));
    assert!(rt; fs::metadata(&rt, "no.sock").is_ok_and(|found| found.is_file()));
}

#[test]
fn stops_no_run_if_there_is_none(rt: HostRuntime) {
    assert!(rt; stop_run(&rt, rt.alloc(), ControlAt::Path("none.sock")).is_err());
    assert!(rt; stop_run(&rt, rt.alloc(), ControlAt::Tcp("127.0.0.1:1")).is_err());
}
