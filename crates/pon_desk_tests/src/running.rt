//! Ports that are served over sockets of this machine.

use pon_device::MemWrite;
use pon_files::LockFile;
use pon_job::{Control, Segments};
use pon_run::{LinesFrom, RunArgs, RunPorts, UnitsPlace, run_ports};
use pon_settings::{Settings, settings};
use pon_units::PortNo;
use pon_worker::{Gate, OpenGate, Point};
use std::alloc::Global;
use std::net::{Net, TcpListener, TcpStream};
use std::os::fd::AsRawFd;
use std::process::Abort;
use std::random::RandomSource;
use std::rt::Files;
use std::sync::Wait;
use std::sync::atomic::{AtomicU64, Ordering};
use std::thread;
use std::thread::Threads;
use std::time::Clock;

// A port with one Alloc-ID of 10 words a frame, whose unit has 100 words.
const PORT: &str = "\
    [[port]]\ngap = 16\n\
    [[port.alloc]]\nonu = 5\nalloc = 1024\nfixed = 2560\nassured = 0\nmax = 2560\nclass = \"none\"\nqueue = 100\n";

// An address of this machine, with a free port.
const HERE: &str = "127.0.0.1:0";

// How often a held worker checks for the other one before the gate refuses it.
const LOOKS: u32 = 1_000;

// Holds the worker of each port at `Send` until the worker of the other port is there too.
#[derive(Drop)]
struct Both {
    asked: [AtomicU64; 2],
}

impl Gate for Both {
    fn pass(&self, port: PortNo, point: Point) -> bool {
        if point == Point::Read {
            return true;
        }
        let mine = usize::from(port.get()) % 2;
        self.asked[mine].fetch_add(1, Ordering::SeqCst);
        for _look in 0..LOOKS {
            if self.asked[1 - mine].load(Ordering::SeqCst) > 0 {
                return true;
            }
            thread::yield_now();
        }
        false
    }
}

// Settings of three ports, with one, two and three ONUs.
const THREE_PORTS: &str = "\
    [[port]]\ngap = 16\n\
    [[port.alloc]]\nonu = 5\nalloc = 1024\nfixed = 2560\nassured = 0\nmax = 2560\nclass = \"none\"\nqueue = 100\n\
    [[port]]\ngap = 16\n\
    [[port.alloc]]\nonu = 6\nalloc = 1025\nfixed = 2560\nassured = 0\nmax = 2560\nclass = \"none\"\nqueue = 100\n\
    [[port.alloc]]\nonu = 7\nalloc = 1026\nfixed = 2560\nassured = 0\nmax = 2560\nclass = \"none\"\nqueue = 100\n\
    [[port]]\ngap = 16\n\
    [[port.alloc]]\nonu = 8\nalloc = 1027\nfixed = 2560\nassured = 0\nmax = 2560\nclass = \"none\"\nqueue = 100\n\
    [[port.alloc]]\nonu = 9\nalloc = 1028\nfixed = 2560\nassured = 0\nmax = 2560\nclass = \"none\"\nqueue = 100\n\
    [[port.alloc]]\nonu = 10\nalloc = 1029\nfixed = 2560\nassured = 0\nmax = 2560\nclass = \"none\"\nqueue = 100\n";

/// Returns the text of the settings of this number of ports that are alike.
pub(crate) fn text(rt: &impl Abort, alloc: Global, ports: usize) -> String {
    let mut text = String::new(alloc);
    for _port in 0..ports {
        text.push_str(PORT).expect(rt, "memory");
    }
    text
}

/// Returns the settings of a text.
pub(crate) fn read(rt: &impl Abort, alloc: Global, text: &str) -> Settings {
    settings(alloc, text).ok().expect(rt, "settings")
}

// Runs the ports of these settings. Returns the exit status and the text that was written.
fn ran_with<G, R>(rt: &R, alloc: Global, text: &str, args: RunArgs<'_>, gate: &G) -> (u8, MemWrite)
where
    G: Gate + Sync,
    R: Net<Listener = TcpListener, Stream = TcpStream>
        + Files
        + Input
        + Threads
        + Wait
        + Clock
        + Eprint
        + RandomSource
        + Sync
        + Abort,
    R::File: AsRawFd + LockFile + Send,
    R::Dir: Send,
{
    let ports = RunPorts::opened(read(rt, alloc, text));
    let mut writer = MemWrite::new(alloc, 4096, Vec::new(alloc));
    let status = run_ports(rt, alloc, ports, args, gate, &mut writer);
    (status, writer)
}

/// Runs this number of ports that are alike. Returns the exit status and the text that was written.
pub(crate) fn ran<G, R>(
    rt: &R,
    alloc: Global,
    ports: usize,
    args: RunArgs<'_>,
    gate: &G,
) -> (u8, MemWrite)
where
    G: Gate + Sync,
    R: Net<Listener = TcpListener, Stream = TcpStream>
        + Files
        + Input
        + Threads
        + Wait
        + Clock
        + Eprint
        + RandomSource
        + Sync
        + Abort,
    R::File: AsRawFd + LockFile + Send,
    R::Dir: Send,
{
    let text = text(rt, alloc, ports);
    ran_with(rt, alloc, text.as_str(), args, gate)
}

/// Returns whether a run ended with this exit status and text.
pub(crate) fn ended_with(run: (u8, MemWrite), status: u8, text: &str) -> bool {
    let (found, writer) = run;
    found == status && writer.bytes() == text.as_bytes()
}

fn ended_with_lines(run: (u8, MemWrite), count: usize) -> bool {
    let (status, writer) = run;
    status == 0 && writer.bytes().iter().filter(|byte| **byte == b'\n').count() == count
}

/// No operator may connect.
const NO_CONTROL: Control<'static> = Control {
    path: None,
    tcp: None,
    operators: None,
};

/// The segments of a recording in one file.
const NO_SEGMENTS: Segments = Segments {
    maps: None,
    keep: None,
};

/// Arguments of a run of this number of maps for each port, without an operator.
pub(crate) fn args(maps: u64) -> RunArgs<'static> {
    RunArgs {
        listen: HERE,
        units: UnitsPlace::Here { grow: false },
        maps: Some(maps),
        pace: None,
        operate: None,
        control: NO_CONTROL,
        record: None,
        segments: NO_SEGMENTS,
        resumed_from: None,
        flush: 0,
        no_clobber: false,
        strict_record: false,
        config: None,
        settle: false,
        progress: false,
        summary: false,
        metrics: None,
    }
}

#[test]
fn runs_a_port_for_three_maps(rt: HostRuntime) {
    let run = ran(&rt, rt.alloc(), 1, args(3), &OpenGate);
    assert!(rt; ended_with(run, 0, "port 0 maps 3 entries 7 reports 3 dropped 0\n"));
}

#[test]
fn runs_two_ports_at_the_same_time(rt: HostRuntime) {
    let gate = Both {
        asked: [AtomicU64::new(0), AtomicU64::new(0)],
    };
    let run = ran(&rt, rt.alloc(), 2, args(1), &gate);
    let lines =
        "port 0 maps 1 entries 3 reports 1 dropped 0\nport 1 maps 1 entries 3 reports 1 dropped 0\n";
    assert!(rt; ended_with(run, 0, lines));
}

// A gate that lets no worker pass.
struct Shut;

impl Gate for Shut {
    fn pass(&self, _port: PortNo, _point: Point) -> bool {
        false
    }
}

#[test]
fn tells_that_a_worker_ended_early(rt: HostRuntime) {
    let run = ran(&rt, rt.alloc(), 1, args(3), &Shut);
    assert!(rt; ended_with(run, 3, "port 0 maps 1 entries 2 reports 0 dropped 0\n"));
}

// A gate that lets no worker pass but those of the ports after the first.
struct ShutAtPort0;

impl Gate for ShutAtPort0 {
    fn pass(&self, port: PortNo, _point: Point) -> bool {
        port.get() > 0
    }
}

#[test]
fn tells_each_port_its_own_numbers(rt: HostRuntime) {
    let run = ran_with(&rt, rt.alloc(), THREE_PORTS, args(3), &OpenGate);
    let lines =
        "port 0 maps 3 entries 7 reports 3 dropped 0\nport 1 maps 3 entries 11 reports 6 dropped 0\nport 2 maps 3 entries 15 reports 9 dropped 0\n";
    assert!(rt; ended_with(run, 0, lines));
    let run = ran_with(&rt, rt.alloc(), THREE_PORTS, args(3), &ShutAtPort0);
    let lines =
        "port 0 maps 1 entries 2 reports 0 dropped 0\nport 1 maps 3 entries 11 reports 6 dropped 0\nport 2 maps 3 entries 15 reports 9 dropped 0\n";
    assert!(rt; ended_with(run, 3, lines));
}

// An address, and the paths of an operator and of a recording, one of which cannot be opened.
static ABSENT: [(&str, Option<&str>, Option<&str>); 6] = [
    ("nowhere", None, None),
    ("127.0.0.1", None, None),
    ("127.0.0.1:65536", None, None),
    ("192.0.2.1:0", None, None),
    (HERE, Some("no/such/file"), None),
    (HERE, None, Some("no/such/file")),
];

#[test]
fn refuses_what_cannot_be_opened(rt: HostRuntime) {
    for (k, (listen, operate, record)) in ABSENT.iter().enumerate() {
        let args = RunArgs {
            listen,
            operate: operate.map(LinesFrom::File),
            record: *record,
            ..args(1)
        };
        assert!(rt;
            ended_with(ran(&rt, rt.alloc(), 1, args, &OpenGate), 3, ""),
            "row {k}"
        );
    }
}

#[test]
fn settles_each_port(rt: HostRuntime) {
    let settled = RunArgs {
        settle: true,
        ..args(5_000)
    };
    let run = ran(&rt, rt.alloc(), 2, settled, &OpenGate);
    let lines =
        "port 0 maps 5000 entries 10001 reports 5000 dropped 0\nport 1 maps 5000 entries 10001 reports 5000 dropped 0\nsettled port 0 receipts 10001\nsettled port 1 receipts 10001\n";
    assert!(rt; ended_with(run, 0, lines));
}

#[test]
fn runs_64_ports_again_and_again(rt: HostRuntime) {
    for k in 0..20 {
        let run = ran(&rt, rt.alloc(), 64, args(2), &OpenGate);
        assert!(rt; ended_with_lines(run, 64), "run {k}");
    }
}
