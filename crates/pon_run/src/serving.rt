//! A run, from its settings to its last line.

ghost use Rattle.std.specs.Prelude.{◌≡◌, ◌⊎◌, ◌+◌, ◌≤◌, IfOk, IfSome, IsNone, OnOk, is_ok, length, map, true};
ghost use Rattle.std.specs.Vec.{vec_len};
ghost use Rattle.pon_recorder.specs.Rings.{AreRingsOf};
ghost use Rattle.pon_recorder.specs.Whole.{IsWholeRecording};
ghost use Rattle.pon_run.specs.Runs.{EndsDone, TellsWorked};

use crate::arguments::RunArgs;
use crate::context::RunContext;
use crate::control::ControlPart;
use crate::ending::tell;
use crate::metrics::open_metrics;
use crate::opening::{Opened, RunParts, open_desk, open_parts, split_rings};
use crate::operator::{OpenedLines, answer, open_control, open_operator};
use crate::ports::{MAX_OTHER_SEATS, OTHER_SEATS, admit_rows, served_ports};
use crate::running::{PortsServed, Results, ThreadsEnded, serve_all};
use crate::seats::{OtherSeats, join_seats, split_seats};
use crate::start::RunPorts;
use crate::watch::RunWatch;
use crossbeam_channel::bounded;
use pon_desk::{Desk, Seat};
use pon_device::{DevWrite, DeviceFault};
use pon_files::{FileTape, LockFile};
use pon_job::{Failure, exit_status, outcome_of_ports};
use pon_port::Port;
use pon_recorder::{Rings, Sinks};
use pon_sockets::ControlListener;
use pon_units::MAX_PORTS;
use pon_worker::Gate;
use std::alloc::Global;
use std::fs::OpenFile;
use std::io::{Read, Write};
use std::marker::Brand;
use std::net::{Net, TcpListener, TcpStream};
use std::os::fd::AsRawFd;
use std::random::RandomSource;
use std::rt::Files;
use std::sync::Wait;
use std::sync::ledger::{Blank, Ledger};
use std::thread::Threads;
use std::time::Clock;

/// The operators of a run: the lines of the first, if it has one, and where others connect, if they can.
#[derive(Drop)]
struct Operators<'a, F> {
    lines: Option<OpenedLines<F>>,
    listener: Option<&'a ControlListener>,
}

// Serves the ports of a desk while the operators' lines are executed. Returns what the threads left, and how the first
// operator ended.
fn serve<L, M, K, G, F, W, R>(
    run: &RunContext<'_, G, R>,
    desk: &Desk<L, M>,
    ports: PortsServed<L, M, K, FileTape<F>>,
    operators: Operators<'_, F>,
    seat: &mut Seat<L, M>,
    control: Vec<Seat<L, M>>,
    writer: &mut W,
) -> Result<ThreadsEnded<L, M, K, FileTape<F>>, DeviceFault>
where
    L: Ledger + Send + Sync,
    M: Ledger + Send + Sync,
    K: Rings + Send + Sync,
    G: Gate + Sync,
    F: Read + Write + OpenFile + LockFile + AsRawFd + Drop + Send,
    W: DevWrite,
    R: Net<Listener = TcpListener, Stream = TcpStream>
        + Files<File = F>
        + Input
        + Eprint
        + Wait
        + Threads
        + Clock
        + Sync,
    R::Dir: Send,
    ensures quiet { IsNone operators.entry.lines → W.contents writer.new ≡ W.contents writer.old }
    ensures failures { IsNone operators.entry.lines → W.failures writer.new ≡ W.failures writer.old }
{
    let Operators { lines, listener } = operators;
    let (accepted, served) = bounded(run.alloc, 0)?;
    let served = &served;
    let control = listener.map(|listener| ControlPart {
        listener,
        seats: control,
        accepted,
        served,
    });
    match lines {
        None => serve_all(run, desk, ports, control, || Ok(())),
        Some(lines) => serve_all(run, desk, ports, control, || {
            answer(run, desk, seat, lines, writer)
        }),
    }
}

// Writes what each port did, and returns whether the run is done. `Err` also if the operator's lines were not all executed.
fn tell_results<L, M, K, G, F, W, R>(
    run: &RunContext<'_, G, R>,
    desk: Desk<L, M>,
    others: Vec<Seat<L, M>>,
    results: Results<L, M, K, FileTape<F>>,
    writer: &mut W,
) -> Result<bool, Failure>
where
    L: Ledger,
    M: Ledger,
    K: Rings,
    G: Gate,
    F: OpenFile + Write + Drop,
    W: DevWrite,
    R: Files + Eprint,
    ensures done { IfOk result (λ done. done ≡ true
        → TellsWorked (map (λ w. w.end) results.worked.items) desk.ports run.now.args.settle
        (W.contents writer.old) (W.contents writer.new)) }
    ensures operated { OnOk result (is_ok results.operated ≡ true) }
    ensures whole { IfOk result (λ done. done ≡ true
        → IfSome results.recording (λ r. IsWholeRecording r.recorder r.whole)) }
{
    let operated = results.operated;
    let done = tell(run, desk, others, results, writer)?;
    operated?;
    Ok(done)
}

// Admits the rows of the settings at new ports, and combines what serves each port.
fn prepare<L: Ledger, M: Ledger, K: Rings, G: Gate, F: Drop, R: Wait>(
    run: &RunContext<'_, G, R>,
    desk: &Desk<L, M>,
    seat: &mut Seat<L, M>,
    seats: Vec<Seat<L, M>>,
    parts: RunParts<K, F>,
) -> Result<PortsServed<L, M, K, FileTape<F>>, DeviceFault> {
    let RunParts {
        links,
        sinks,
        are_new,
    } = parts;
    if are_new {
        admit_rows(run.rt, run.alloc, desk, seat, run.settings)?;
    }
    let Sinks { sinks, recording } = sinks;
    let all = served_ports(run.alloc, run.settings, seats, sinks, links)?;
    Ok(PortsServed { all, recording })
}

// Has each seat keep the receipts of its posts, if the ports are to be settled.
fn keep_receipts<L: Ledger, M: Ledger>(alloc: Global, seats: &mut [Seat<L, M>], settle: bool) {
    if !settle {
        return;
    }
    for seat in seats {
        seat.keep_receipts(alloc);
    }
}

// Admits the rows of the settings at an open desk with new ports, serves its ports, and writes what each did. Returns whether
// no worker ended early and no post was lost.
fn run_desk<L, M, K, G, F, W, R>(
    run: &RunContext<'_, G, R>,
    desk: Desk<L, M>,
    mut seats: Vec<Seat<L, M>>,
    parts: RunParts<K, F>,
    operators: Operators<'_, F>,
    writer: &mut W,
) -> Result<bool, Failure>
where
    L: Ledger + Send + Sync,
    M: Ledger + Send + Sync,
    K: Rings + Send + Sync,
    G: Gate + Sync,
    F: Read + Write + OpenFile + LockFile + AsRawFd + Drop + Send,
    W: DevWrite,
    R: Net<Listener = TcpListener, Stream = TcpStream>
        + Files<File = F>
        + Input
        + Eprint
        + Wait
        + Threads
        + Clock
        + Sync,
    R::Dir: Send,
    requires { OTHER_SEATS ≤ vec_len seats }
    ensures { IfOk result (λ done. done ≡ true → EndsDone desk.ports run.now.args.settle (IsNone operators.entry.lines)
        (W.contents writer.old) (W.contents writer.new)) }
{
    keep_receipts(run.alloc, seats.as_mut_slice(), run.args.settle);
    let OtherSeats {
        mut rows,
        mut operator,
        control,
    } = split_seats(&mut seats, run.settings.ports().len())?;
    let ports = prepare(run, &desk, &mut rows, seats, parts)?;
    let ended = serve(run, &desk, ports, operators, &mut operator, control, writer)?;
    let (others, _open) = join_seats(run.alloc, rows, operator, ended.operators)?;
    tell_results(run, desk, others, ended.results, writer)
}

// Opens a desk for the ports of the settings, or for those that go on, and runs it.
fn run_at<L, M, K, G, F, W, R>(
    run: &RunContext<'_, G, R>,
    of_ports: Blank,
    of_seats: Blank,
    others: usize,
    opened: Opened<F>,
    operators: Operators<'_, F>,
    writer: &mut W,
) -> Result<bool, Failure>
where
    L: Ledger + Send + Sync,
    M: Ledger + Send + Sync,
    K: Rings + Send + Sync,
    G: Gate + Sync,
    F: Read + Write + OpenFile + LockFile + AsRawFd + Drop + Send,
    W: DevWrite,
    R: Net<Listener = TcpListener, Stream = TcpStream>
        + Files<File = F>
        + Input
        + Eprint
        + Wait
        + Threads
        + Clock
        + Sync,
    R::Dir: Send,
    requires ports { (of_ports.name ≡ L.name) × (of_ports.parts ≡ L.parts)
        × (L.parts ≡ length run.now.settings.now) }
    requires seats { (of_seats.name ≡ M.name) × (of_seats.parts ≡ M.parts)
        × (M.parts ≡ length run.now.settings.now + others) }
    requires others { (OTHER_SEATS ≤ others) × (others ≤ MAX_OTHER_SEATS) }
    requires rings { (vec_len opened.ends.rings ≤ MAX_PORTS) × AreRingsOf K.ring opened.ends.rings.items }
    requires resumed { IfSome opened.resumed (λ ports. vec_len ports ≡ length run.now.settings.now) }
    ensures { IfOk result (λ done. done ≡ true → EndsDone (length run.now.settings.now)
        run.now.args.settle (IsNone operators.entry.lines) (W.contents writer.old) (W.contents writer.new)) }
{
    let Opened { ends, resumed } = opened;
    let parts = split_rings::<K, F>(run.alloc, ends, run.args.settle, resumed.is_none())?;
    let (desk, seats) = open_desk::<L, M>(
        run.alloc,
        run.settings,
        resumed,
        of_ports,
        of_seats,
        others,
    )?;
    run_desk(run, desk, seats, parts, operators, writer)
}

// Opens the recording and the sockets of the ports, in this order, and runs them.
fn open_and_serve<G, W, R>(
    run: &RunContext<'_, G, R>,
    resumed: Option<Vec<Port>>,
    operators: Operators<'_, R::File>,
    writer: &mut W,
) -> Result<bool, Failure>
where
    G: Gate + Sync,
    W: DevWrite,
    R: Net<Listener = TcpListener, Stream = TcpStream>
        + Files
        + Input
        + Eprint
        + Threads
        + Wait
        + Clock
        + Sync,
    R::File: AsRawFd + LockFile + Send,
    R::Dir: Send,
    requires { IfSome resumed (λ ports. vec_len ports ≡ length run.now.settings.now) }
    ensures { IfOk result (λ done. done ≡ true → EndsDone (length run.now.settings.now)
        run.now.args.settle (IsNone operators.entry.lines)
        (W.contents writer.old) (W.contents writer.new)) }
{
    let opened = open_parts(run, resumed)?;
    let ports = run.settings.ports().len();
    let others = run.args.other_seats();
    run_at::<Brand, Brand, Brand, G, R::File, W, R>(
        run,
        Blank::new(ports as u64),
        Blank::new((ports + others) as u64),
        others,
        opened,
        operators,
        writer,
    )
}

// Opens what the operators of a run need, and runs it.
fn open_and_run<G, W, R>(
    run: &RunContext<'_, G, R>,
    resumed: Option<Vec<Port>>,
    writer: &mut W,
) -> Result<bool, Failure>
where
    G: Gate + Sync,
    W: DevWrite,
    R: Net<Listener = TcpListener, Stream = TcpStream>
        + Files
        + Input
        + Eprint
        + Threads
        + Wait
        + Clock
        + Sync,
    R::File: AsRawFd + LockFile + Send,
    R::Dir: Send,
    requires { IfSome resumed (λ ports. vec_len ports ≡ length run.now.settings.now) }
    ensures { IfOk result (λ done. done ≡ true → EndsDone (length run.now.settings.now)
        run.now.args.settle (IsNone run.now.args.operate)
        (W.contents writer.old) (W.contents writer.new)) }
{
    let lines = open_operator(run)?;
    let control = open_control(run)?;
    let listener = control.as_ref();
    let ended = open_and_serve(run, resumed, Operators { lines, listener }, writer);
    if let Some(control) = control {
        control.close(run.rt);
    }
    ended
}

// Returns the exit status of a run that ended so, and prints its failure.
fn status_of(rt: &impl Eprint, ended: Result<bool, Failure>) -> u8
    ensures status { (result ≡ 0) ⊎ (result ≡ 3) }
    ensures done { result ≡ 0 → ended ≡ Ok true }
{
    match ended {
        Ok(done) => exit_status(outcome_of_ports(Ok(done))),
        Err(failure) => {
            failure.print(rt);
            exit_status(outcome_of_ports(Err(failure.fault)))
        }
    }
}

/// Runs the ports of the settings, opened anew or going on.
///
/// Opens the operator's file, listens for the operators that may connect, creates the part of the recording's file, listens on
/// the address, opens a connection for each port, and admits the rows of the settings at new ports. Then each port makes `maps` maps for its
/// units, which answer over the connection, while the operators' lines are executed; those of standard input and of operators
/// that connect end when the workers have ended, and their connections are closed when the run has ended. The units are
/// simulated in this process, or come from elsewhere, each port's by a connection to an address of its own. At the end the
/// chapter of each port is recorded, the part of a whole recording gets the name of its file, and a line about each port is
/// written. The gate may hold workers back.
///
/// Returns the exit status: 0 if no worker ended early, all the operator's lines were executed and the recording is whole;
/// otherwise 3. A worker that a line `stop` ends has not ended early. Standard error has a text if a device failed or memory was
/// refused: `olt: read failed` if the operator's file cannot be read, the socket of the operators that connect or of the metrics cannot be made,
/// or the address cannot be read, bound, connected to or accepted on, also if connections of others keep the run from its own
/// for 10 seconds;
/// `olt: write failed`, also if the file of the recording is one that the run reads, exists and is not to be replaced, or cannot be
/// created, written, synced or renamed; or `olt: out of memory`, also if a thread cannot be created; then, indented, the file or the
/// address that failed, and why. A worker that ended early has an indented line alone. All threads have ended when it returns.
pub fn run_ports<G, W, R>(
    rt: &R,
    alloc: Global,
    ports: RunPorts,
    args: RunArgs<'_>,
    gate: &G,
    writer: &mut W,
) -> u8
where
    G: Gate + Sync,
    W: DevWrite,
    R: Net<Listener = TcpListener, Stream = TcpStream>
        + Files
        + Input
        + Eprint
        + Threads
        + Wait
        + Clock
        + RandomSource
        + Sync,
    R::File: AsRawFd + LockFile + Send,
    R::Dir: Send,
    ensures status { (result ≡ 0) ⊎ (result ≡ 3) }
    // Without an operator only these lines are written.
    ensures lines { result ≡ 0 → EndsDone (length ports) args.entry.settle (IsNone args.entry.operate)
        (W.contents writer.old) (W.contents writer.new) }
{
    let RunPorts { settings, resumed } = ports;
    let Ok(watch) = RunWatch::open(alloc, settings.ports().len(), args.has_operator()) else {
        return status_of(rt, Err(Failure::from(DeviceFault::Memory)));
    };
    let metrics = match open_metrics(rt, alloc, args.metrics) {
        Ok(metrics) => metrics,
        Err(failure) => return status_of(rt, Err(failure)),
    };
    let run = RunContext::new(rt, alloc, &settings, args, gate, &watch, metrics.as_ref());
    let ended = open_and_run(&run, resumed, writer);
    status_of(rt, ended)
}
