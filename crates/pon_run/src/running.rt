//! The threads of a run: for each port its worker and its units, if they are in this process, the recorder's, that of the
//! progress, if it is printed, and those of the operators that connect; started and joined.

use crate::answering::answer_units;
use crate::context::RunContext;
use crate::control::{ControlPart, Operated, accept_operators, serve_operators};
use crate::metrics::start_metrics;
use crate::progress::print_progress;
use crate::recorder_watch::ThreadWatch;
use crate::thread::{Worked, WorkerPart, work};
use pon_desk::Desk;
use pon_device::DeviceFault;
use pon_files::{FileTape, LockFile, SegmentFiles};
use pon_link::UnitsFault;
use pon_recorder::{Recording, Rings};
use pon_sockets::UnitsPart;
use pon_units::PortNo;
use pon_worker::Gate;
use std::alloc::{AllocError, Global};
use std::fs::OpenFile;
use std::io::Write;
use std::net::{Net, TcpListener, TcpStream};
use std::rt::Files;
use std::sync::Wait;
use std::sync::atomic::{AtomicBool, Ordering};
use std::sync::ledger::Ledger;
use std::thread;
use std::thread::{JoinHandle, Scope, Threads};
use std::time::Clock;

/// What serves one port: its worker, and its units, if they are in this process.
#[derive(Drop)]
pub(crate) struct Served<L: Ledger, M: Ledger, K: Rings> {
    pub(crate) worker: WorkerPart<L, M, K>,
    pub(crate) units: Option<UnitsPart>,
}

/// What serves each port of a run, in order, and the recording of their chapters, if there is one.
#[derive(Drop)]
pub(crate) struct PortsServed<L: Ledger, M: Ledger, K: Rings, W> {
    pub(crate) all: Vec<Served<L, M, K>>,
    pub(crate) recording: Option<Recording<K, W>>,
}

/// The threads of a port: its worker's, and that of its units, if they are in this process.
#[derive(Drop)]
struct Running<L: Ledger, M: Ledger, K: Rings> {
    worker: JoinHandle<Worked<L, M, K>>,
    units: Option<JoinHandle<Result<(), UnitsFault>>>,
}

/// The threads of a run: those of each port, in order, the recorder's, if there is a recording, that of the progress, if
/// it is printed, and those of the seats for operators that connect.
#[derive(Drop)]
struct RunThreads<L: Ledger, M: Ledger, K: Rings, W> {
    ports: Vec<Running<L, M, K>>,
    recorder: Option<JoinHandle<Recording<K, W>>>,
    progress: Option<JoinHandle<Result<(), AllocError>>>,
    operators: Vec<JoinHandle<Operated<L, M>>>,
}

/// The results of a run's threads.
#[derive(Drop)]
pub(crate) struct Results<L: Ledger, M: Ledger, K: Rings, W> {
    /// Those of the workers, in the order of their ports.
    pub(crate) worked: Vec<Worked<L, M, K>>,
    /// The recording, with what the recorder has not taken yet, if it had a thread.
    pub(crate) recording: Option<Recording<K, W>>,
    /// How the operator ended.
    pub(crate) operated: Result<(), DeviceFault>,
}

/// What is left of a run when all its threads have ended: their results, and the seats for operators that connect.
#[derive(Drop)]
pub(crate) struct ThreadsEnded<L: Ledger, M: Ledger, K: Rings, W> {
    pub(crate) results: Results<L, M, K, W>,
    pub(crate) operators: Vec<Operated<L, M>>,
}

// Starts the thread of the units of a port. `None` if it cannot be created.
fn start_units<'s, E, L, M, G, R>(
    scope: &Scope<'s, E>,
    run: &'s RunContext<'s, G, R>,
    desk: &'s Desk<L, M>,
    port: PortNo,
    units: UnitsPart,
) -> Option<JoinHandle<Result<(), UnitsFault>>>
where
    L: Ledger + Send + Sync,
    M: Ledger + Send + Sync,
    G: Gate + Sync,
    R: Wait + Sync,
{
    scope
        .spawn(move || answer_units(run, desk, port, units))
        .ok()
}

// Starts the thread of the worker of a port. `None` if it cannot be created.
fn start_worker<'s, E, L, M, K, G, R>(
    scope: &Scope<'s, E>,
    run: &'s RunContext<'s, G, R>,
    desk: &'s Desk<L, M>,
    worker: WorkerPart<L, M, K>,
) -> Option<JoinHandle<Worked<L, M, K>>>
where
    L: Ledger + Send + Sync,
    M: Ledger + Send + Sync,
    K: Rings + Send + Sync + 's,
    G: Gate + Sync,
    R: Wait + Clock + Eprint + Sync,
{
    scope.spawn(move || work(run, desk, worker)).ok()
}

// Starts the threads of a port. `None` if one cannot be created; the other then finds its connection closed, and ends.
fn start<'s, E, L, M, K, G, R>(
    scope: &Scope<'s, E>,
    run: &'s RunContext<'s, G, R>,
    desk: &'s Desk<L, M>,
    part: WorkerPart<L, M, K>,
    units: Option<UnitsPart>,
) -> Option<Running<L, M, K>>
where
    L: Ledger + Send + Sync,
    M: Ledger + Send + Sync,
    K: Rings + Send + Sync + 's,
    G: Gate + Sync,
    R: Wait + Clock + Eprint + Sync,
{
    let port = part.port();
    let units = match units {
        Some(units) => Some(start_units(scope, run, desk, port, units)?),
        None => None,
    };
    let worker = start_worker(scope, run, desk, part)?;
    Some(Running { worker, units })
}

// Starts the threads of all ports. Returns `Memory` if one cannot be created.
fn start_all<'s, E, L, M, K, G, R>(
    scope: &Scope<'s, E>,
    run: &'s RunContext<'s, G, R>,
    desk: &'s Desk<L, M>,
    all: Vec<Served<L, M, K>>,
) -> Result<Vec<Running<L, M, K>>, DeviceFault>
where
    L: Ledger + Send + Sync,
    M: Ledger + Send + Sync,
    K: Rings + Send + Sync + 's,
    G: Gate + Sync,
    R: Wait + Clock + Eprint + Sync,
{
    let mut running = Vec::with_capacity(run.alloc, all.len())?;
    for Served { worker, units } in all {
        let Some(threads) = start(scope, run, desk, worker, units) else {
            return Err(DeviceFault::Memory);
        };
        running.push(threads)?;
    }
    Ok(running)
}

// Waits for the threads of all ports to end, and returns the results of the workers.
fn join_all<L: Ledger, M: Ledger, K: Rings, R: Threads>(
    rt: &R,
    alloc: Global,
    running: Vec<Running<L, M, K>>,
) -> Result<Vec<Worked<L, M, K>>, DeviceFault> {
    let mut all = Vec::with_capacity(alloc, running.len())?;
    for Running { worker, units } in running {
        let _answered = units.map(|units| units.join(rt));
        all.push(worker.join(rt))?;
    }
    Ok(all)
}

// Starts the thread that prints the progress, if that is wanted. Returns `Memory` if it cannot be created.
fn start_progress<'s, E, G, R>(
    scope: &Scope<'s, E>,
    run: &'s RunContext<'s, G, R>,
    stop: &'s AtomicBool,
) -> Result<Option<JoinHandle<Result<(), AllocError>>>, DeviceFault>
where
    G: Gate + Sync,
    R: Clock + Eprint + Sync,
{
    if !run.args.progress {
        return Ok(None);
    }
    match scope.spawn(move || print_progress(run.rt, run.alloc, run.watch, stop)) {
        Ok(thread) => Ok(Some(thread)),
        Err(_) => Err(DeviceFault::Memory),
    }
}

// Starts the recorder's thread, if there is a recording for it. Returns `Memory` if it cannot be created.
fn start_recorder<'s, E, K, G, F, R>(
    scope: &Scope<'s, E>,
    run: &'s RunContext<'s, G, R>,
    recording: Option<Recording<K, FileTape<F>>>,
    stop: &'s AtomicBool,
) -> Result<Option<JoinHandle<Recording<K, FileTape<F>>>>, DeviceFault>
where
    K: Rings + Send + Sync + 's,
    G: Gate + Sync,
    F: OpenFile + Write + LockFile + Drop + Send + 's,
    R: Files<File = F> + Eprint + Wait + Clock + Sync,
    R::Dir: Send,
{
    let Some(recording) = recording else {
        return Ok(None);
    };
    match scope.spawn(move || {
        let files = SegmentFiles::new(run.rt);
        recording.run(run.rt, &files, &ThreadWatch::new(run.watch, stop))
    }) {
        Ok(thread) => Ok(Some(thread)),
        Err(_) => Err(DeviceFault::Memory),
    }
}

// Starts the threads of the operators that connect: one for each seat, and one that accepts connections. Returns `Memory` if
// one cannot be created.
fn start_operators<'s, E, L, M, G, R>(
    scope: &Scope<'s, E>,
    run: &'s RunContext<'s, G, R>,
    desk: &'s Desk<L, M>,
    control: Option<ControlPart<'s, L, M>>,
) -> Result<Vec<JoinHandle<Operated<L, M>>>, DeviceFault>
where
    L: Ledger + Send + Sync,
    M: Ledger + Send + Sync,
    G: Gate + Sync,
    R: Net<Listener = TcpListener, Stream = TcpStream> + Wait + Clock + Eprint + Sync,
{
    let Some(
        ControlPart {
            listener,
            seats,
            accepted,
            served,
        },
    ) = control
    else {
        return Ok(Vec::new(run.alloc));
    };
    let mut operators = Vec::with_capacity(run.alloc, seats.len())?;
    for seat in seats {
        match scope.spawn(move || serve_operators(run, desk, seat, served)) {
            Ok(thread) => operators.push(thread)?,
            Err(_) => return Err(DeviceFault::Memory),
        }
    }
    match scope.spawn(move || accept_operators(run, listener, accepted)) {
        Ok(_accepting) => Ok(operators),
        Err(_) => Err(DeviceFault::Memory),
    }
}

// Waits for the threads of the operators that connect to end, and returns their seats.
fn join_operators<L: Ledger, M: Ledger, R: Threads>(
    rt: &R,
    alloc: Global,
    threads: Vec<JoinHandle<Operated<L, M>>>,
) -> Result<Vec<Operated<L, M>>, DeviceFault> {
    let mut operators = Vec::with_capacity(alloc, threads.len())?;
    for thread in threads {
        operators.push(thread.join(rt))?;
    }
    Ok(operators)
}

// Starts the threads of a run. Returns `Memory` if one cannot be created; running workers then make no further turn.
fn start_threads<'s, E, L, M, K, G, F, R>(
    scope: &Scope<'s, E>,
    run: &'s RunContext<'s, G, R>,
    desk: &'s Desk<L, M>,
    ports: PortsServed<L, M, K, FileTape<F>>,
    control: Option<ControlPart<'s, L, M>>,
    stop: &'s AtomicBool,
) -> Result<RunThreads<L, M, K, FileTape<F>>, DeviceFault>
where
    L: Ledger + Send + Sync,
    M: Ledger + Send + Sync,
    K: Rings + Send + Sync + 's,
    G: Gate + Sync,
    F: OpenFile + Write + LockFile + Drop + Send + 's,
    R: Net<Listener = TcpListener, Stream = TcpStream>
        + Files<File = F>
        + Wait
        + Clock
        + Eprint
        + Sync,
    R::Dir: Send,
{
    let PortsServed { all, recording } = ports;
    let recorder = start_recorder(scope, run, recording, stop)?;
    let progress = start_progress(scope, run, stop)?;
    start_metrics(scope, run, desk, stop)?;
    let ports = start_all(scope, run, desk, all)?;
    let operators = start_operators(scope, run, desk, control)?;
    Ok(RunThreads {
        ports,
        recorder,
        progress,
        operators,
    })
}

// Waits for the threads of all ports to end, and then ends the others. Returns their results, with how the operator ended.
fn end_threads<L: Ledger, M: Ledger, K: Rings, G: Gate, W: Drop, R: Threads>(
    run: &RunContext<'_, G, R>,
    threads: RunThreads<L, M, K, W>,
    stop: &AtomicBool,
    operated: Result<(), DeviceFault>,
) -> Result<ThreadsEnded<L, M, K, W>, DeviceFault> {
    let RunThreads {
        ports,
        recorder,
        progress,
        operators,
    } = threads;
    let worked = join_all(run.rt, run.alloc, ports);
    let operators = join_operators(run.rt, run.alloc, operators);
    stop.store(true, Ordering::SeqCst);
    let _printed = progress.map(|thread| thread.join(run.rt));
    let recording = match recorder {
        None => None,
        Some(thread) => Some(thread.join(run.rt)),
    };
    let results = Results {
        worked: worked?,
        recording,
        operated,
    };
    Ok(ThreadsEnded {
        results,
        operators: operators?,
    })
}

/// Serves each port in its own threads, and calls `meanwhile` during that time, while the recorder takes the ports'
/// chapters and operators may connect. Returns the results of the threads and of `meanwhile`, and the operators' seats. All threads have ended when it returns.
///
/// Returns `Memory` if memory is refused or a thread cannot be created; running workers then make no further turn.
pub(crate) fn serve_all<L, M, K, G, F, R, O>(
    run: &RunContext<'_, G, R>,
    desk: &Desk<L, M>,
    ports: PortsServed<L, M, K, FileTape<F>>,
    control: Option<ControlPart<'_, L, M>>,
    meanwhile: O,
) -> Result<ThreadsEnded<L, M, K, FileTape<F>>, DeviceFault>
where
    L: Ledger + Send + Sync,
    M: Ledger + Send + Sync,
    K: Rings + Send + Sync,
    G: Gate + Sync,
    F: OpenFile + Write + LockFile + Drop + Send,
    R: Net<Listener = TcpListener, Stream = TcpStream>
        + Files<File = F>
        + Wait
        + Threads
        + Clock
        + Eprint
        + Sync,
    R::Dir: Send,
    O: FnOnce() -> Result<(), DeviceFault>,
    requires { O.pre meanwhile }
{
    let stopped = AtomicBool::new(false);
    let stop = &stopped;
    thread::scope(
        thread::scope_env(),
        run.rt,
        move |scope| -> Result<ThreadsEnded<L, M, K, FileTape<F>>, DeviceFault>
            requires { O.pre meanwhile }
        {
            let threads = match start_threads(scope, run, desk, ports, control, stop) {
                Ok(threads) => threads,
                Err(fault) => {
                    run.watch.stop();
                    stop.store(true, Ordering::SeqCst);
                    return Err(fault);
                }
            };
            let operated = meanwhile();
            end_threads(run, threads, stop, operated)
        },
    )
}
