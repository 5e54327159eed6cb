//! What a run opens before its first thread: the connections and the rings of its ports, its recorder, and its desk.

ghost use Rattle.std.specs.Prelude.{◌≡◌, ◌+◌, ◌≤◌, IfOk, IfSome, length};
ghost use Rattle.std.specs.Vec.{vec_len};
ghost use Rattle.pon_recorder.specs.Rings.{AreRingsOf};

use crate::arguments::UnitsPlace;
use crate::context::RunContext;
use crate::files::{Begun, begin_recording};
use crate::ports::{MAX_OTHER_SEATS, OTHER_SEATS};
use pon_desk::{Desk, Seat};
use pon_device::DeviceFault;
use pon_files::{FileTape, LockFile};
use pon_job::Failure;
use pon_port::Port;
use pon_recorder::{PortRing, Recorder, Rings, Sinks, open_rings};
use pon_settings::Settings;
use pon_sockets::{Link, accept_links, open_links};
use pon_units::MAX_PORTS;
use pon_worker::Gate;
use std::alloc::Global;
use std::net::{Net, TcpListener, TcpStream};
use std::rt::Files;
use std::sync::ledger::{Blank, Ledger};
use std::time::Clock;

/// What a run opened: the ends of its ports, and the ports that go on, if they do.
#[derive(Drop)]
pub(crate) struct Opened<F> {
    pub(crate) ends: OpenedEnds<F>,
    pub(crate) resumed: Option<Vec<Port>>,
}

/// The connection and the ring of each port, in order, and the recorder, if chapters are wanted.
#[derive(Drop)]
pub(crate) struct OpenedEnds<F> {
    pub(crate) links: Vec<Link>,
    pub(crate) rings: Vec<PortRing>,
    pub(crate) recorder: Option<Recorder<FileTape<F>>>,
}

/// The connection and the sink of each port, in order, and the recording after the sinks, if chapters are wanted.
#[derive(Drop)]
pub(crate) struct RunParts<K: Rings, F> {
    pub(crate) links: Vec<Link>,
    pub(crate) sinks: Sinks<K, FileTape<F>>,
    /// Whether the ports are opened anew, and have no rows yet.
    pub(crate) are_new: bool,
}

// Opens a connection for each port, with its units in this process or elsewhere.
fn links_of<G, R>(run: &RunContext<'_, G, R>, ports: usize) -> Result<Vec<Link>, Failure>
where
    G: Gate,
    R: Net<Listener = TcpListener, Stream = TcpStream> + Clock + Eprint,
    ensures { IfOk result (λ links. vec_len links ≡ ports) }
{
    let address = run.args.listen;
    match run.args.units {
        UnitsPlace::Here { .. } => open_links(run.rt, run.alloc, address, ports),
        UnitsPlace::Elsewhere(external) => {
            accept_links(run.rt, run.alloc, address, ports, external)
        }
    }
}

// Opens a connection and a ring for each port of the settings.
fn open_ends<G, R>(
    run: &RunContext<'_, G, R>,
    recorder: Option<Recorder<FileTape<R::File>>>,
) -> Result<OpenedEnds<R::File>, Failure>
where
    G: Gate,
    R: Net<Listener = TcpListener, Stream = TcpStream> + Files + Clock + Eprint,
    ensures { IfOk result (λ ends. vec_len ends.rings ≡ length run.now.settings.now) }
{
    let ports = run.settings.ports().len();
    let links = links_of(run, ports)?;
    let rings = open_rings(run.alloc, ports, &recorder)?;
    Ok(OpenedEnds {
        links,
        rings,
        recorder,
    })
}

/// Checks and creates the file of the recording, and then opens a connection and a ring for each port of the settings. If
/// these cannot be opened, no part of a recording is left.
pub(crate) fn open_parts<G, R>(
    run: &RunContext<'_, G, R>,
    resumed: Option<Vec<Port>>,
) -> Result<Opened<R::File>, Failure>
where
    G: Gate,
    R: Net<Listener = TcpListener, Stream = TcpStream> + Files + Clock + Eprint,
    R::File: LockFile,
    ensures rings { IfOk result (λ opened. vec_len opened.ends.rings ≡ length run.now.settings.now) }
    ensures resumed { IfOk result (λ opened. opened.resumed ≡ resumed) }
{
    let Begun { recorder, target } = begin_recording(run)?;
    let ends = open_ends(run, recorder);
    if let (Err(_), Some(target)) = (&ends, &target) {
        target.discard(run.rt);
    }
    Ok(Opened {
        ends: ends?,
        resumed,
    })
}

/// Splits the rings of the ports into their sinks and the recording, which keeps the chapters if the ports are to be
/// settled. `Err` only if memory is refused.
pub(crate) fn split_rings<K: Rings, F: Drop>(
    alloc: Global,
    ends: OpenedEnds<F>,
    settle: bool,
    are_new: bool,
) -> Result<RunParts<K, F>, DeviceFault>
    requires few { vec_len ends.rings ≤ MAX_PORTS }
    requires named { AreRingsOf K.ring ends.rings.items }
{
    let OpenedEnds {
        links,
        rings,
        recorder,
    } = ends;
    let sinks = Sinks::split(alloc, rings, recorder, settle)?;
    Ok(RunParts {
        links,
        sinks,
        are_new,
    })
}

/// Opens a desk for the ports of the settings, or for the ports that go on, with a seat for each worker and the other seats.
/// `Err` only if memory is refused, or if the ports took 2^64 entries or more together.
pub(crate) fn open_desk<L: Ledger, M: Ledger>(
    alloc: Global,
    settings: &Settings,
    resumed: Option<Vec<Port>>,
    of_ports: Blank,
    of_seats: Blank,
    others: usize,
) -> Result<(Desk<L, M>, Vec<Seat<L, M>>), DeviceFault>
    requires ports { (of_ports.name ≡ L.name) × (of_ports.parts ≡ L.parts)
        × (L.parts ≡ length settings.now) }
    requires seats { (of_seats.name ≡ M.name) × (of_seats.parts ≡ M.parts)
        × (M.parts ≡ length settings.now + others) }
    requires others { (OTHER_SEATS ≤ others) × (others ≤ MAX_OTHER_SEATS) }
    requires resumed { IfSome resumed (λ ports. vec_len ports ≡ length settings.now) }
    ensures ports { IfOk result (λ opened. opened.0.ports ≡ length settings.now) }
    ensures seats { IfOk result (λ opened. others ≤ vec_len opened.1) }
{
    let count = settings.ports().len() + others;
    if let Some(ports) = resumed {
        return match Desk::resume(alloc, of_ports, of_seats, ports, count) {
            Ok(opened) => Ok(opened),
            Err(_) => Err(DeviceFault::Memory),
        };
    }
    let openings = settings.openings(alloc)?;
    match Desk::open(alloc, of_ports, of_seats, openings.as_slice(), count) {
        Ok(opened) => Ok(opened),
        Err(_) => Err(DeviceFault::Memory),
    }
}
