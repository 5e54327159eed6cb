//! Workers of two ports over real sockets: one whose link breaks, and one that continues.
ghost use Rattle.std.specs.Prelude.{◌≡◌};

use crate::bench::{cause, number, seat};
use crate::links::{are_maps, bursts, open};
use pon_desk::{Desk, Seat};
use pon_device::{StdRead, StdWrite};
use pon_units::PortNo;
use pon_worker::{OpenGate, Sink, StopReason, Turns, WorkerEnd, serve_port};
use std::alloc::Global;
use std::io::{Read, Write};
use std::marker::Brand;
use std::net::{Net, Shutdown, TcpListener, TcpStream};
use std::process::Abort;
use std::sync::Wait;
use std::sync::ledger::{Blank, Ledger};
use std::thread;
use std::thread::Threads;

// Opens a connection within this machine. The end of the units sends these bytes and then ends.
fn link<R: Net<Listener = TcpListener, Stream = TcpStream> + Abort>(
    rt: &R,
    bytes: &[u8],
) -> (TcpStream, TcpStream) {
    let listener = TcpListener::bind(rt, "127.0.0.1:0").expect(rt, "a listener");
    let address = listener.local_addr().expect(rt, "an address");
    let mut units = TcpStream::connect(rt, address).expect(rt, "a connection");
    let (worker, _peer) = listener.accept().expect(rt, "the connection");
    units.write_all(bytes).expect(rt, "room");
    units.shutdown(Shutdown::Write).expect(rt, "an end");
    (worker, units)
}

// Serves a port for three turns over its end of a connection.
fn serve<L: Ledger, M: Ledger, R: Wait>(
    rt: &R,
    desk: &Desk<L, M>,
    mut seat: Seat<L, M>,
    port: PortNo,
    stream: TcpStream,
) -> WorkerEnd {
    let mut reader = StdRead::new(&stream);
    let mut writer = StdWrite::new(&stream);
    let mut pace = Turns::new(3);
    serve_port(
        rt,
        desk,
        &mut seat,
        port,
        &OpenGate,
        &mut pace,
        &mut reader,
        &mut writer,
        &mut Sink::none(),
    )
}

// Serves port 0 over the first connection and port 1 over the second, at the same time.
fn serve_both<L, M, R>(
    rt: &R,
    alloc: Global,
    of_ports: Blank,
    of_seats: Blank,
    broken: TcpStream,
    whole: TcpStream,
) -> (WorkerEnd, WorkerEnd)
where
    L: Ledger + Send + Sync,
    M: Ledger + Send + Sync,
    R: Threads + Wait + Abort + Sync,
    requires ports { (of_ports.name ≡ L.name) × (of_ports.parts ≡ L.parts) × (L.parts ≡ 2) }
    requires seats { (of_seats.name ≡ M.name) × (of_seats.parts ≡ M.parts) × (M.parts ≡ 3) }
{
    let (desk, mut seats) = open::<L, M, R>(rt, alloc, of_ports, of_seats);
    let one = seat(rt, &mut seats);
    let two = seat(rt, &mut seats);
    let (first, second) = (number(rt, 0), number(rt, 1));
    let shared = &desk;
    thread::join(
        rt,
        move || serve(rt, shared, one, first, broken),
        move || serve(rt, shared, two, second, whole),
    )
}

fn is_given_up(rt: &impl Abort, end: &WorkerEnd, number: u8) -> bool {
    let cause = cause(rt, number);
    end.why == StopReason::Gave { cause }
}

fn is_finished(end: &WorkerEnd) -> bool {
    end.counts.maps == 3 && end.counts.reports == 3 && end.why == StopReason::Finished
}

fn has_all_maps(rt: &impl Abort, alloc: Global, units: &mut TcpStream) -> bool {
    let mut written = Vec::new(alloc);
    units.read_to_end(&mut written).expect(rt, "what was sent");
    are_maps(rt, alloc, &written, 3)
}

// Returns whether port 0 is given up for this cause at these bytes, and port 1 continues.
fn is_broken_by<R>(rt: &R, alloc: Global, bytes: &[u8], number: u8) -> bool
where
    R: Net<Listener = TcpListener, Stream = TcpStream> + Threads + Wait + Abort + Sync,
{
    let (broken, _units) = link(rt, bytes);
    let (whole, mut units) = link(rt, bursts(rt, alloc, 3).as_slice());
    let (of_ports, of_seats) = (Blank::new(2), Blank::new(3));
    let (end, other_end) = serve_both::<Brand, Brand, R>(
        rt, alloc, of_ports, of_seats, broken, whole,
    );
    let has_all = has_all_maps(rt, alloc, &mut units);
    has_all && is_given_up(rt, &end, number) && is_finished(&other_end)
}

#[test]
fn a_broken_link_leaves_the_other_port_as_it_is(rt: HostRuntime) {
    let burst = bursts(&rt, rt.alloc(), 1);
    let half = burst.as_slice().get(..17).expect(&rt, "18 bytes");
    for (bytes, cause) in [(b"".as_slice(), 5), (b"T".as_slice(), 4), (half, 5)] {
        assert!(rt;
            is_broken_by(&rt, rt.alloc(), bytes, cause),
            "{}",
            bytes.len()
        );
    }
    assert!(rt; burst.len() == 18);
}
