//! Desks whose ports took entries before.

ghost use Rattle.std.specs.Prelude.{◌≡◌};

use crate::bench::{close, each_took};
use pon_admit::Event;
use pon_desk::{Desk, DeskFault};
use pon_port::{Port, PortCfg};
use pon_units::{FrameNo, Gap, PortNo, Profile};
use std::alloc::Global;
use std::marker::Brand;
use std::process::Abort;
use std::sync::Wait;
use std::sync::ledger::{Blank, Ledger};

// Opens a port that took this number of maps.
fn port_with(rt: &impl Abort, alloc: Global, maps: u64) -> Port {
    let gap = Gap::new(16).expect(rt, "a gap");
    let profile = Profile::new(0).expect(rt, "a profile");
    let cfg = PortCfg { gap, profile };
    let mut port = Port::open(alloc, cfg, FrameNo::new(7)).expect(rt, "memory");
    for _map in 0..maps {
        port.take(Event::MakeMap).expect(rt, "a map");
    }
    port
}

// Resumes two ports with three seats, and posts a map at each with the first. Returns whether the last seat counts what the
// ports took before, and the desk closes with all entries.
fn counts_the_past<L: Ledger, M: Ledger, R: Wait + Abort>(
    rt: &R,
    alloc: Global,
    of_ports: Blank,
    of_seats: Blank,
) -> bool
    requires ports { (of_ports.name ≡ L.name) × (of_ports.parts ≡ L.parts) × (L.parts ≡ 2) }
    requires seats { (of_seats.name ≡ M.name) × (of_seats.parts ≡ M.parts) × (M.parts ≡ 3) }
{
    let ports = [port_with(rt, alloc, 3), port_with(rt, alloc, 0)];
    let ports = Vec::from_array(alloc, ports).expect(rt, "memory");
    let resumed = Desk::<L, M>::resume(alloc, of_ports, of_seats, ports, 3);
    let (desk, mut seats) = resumed.expect(rt, "a desk");
    let past = seats.get(2).expect(rt, "the last seat").counts() == [3, 0].as_slice();
    let seat = seats.get_mut(0).expect(rt, "a seat");
    let unused = seat.counts() == [0, 0].as_slice();
    for port in 0..2 {
        let posted = desk.post(rt, seat, PortNo::at(port), Event::MakeMap);
        posted.expect(rt, "a map");
    }
    let closed = close(rt, desk, seats);
    past && unused && each_took(closed, &[4, 1])
}

#[test]
fn the_last_seat_counts_what_resumed_ports_took(rt: HostRuntime) {
    let (of_ports, of_seats) = (Blank::new(2), Blank::new(3));
    assert!(rt; counts_the_past::<Brand, Brand, HostRuntime>(&rt, rt.alloc(), of_ports, of_seats));
}

fn fault_without_ports<L: Ledger, M: Ledger>(
    alloc: Global,
    of_ports: Blank,
    of_seats: Blank,
) -> Option<DeskFault>
    requires ports { (of_ports.name ≡ L.name) × (of_ports.parts ≡ L.parts) × (L.parts ≡ 0) }
    requires seats { (of_seats.name ≡ M.name) × (of_seats.parts ≡ M.parts) × (M.parts ≡ 1) }
{
    Desk::<L, M>::resume(alloc, of_ports, of_seats, Vec::new(alloc), 1).err()
}

#[test]
fn no_desk_resumes_without_ports(rt: HostRuntime) {
    let fault = fault_without_ports::<Brand, Brand>(rt.alloc(), Blank::new(0), Blank::new(1));
    assert!(rt; fault == Some(DeskFault::Ports));
}
