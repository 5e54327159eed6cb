ghost use Rattle.std.specs.Prelude.{◌≡◌, length, vec_len, IfOk, OnOk};
ghost use Rattle.pon_plant.specs.Plants.{opened_port, opened_ports};
ghost use Rattle.pon_desk.specs.Counts.{AreUnused, unused_seat};

use crate::held::Held;
use crate::seat::Seat;
use pon_lists::Kept;
use pon_port::{Port, PortCfg};
use pon_units::FrameNo;
use std::alloc::{AllocError, Global};
use std::marker::PhantomData;
use std::sync::Mutex;
use std::sync::ledger::{Ledger, Share};

// Opens a port with its part of the ledger.
fn open_port<L: Ledger>(
    alloc: Global,
    cfg: PortCfg,
    first: FrameNo,
    share: Share<L>,
) -> Result<Held<L>, AllocError>
    requires { (share.parts ≡ 1) × (share.amount ≡ 0) }
    ensures { IfOk result (λ held. held ≡ opened_port (cfg, first)) }
{
    let port = Port::open(alloc, cfg, first)?;
    Ok(Held { port, share })
}

// Opens a port for each configuration and first frame, in their order, each with one part of the ledger.
fn open_each<L: Ledger>(
    alloc: Global,
    ports: &[(PortCfg, FrameNo)],
    all: &mut Share<L>,
) -> Result<Vec<Held<L>>, AllocError>
    requires { (all.old.parts ≡ length ports.now) × (all.old.amount ≡ 0) }
    ensures opened { IfOk result (λ opened. opened.items ≡ opened_ports ports.now) }
    ensures none { OnOk result ((all.new.parts ≡ 0) × (all.new.amount ≡ 0)) }
{
    let mut opened = Vec::with_capacity(alloc, ports.len())?;
    for (cfg, first) in ports {
        let share = all.split_off(1, 0);
        let held = open_port(alloc, *cfg, *first, share)?;
        opened.push_reserved(held);
    }
    Ok(opened)
}

// Puts each port under its own lock, in their order.
pub(crate) fn lock_each<L: Ledger>(
    alloc: Global,
    ports: Vec<Held<L>>,
) -> Result<Vec<Mutex<Held<L>>>, AllocError>
    ensures { IfOk result (λ locks. vec_len locks ≡ vec_len ports) }
{
    let mut locks = Vec::with_capacity(alloc, ports.len())?;
    for held in ports {
        locks.push_reserved(Mutex::new(held));
    }
    Ok(locks)
}

// Opens the ports, each under its own lock. `Err` only if memory is refused.
pub(crate) fn open_ports<L: Ledger>(
    alloc: Global,
    ports: &[(PortCfg, FrameNo)],
    all: &mut Share<L>,
) -> Result<Vec<Mutex<Held<L>>>, AllocError>
    requires { (all.old.parts ≡ length ports.now) × (all.old.amount ≡ 0) }
    ensures ports { IfOk result (λ locks. vec_len locks ≡ length ports.now) }
    ensures none { OnOk result ((all.new.parts ≡ 0) × (all.new.amount ≡ 0)) }
{
    let opened = open_each(alloc, ports, all)?;
    lock_each(alloc, opened)
}

// Opens a seat without posts at this number of ports, with its part of the ledger.
fn open_seat<L: Ledger, M: Ledger>(
    alloc: Global,
    number: usize,
    ports: usize,
    share: Share<M>,
) -> Result<Seat<L, M>, AllocError>
    requires ports { ports ≡ L.parts }
    requires share { (share.parts ≡ 1) × (share.amount ≡ 0) }
    ensures { IfOk result (λ seat. seat ≡ unused_seat number ports) }
{
    let counts = vec![in alloc; 0; ports]?;
    Ok(Seat {
        number,
        counts,
        kept: Kept::Nothing,
        share,
        of: PhantomData,
    })
}

// Opens this number of seats, each with one part of the ledger. `Err` only if memory is refused.
pub(crate) fn open_seats<L: Ledger, M: Ledger>(
    alloc: Global,
    ports: usize,
    seats: usize,
    all: &mut Share<M>,
) -> Result<Vec<Seat<L, M>>, AllocError>
    requires ports { ports ≡ L.parts }
    requires seats { (all.old.parts ≡ seats) × (all.old.amount ≡ 0) }
    ensures seats { IfOk result (λ opened. AreUnused seats ports opened.items) }
    ensures none { OnOk result ((all.new.parts ≡ 0) × (all.new.amount ≡ 0)) }
{
    let mut opened = Vec::new(alloc);
    for number in 0..seats {
        let share = all.split_off(1, 0);
        opened.push(open_seat(alloc, number, ports, share)?)?;
    }
    Ok(opened)
}
