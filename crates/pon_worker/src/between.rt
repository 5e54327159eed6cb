//! What is done at a port between two services of it: its line is restored, or its chapter is cut.

ghost use Rattle.std.specs.Prelude.{◌≡◌, ◌<◌, ◌≤◌, IfErr, OnErr, OnOk};
ghost use Rattle.pon_desk.specs.Faults.{TellsRefusal};
ghost use Rattle.pon_ring.specs.Passing.{KeepsRing};
ghost use Rattle.pon_worker.specs.Passing.{PassesChapters, TriesTurn};
ghost use Rattle.pon_worker.specs.Turns.{KeepsPost};

use crate::gate::OpenGate;
use crate::posting::ServedPort;
use pon_admit::Event;
use pon_desk::{Desk, Seat, StepFault};
use pon_ring::Sink;
use pon_units::PortNo;
use std::sync::Wait;
use std::sync::ledger::Ledger;

/// Posts that the line of a port is up again, as a worker posts: the seat keeps the receipt, and the port is turned if its
/// chapter is full, or the sink wants it.
///
/// # Errors
///
/// `NoSuchPort` if the desk has no such port, and `Refused` with the refusal of the port: `PortUp` if its line is up,
/// `OutOfMemory` if memory is refused. Then the seat is unchanged.
pub fn restore_port<L: Ledger, M: Ledger, T: Wait>(
    rt: &T,
    desk: &Desk<L, M>,
    seat: &mut Seat<L, M>,
    port: PortNo,
    sink: &mut Sink,
) -> Result<(), StepFault>
    ensures kept { OnOk result (KeepsPost port Event.Restore seat.old seat.new) }
    ensures refused { IfErr result (λ fault. TellsRefusal Event.Restore fault) }
    ensures err { OnErr result (seat.new ≡ seat.old) }
    ensures sink { PassesChapters sink.old sink.new }
    ensures ring { KeepsRing sink.old sink.new }
{
    let served = ServedPort::new(rt, desk, port, &OpenGate);
    served.post_kept(seat, sink, Event::Restore)
}

/// Turns a port, and passes its chapter to the sink. If the port refuses, or the desk has no such port, nothing happens.
pub fn cut_chapter<L: Ledger, M: Ledger, T: Wait>(
    rt: &T,
    desk: &Desk<L, M>,
    port: PortNo,
    sink: &mut Sink,
)
    ensures turned { port < desk.now.ports → TriesTurn sink.old.outlet sink.new.outlet }
    ensures no_port { desk.now.ports ≤ port → sink.new ≡ sink.old }
    ensures sink { PassesChapters sink.old sink.new }
    ensures ring { KeepsRing sink.old sink.new }
{
    if usize::from(port.get()) < desk.ports() {
        ServedPort::new(rt, desk, port, &OpenGate).turn_port(sink);
    }
}
