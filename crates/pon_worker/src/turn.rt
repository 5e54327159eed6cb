// One turn of a worker.
ghost use Rattle.std.specs.Prelude.{◌≡◌, IfErr, OnOk};
ghost use Rattle.pon_link.specs.Reading.{empty};
ghost use Rattle.pon_worker.specs.Passing.{PassesChapters};
ghost use Rattle.pon_worker.specs.Turns.{CoversCounts, EndsAs, PostsAt, Turned};

use crate::counts::StopReason;
use crate::gate::Gate;
use crate::posting::{ServedPort, made_map};
use crate::reading::read_bursts;
use crate::sending::send_at_gate;
use crate::work::Work;
use pon_desk::Seat;
use pon_device::{DevRead, DevWrite};
use pon_link::Direction;
use pon_ring::Sink;
use std::sync::Wait;
use std::sync::ledger::Ledger;

// Has the port make a map, sends it, and then reads and posts its bursts. Otherwise returns why the turn ended.
pub(crate) fn turn<L: Ledger, M: Ledger, G: Gate, R: DevRead, W: DevWrite, T: Wait>(
    served: &ServedPort<'_, L, M, G, T>,
    seat: &mut Seat<L, M>,
    sink: &mut Sink,
    work: &mut Work,
    reader: &mut R,
    writer: &mut W,
) -> Result<(), StopReason>
    requires empty { work.old.up ≡ empty Direction.Up }
    requires posts { CoversCounts served.now.port seat.old work.old.counts }
    ensures turned { OnOk result (Turned served.now.port work.old.counts work.new.counts seat.old
        seat.new (W.contents writer.old) (W.contents writer.new) (R.remaining reader.old)
        (R.remaining reader.new)) }
    ensures empty { OnOk result (work.new.up ≡ empty Direction.Up) }
    ensures ended { IfErr result (λ why. EndsAs served.now.port served.now.desk.now.ports why
        work.old.counts work.new.counts seat.old seat.new (W.contents writer.old)
        (W.contents writer.new) (R.remaining reader.old) (R.remaining reader.new)) }
    ensures posts { PostsAt served.now.port 0 seat.old seat.new work.old.counts work.new.counts }
    ensures sink { PassesChapters sink.old sink.new }
{
    work.counts.prove_in_range();
    let receipt = match served.make_map(seat, sink) {
        Ok(receipt) => receipt,
        Err(fault) => return Err(StopReason::Refused(fault)),
    };
    work.counts.maps += 1;
    let sent = send_at_gate(served.gate, served.port, made_map(&receipt), writer);
    seat.keep(receipt);
    read_bursts(served, seat, sink, sent?, work, reader)
}
