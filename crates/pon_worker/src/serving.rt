//! The turns of a worker.

ghost use Rattle.std.specs.Prelude.{◌≤◌, ℕ};
ghost use Rattle.pon_ring.specs.Passing.{KeepsRing};
ghost use Rattle.pon_worker.specs.Passing.{PassesChapters};
ghost use Rattle.pon_worker.specs.Turns.{EndsAs, PostsAt, PostsEnd, most_others, no_counts};
ghost use Rattle.pon_desk.specs.Counts.{SeatState};

use crate::counts::{StopReason, WorkerEnd};
use crate::gate::{Gate, Pace};
use crate::posting::ServedPort;
use crate::turn::turn;
use crate::work::Work;
use pon_admit::Event;
use pon_desk::{Desk, Seat};
use pon_device::{DevRead, DevWrite};
use pon_ring::Sink;
use pon_units::PortNo;
use std::sync::Wait;
use std::sync::ledger::Ledger;

// Makes the turns that the pace gives, and counts their results.
fn make_turns<L: Ledger, M: Ledger, G: Gate, P: Pace, R: DevRead, W: DevWrite, T: Wait>(
    served: &ServedPort<'_, L, M, G, T>,
    seat: &mut Seat<L, M>,
    sink: &mut Sink,
    pace: &mut P,
    reader: &mut R,
    writer: &mut W,
) -> WorkerEnd
    ensures ended { EndsAs served.now.port served.now.desk.now.ports result.why no_counts
        result.counts seat.old seat.new (W.contents writer.old) (W.contents writer.new)
        (R.remaining reader.old) (R.remaining reader.new) }
    ensures posts { PostsAt served.now.port 0 seat.old seat.new no_counts result.counts }
    ensures sink { PassesChapters sink.old sink.new }
{
    let mut work = Work::new();
    let mut why = StopReason::Finished;
    for _ in served.rt.forever() {
        if !pace.next(&work.counts, sink.dropped()) {
            break;
        }
        match turn(served, seat, sink, &mut work, reader, writer) {
            Ok(()) => {}
            Err(ended) => {
                why = ended;
                break;
            }
        }
    }
    work.counts.end(why)
}

// Posts that the port is failed, if its link was given up.
fn give_up<L: Ledger, M: Ledger, G: Gate, T: Wait>(
    served: &ServedPort<'_, L, M, G, T>,
    seat: &mut Seat<L, M>,
    sink: &mut Sink,
    why: StopReason,
)
    ensures posts { PostsEnd served.now.port why seat.old seat.new }
    ensures sink { PassesChapters sink.old sink.new }
{
    let StopReason::Gave { cause } = why else {
        return;
    };
    let _posted = served.post_kept(seat, sink, Event::Fail { cause });
}

/// Serves a port over its link, for as many turns as the pace gives. In each turn it posts `MakeMap`, calls the gate at
/// `Send`, writes the record of the map, calls the gate at `Read`, reads one record for each burst of the map, and
/// posts it as a report. It holds no lock while it calls the gate, writes or reads.
///
/// After a post whose entry has an index at which the sink wants a turn ([`Sink::wants_turn`]), it turns the port and
/// passes the chapter to the sink. It also turns a port that refuses an event by `ChapterFull`, and then posts the event
/// once more; only the second result counts. If the port refuses the turn, the worker goes on.
///
/// A record whose burst header is refused, or has the ONU-ID 1023, is counted as garbled and dropped; a report that the
/// port refuses is counted, and ends the worker only if memory was refused for it. It ends as [`StopReason`] says. A write
/// or read that fails is tried three times in a row; then it posts that the port is failed, and so it does if what it read
/// is not a record, or the input ended. It flushes nothing, so the writer must send what it takes by itself.
pub fn serve_port<L: Ledger, M: Ledger, G: Gate, P: Pace, R: DevRead, W: DevWrite, T: Wait>(
    rt: &T,
    desk: &Desk<L, M>,
    seat: &mut Seat<L, M>,
    port: PortNo,
    gate: &G,
    pace: &mut P,
    reader: &mut R,
    writer: &mut W,
    sink: &mut Sink,
) -> WorkerEnd
    // For devices that show their bytes: the bytes written are the maps that the port made, each with the whole promise
    // of a map, and the records counted are those that were read. The seat was given the receipts of the maps and of the
    // reports, and then, in some state, that of the failure of the port, if one was posted.
    ensures ended { (mid : SeatState) × EndsAs port desk.now.ports result.why no_counts
        result.counts seat.old mid (W.contents writer.old) (W.contents writer.new)
        (R.remaining reader.old) (R.remaining reader.new)
        × PostsEnd port result.why mid seat.new }
    ensures posts { (others : ℕ) × (others ≤ most_others result.why)
        × PostsAt port others seat.old seat.new no_counts result.counts }
    ensures sink { PassesChapters sink.old sink.new }
    ensures ring { KeepsRing sink.old sink.new }
{
    let served = ServedPort::new(rt, desk, port, gate);
    let end = make_turns(&served, seat, sink, pace, reader, writer);
    give_up(&served, seat, sink, end.why);
    end
}
