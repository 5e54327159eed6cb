// How a worker reads the bursts of a map, and posts their reports.
ghost use Rattle.std.specs.Prelude.{◌≡◌, ◌<◌, false, true, IfSome, MatchBool, MatchOption, OnOk};
ghost use Rattle.pon_link.specs.Reading.{empty};
ghost use Rattle.pon_worker.specs.Passing.{PassesChapters};
ghost use Rattle.pon_worker.specs.Records.{is_nobodys};
ghost use Rattle.pon_worker.specs.Turns.{CoversCounts, LacksReport, PostsAt, PostsRecord, ReadsBursts};

use crate::counts::{PortCounts, StopReason};
use crate::gate::Gate;
use crate::posting::ServedPort;
use crate::receiving::receive;
use crate::work::Work;
use pon_admit::Event;
use pon_descr::Refusal;
use pon_desk::{Seat, StepFault};
use pon_device::DevRead;
use pon_link::{Direction, UpRecord};
use pon_ring::Sink;
use pon_units::OnuId;
use pon_xgtc::BurstHead;
use std::sync::Wait;
use std::sync::ledger::Ledger;

/// The ONU-ID that no unit has (ITU-T G.987.3, ONU-ID).
pub(crate) const NO_ONU: u16 = 1023;

// Returns the ONU that sent a burst. `None` if its header names none.
fn sender(head: Option<BurstHead>) -> Option<OnuId>
    ensures { MatchOption result (is_nobodys head ≡ true)
        (λ onu. (is_nobodys head ≡ false) × IfSome head (λ h. h.onu_raw ≡ onu)) }
{
    OnuId::new(head?.onu_raw())
}

// Returns the report of an ONU in a burst.
fn report_of(burst: UpRecord, onu: OnuId) -> Event
    ensures { result ≡ Event.Report burst.frame onu burst.occ }
{
    Event::Report {
        frame: burst.frame,
        onu,
        occ: burst.occ,
    }
}

// Posts the report of a burst, and counts the result. Returns `false` if memory was refused for it.
fn post_record<L: Ledger, M: Ledger, G: Gate, T: Wait>(
    served: &ServedPort<'_, L, M, G, T>,
    seat: &mut Seat<L, M>,
    sink: &mut Sink,
    burst: UpRecord,
    counts: &mut PortCounts,
) -> bool
    requires port { served.now.port < served.now.desk.now.ports }
    requires posts { CoversCounts served.now.port seat.old counts.old }
    ensures counted { MatchBool result
        (PostsRecord served.now.port burst counts.old counts.new seat.old seat.new)
        (LacksReport burst counts.old counts.new seat.old seat.new) }
    ensures maps { counts.new.maps ≡ counts.old.maps }
    ensures posts { PostsAt served.now.port 0 seat.old seat.new counts.old counts.new }
    ensures sink { PassesChapters sink.old sink.new }
{
    counts.prove_in_range();
    let Some(onu) = sender(burst.head) else {
        counts.count_garbled(burst.head);
        return true;
    };
    let posted = served.post_kept(seat, sink, report_of(burst, onu));
    counts.count_report(posted)
}

// Reads this number of bursts, and posts their reports. Otherwise returns why no further burst is read.
pub(crate) fn read_bursts<L: Ledger, M: Ledger, G: Gate, R: DevRead, T: Wait>(
    served: &ServedPort<'_, L, M, G, T>,
    seat: &mut Seat<L, M>,
    sink: &mut Sink,
    bursts: usize,
    work: &mut Work,
    reader: &mut R,
) -> Result<(), StopReason>
    requires port { served.now.port < served.now.desk.now.ports }
    requires empty { work.old.up ≡ empty Direction.Up }
    requires posts { CoversCounts served.now.port seat.old work.old.counts }
    ensures read { ReadsBursts served.now.port bursts result seat.old seat.new work.old.counts
        work.new.counts work.new.up (R.remaining reader.old) (R.remaining reader.new) }
    ensures maps { work.new.counts.maps ≡ work.old.counts.maps }
    ensures posts { PostsAt served.now.port 0 seat.old seat.new work.old.counts work.new.counts }
    ensures sink { PassesChapters sink.old sink.new }
    ensures all { OnOk result (work.new.up ≡ empty Direction.Up) }
{
    work.counts.prove_in_range();
    for _burst in 0..bursts {
        let burst = match receive(&mut work.up, reader) {
            Ok(burst) => burst,
            Err(cause) => return Err(StopReason::Gave { cause }),
        };
        if !post_record(served, seat, sink, burst, &mut work.counts) {
            return Err(StopReason::Refused(StepFault::Refused(Refusal::OutOfMemory)));
        }
    }
    Ok(())
}
